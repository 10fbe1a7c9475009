// Keys of atoms that see the orders of two matrices and the atoms that were placed. Every function here is internal.
#![tactic(auto)]

ghost use Rattle.std.specs.Prelude.{◌≡◌, ◌++◌, ◌*◌, ◌<◌, ◌≤◌, ◌%◌, length, get_or, drop};
ghost use Rattle.loops.specs.Loop.{run, up_to, each};
ghost use Rattle.same_model.specs.Same.{max_same};
ghost use Rattle.same_keys.specs.Keys.{prime, key_sum};
ghost use Rattle.same_finer.specs.Finer.{weight, weight_cell, mirror, times_low, add_weighed, Near, Nears, next_key, finer, finer_told};

use same_place::{CELLS, SIDE};

// A prime; keys are mixed below it.
const PRIME: u64 = 2147483647;

// The weights of a matrix, and for each atom those to which it has a bond that weighs, as bits.
#[derive(Clone, Copy)]
pub struct Weights<'a> {
    pub w: &'a [u16; CELLS],
    pub near: &'a [u64; SIDE],
}

// What a bond weighs, by a cell of a matrix.
fn weight(x: u16) -> u16
    ensures { result ≡ weight x }
{
    let y = x % 4;
    if y == 0 {
        return 0;
    }
    if y == 1 {
        return 1;
    }
    if y == 2 {
        return 256;
    }
    6561
}

// The weight at a place of a matrix.
fn weight_cell(o: &[u16; CELLS], i: usize) -> u16
    requires { i < max_same * max_same }
    ensures { result ≡ weight_cell o.now i }
{
    if i / SIDE == i % SIDE {
        return 0;
    }
    weight(o[i])
}

// internal: the weights of a matrix, its first n rows.
pub fn fill_weights(o: &[u16; CELLS], n: usize, w: &mut [u16; CELLS])
    requires { (n ≤ max_same) × (max_same * max_same ≤ length w.old) }
    ensures { w.new ≡ up_to (weight_cell o.now) 0 (max_same * n) ++ drop (max_same * n) w.old }
{
    let end = SIDE * n;
    for i in 0..end {
        w[i] = weight_cell(o, i);
    }
}

// internal: whether the weights of n rows are the same both ways.
pub fn is_mirrored(w: &[u16; CELLS], n: usize) -> bool
    requires { n ≤ max_same }
    ensures { result ≡ each (mirror w.now) 0 (max_same * n) }
{
    let end = SIDE * n;
    for i in 0..end {
        if w[i] != w[SIDE * (i % SIDE) + i / SIDE] {
            return false;
        }
    }
    true
}

// A weight times a mixed key, both cut.
fn times_low(x: u16, y: u64) -> u64
    ensures { result ≡ times_low x y }
{
    (x % 8192) as u64 * (y % 2147483648)
}

// The atoms to which the atom a has a bond that weighs, as bits.
fn weighty(w: &[u16; CELLS], n: usize, a: usize) -> u64
    requires { (n ≤ max_same) × (a < max_same) }
    ensures { Near w.now n a result }
{
    same_open::mask_of(n, |b| w[SIDE * a + b] != 0)
}

// internal: these for each of n atoms.
pub fn fill_weighty(w: &[u16; CELLS], n: usize, near: &mut [u64; SIDE])
    requires { (n ≤ max_same) × (n ≤ length near.old) }
    ensures { Nears w.now n near.new }
{
    for a in 0..n {
        near[a] = weighty(w, n, a);
    }
}

// The next key of an atom, from the mixed keys of those whose bonds to it weigh.
fn next_key(w: &[u16; CELLS], near: u64, mixed: &[u64; SIDE], n: usize, a: usize, key: u64) -> u64
    requires { (n ≤ max_same) × (a < max_same) × Near w.now n a near }
    ensures { result ≡ run (add_weighed w.now mixed.now a) 0 n (key % prime) }
{
    let mut sum = key % PRIME;
    let mut rest = near;
    let mut b = 0;
    // Stays: this counts no index, it goes from one bit that is set to the next.
    while rest != 0 {
        let skip = u64::trailing_zeros(rest) as usize;
        b += skip;
        rest = rest >> skip;
        sum += times_low(w[SIDE * a + b], mixed[b]);
        rest = rest / 2;
        b += 1;
    }
    sum
}

// One round, from old keys to new ones.
fn round(weights: Weights, n: usize, old: &[u64; SIDE], keys: &mut [u64; SIDE])
    requires { (n ≤ max_same) × (n ≤ length keys.old) × (n ≤ length old.now) × Nears weights.w.now n weights.near.now }
    ensures { keys.new ≡ up_to (next_key weights.entry.w.now n old.now) 0 n ++ drop n keys.old }
{
    let Weights { w, near } = weights;
    let mut mixed = [0u64; SIDE];
    same_keys::mix_all(old, n, &mut mixed);
    for a in 0..n {
        keys[a] = next_key(w, near[a], &mixed, n, a, old[a]);
    }
}

// internal: r rounds.
pub fn make_finer(weights: Weights, n: usize, r: usize, keys: &mut [u64; SIDE])
    requires { (n ≤ max_same) × (n ≤ length keys.old) × Nears weights.w.now n weights.near.now }
    ensures { keys.new ≡ finer weights.entry.w.now n r keys.old }
{
    for i in 0..r {
        let old = *keys;
        round(weights, n, &old, keys);
    }
}

// internal: an atom told apart, and three rounds; answers the sum of the keys then.
pub fn tell(weights: Weights, n: usize, v: usize, keys: &mut [u64; SIDE]) -> u64
    requires { (n ≤ max_same) × (v < n) × (n ≤ length keys.old) × Nears weights.w.now n weights.near.now }
    ensures keys_after { keys.new ≡ finer_told weights.entry.w.now n keys.old v }
    ensures value { result ≡ key_sum (finer_told weights.entry.w.now n keys.old v) n }
{
    keys[v] = keys[v] % PRIME + 1000003;
    make_finer(weights, n, 3, keys);
    same_keys::key_sum(keys, n)
}
