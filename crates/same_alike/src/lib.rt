// Atoms that are alike: where the image of one under a list that keeps all that is looked at cannot come next, neither can it. The lists are guesses, and checked. Every function here is internal.
#![tactic(auto)]

ghost use Rattle.std.specs.Prelude.{◌≡◌, true, List, [], ℕ, ◌+◌, ◌-◌, ◌<◌, ◌≤◌, take, get_or, length};
ghost use Rattle.loops.specs.Loop.{each};
ghost use Rattle.same_model.specs.Same.{max_same};
ghost use Rattle.same_place.specs.Place.{Prefix};
ghost use Rattle.same_finer.specs.Finer.{ways_by, Hopeless, Nears};
ghost use Rattle.same_alike.specs.Alike.{like_pair, like_row, is_fixed, Like};

use same_finer::Weights;
use same_place::{CELLS, SIDE};

// Two matrices, and which of n atoms of the first may go to which of the second.
#[derive(Clone, Copy)]
pub struct Sides<'a> {
    pub o1: &'a [u16; CELLS],
    pub o2: &'a [u16; CELLS],
    // Stays: its cells are numbers, as `placeable` and `like_pair` state them.
    pub ok: &'a [u8; CELLS],
    pub n: usize,
}

// Where the atoms before `from` were placed.
#[derive(Clone, Copy)]
pub struct Placed<'a> {
    pub ren: &'a [u8; SIDE],
    pub from: usize,
}

// How many guesses were wrong and right so far.
#[derive(Clone, Copy)]
pub struct Luck {
    pub wrong: u32,
    pub right: u32,
}

// What two atoms ask of the list, by their images.
fn is_pair_like(sides: Sides, tau: &[u8; SIDE], a: usize, b: usize) -> bool
    requires { (a < max_same) × (b < max_same) × (get_or tau.now a 0 < max_same) × (get_or tau.now b 0 < max_same) }
    ensures { result ≡ like_pair sides.entry.o2.now sides.entry.ok.now tau.now a b }
{
    let Sides { o2, ok, .. } = sides;
    let x = tau[a] as usize;
    let y = tau[b] as usize;
    if ok[SIDE * a + y] != ok[SIDE * a + b] {
        return false;
    }
    if a == b {
        return true;
    }
    if x == y {
        return false;
    }
    o2[SIDE * x + y] == o2[SIDE * a + b]
}

// What one atom asks of it, beside all.
fn is_row_like(sides: Sides, tau: &[u8; SIDE], a: usize) -> bool
    requires { (sides.n ≤ max_same) × (a < sides.n) × ((b : ℕ) → b < sides.n → get_or tau.now b 0 < sides.n) }
    ensures { result ≡ like_row sides.entry.o2.now sides.entry.ok.now tau.now sides.entry.n a }
{
    for b in 0..sides.n {
        if !is_pair_like(sides, tau, a, b) {
            return false;
        }
    }
    true
}

// What all ask of it.
fn are_rows_like(sides: Sides, tau: &[u8; SIDE]) -> bool
    requires { (sides.n ≤ max_same) × ((b : ℕ) → b < sides.n → get_or tau.now b 0 < sides.n) }
    ensures { result ≡ each (like_row sides.entry.o2.now sides.entry.ok.now tau.now sides.entry.n) 0 sides.entry.n }
{
    for a in 0..sides.n {
        if !is_row_like(sides, tau, a) {
            return false;
        }
    }
    true
}

// Whether the images of the atoms placed before `from` stay.
fn are_fixed(tau: &[u8; SIDE], placed: Placed) -> bool
    requires { (placed.from ≤ max_same) × ((b : ℕ) → b < placed.from → get_or placed.ren.now b 0 < max_same) }
    ensures { result ≡ each (is_fixed tau.now placed.entry.ren.now) 0 placed.entry.from }
{
    let Placed { ren, from } = placed;
    for b in 0..from {
        let image = ren[b] as usize;
        if tau[image] != ren[b] {
            return false;
        }
    }
    true
}

// Whether a list keeps all that is looked at.
fn is_like(sides: Sides, tau: &[u8; SIDE], placed: Placed) -> bool
    requires { Prefix sides.n placed.ren.now placed.from }
    ensures { result ≡ true → Like sides.entry.o2.now sides.entry.ok.now sides.entry.n tau.now placed.entry.ren.now placed.entry.from }
{
    if !same_open::are_inside(tau, sides.n) {
        return false;
    }
    if !are_fixed(tau, placed) {
        return false;
    }
    are_rows_like(sides, tau)
}

// Marks each atom whose image has a mark.
fn spread(sides: Sides, tau: &[u8; SIDE], placed: Placed, dead: &mut [u8; SIDE])
    requires prefix { Prefix sides.n placed.ren.now placed.from × (placed.from < sides.n) }
    requires like { Like sides.o2.now sides.ok.now sides.n tau.now placed.ren.now placed.from }
    requires hopeless { Hopeless sides.o1.now sides.o2.now sides.ok.now sides.n (take placed.from placed.ren.now) (sides.n - (placed.from + 1)) dead.old }
    ensures { Hopeless sides.entry.o1.now sides.entry.o2.now sides.entry.ok.now sides.entry.n (take placed.entry.from placed.entry.ren.now) (sides.entry.n - (placed.entry.from + 1)) dead.new }
{
    for y in 0..sides.n {
        let image = tau[y] as usize;
        if dead[image] == 1 {
            dead[y] = 1;
        }
    }
}

// An atom of the second keys that an atom of the first may be: itself where it has one key, else the first with its key that has two.
fn partner(ka: &[u64; SIDE], kb: &[u64; SIDE], n: usize, v: usize) -> usize
    requires { (n ≤ max_same) × (v < n) }
    ensures { result < n }
{
    if ka[v] == kb[v] {
        return v;
    }
    for w in 0..n {
        if (kb[w] == ka[v]) & (ka[w] != kb[w]) {
            return w;
        }
    }
    v
}

// Whether a key is not an atom's alone.
fn is_shared(keys: &[u64; SIDE], n: usize, v: usize) -> bool
    requires { (n ≤ max_same) × (v < n) }
{
    for w in 0..n {
        if (w != v) & (keys[w] == keys[v]) {
            return true;
        }
    }
    false
}

// A guess of a list that sends e to d: keys are made finer with e told apart, and with d.
fn guess(weights: Weights, k2: &[u64; SIDE], n: usize, e: usize, d: usize, tau: &mut [u8; SIDE])
    requires { (n ≤ max_same) × (e < n) × (d < n) × (n ≤ length k2.now) × Nears weights.w.now n weights.near.now }
{
    let mut ka = *k2;
    same_finer::tell(weights, n, e, &mut ka);
    let mut kb = *k2;
    same_finer::tell(weights, n, d, &mut kb);
    for v in 0..n {
        let w = partner(&ka, &kb, n, v);
        tau[v] = w as u8;
        if (v != w) & is_shared(&ka, n, v) {
            same_finer::tell(weights, n, v, &mut ka);
            same_finer::tell(weights, n, w, &mut kb);
        }
    }
}

// Marks what a guess for e shows to be as hopeless as d; answers whether the guess was right.
fn mark_like(
    sides: Sides,
    weights: Weights,
    k2: &[u64; SIDE],
    placed: Placed,
    d: usize,
    e: usize,
    dead: &mut [u8; SIDE],
) -> bool
    requires prefix { Prefix sides.n placed.ren.now placed.from × (placed.from < sides.n) × (d < sides.n) × (e < sides.n) × (sides.n ≤ length k2.now) × Nears weights.w.now sides.n weights.near.now }
    requires hopeless { Hopeless sides.o1.now sides.o2.now sides.ok.now sides.n (take placed.from placed.ren.now) (sides.n - (placed.from + 1)) dead.old }
    ensures { Hopeless sides.entry.o1.now sides.entry.o2.now sides.entry.ok.now sides.entry.n (take placed.entry.from placed.entry.ren.now) (sides.entry.n - (placed.entry.from + 1)) dead.new }
{
    let mut tau = [0u8; SIDE];
    guess(weights, k2, sides.n, e, d, &mut tau);
    if !is_like(sides, &tau, placed) {
        return false;
    }
    spread(sides, &tau, placed, dead);
    true
}

// One more, up to a limit.
fn more(x: u32) -> u32 {
    if x < 1000000 {
        return x + 1;
    }
    x
}

// Whether another guess may pay.
fn is_lucky(luck: Luck) -> bool {
    (luck.wrong < 64) | (luck.wrong / 8 <= luck.right)
}

// Counts a guess.
fn count(luck: &mut Luck, right: bool) {
    if right {
        luck.right = more(luck.right);
    } else {
        luck.wrong = more(luck.wrong);
    }
}

// internal: marks an atom that cannot come next, and those that are shown to be like it.
pub fn mark(
    sides: Sides,
    weights: Weights,
    k2: &[u64; SIDE],
    placed: Placed,
    d: usize,
    luck: &mut Luck,
    dead: &mut [u8; SIDE],
)
    requires prefix { Prefix sides.n placed.ren.now placed.from × (placed.from < sides.n) × (d < sides.n) × (sides.n ≤ length k2.now) × Nears weights.w.now sides.n weights.near.now }
    requires d_value { ways_by sides.o1.now sides.o2.now sides.ok.now sides.n (take placed.from placed.ren.now) (sides.n - (placed.from + 1)) d ≡ [] }
    requires hopeless { Hopeless sides.o1.now sides.o2.now sides.ok.now sides.n (take placed.from placed.ren.now) (sides.n - (placed.from + 1)) dead.old }
    ensures { Hopeless sides.entry.o1.now sides.entry.o2.now sides.entry.ok.now sides.entry.n (take placed.entry.from placed.entry.ren.now) (sides.entry.n - (placed.entry.from + 1)) dead.new }
{
    dead[d] = 1;
    for e in d + 1..sides.n {
        let lucky = is_lucky(*luck);
        if lucky & (dead[e] != 1) & (k2[e] == k2[d]) {
            let right = mark_like(sides, weights, k2, placed, d, e, dead);
            count(luck, right);
        }
    }
}
