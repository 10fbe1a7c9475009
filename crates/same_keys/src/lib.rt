// Keys of atoms that every redrawing keeps: numbers that grow, round by round, by those of the atoms they are joined to. Every function here is internal.
#![tactic(auto)]

ghost use Rattle.std.specs.Prelude.{◌≡◌, ◌++◌, ◌+◌, ◌*◌, ◌<◌, ◌≤◌, ◌%◌, drop, replicate, length};
ghost use Rattle.loops.specs.Loop.{run, up_to};
ghost use Rattle.table.specs.Limits.{max_atoms};
ghost use Rattle.table.specs.Valid.{Valid};
ghost use Rattle.same_model.specs.Same.{max_same, molecule};
ghost use Rattle.same_keys.specs.Keys.{prime, mixed, stirred, charge_number, first_key, sum_key, at, mixed_at, join_keys, spread, next_keys, refined, keys_of, told_apart, pair_cell, pair_limit, row_filled, pairs_filled, pairs_of, key_sum, Low, highest, Inside};

use ids::{AtomId, BondId};
use same_place::{CELLS, SIDE};
use table::{CHARGE, ELEMENT, EXTENSION, HYDROGENS, ISOTOPE, MAX_BONDS, Tables, cell, row};

// The two ends of each of m bonds.
#[derive(Clone, Copy)]
pub struct Ends<'a> {
    pub firsts: &'a [u16],
    pub seconds: &'a [u16],
    pub m: usize,
}

// A prime; keys are mixed below it.
const PRIME: u64 = 2147483647;

// internal: a number mixed.
pub fn mix(x: u64) -> u64
    ensures { result ≡ mixed x }
{
    let y = x % PRIME;
    (y * y + 1103515245 * y + 12345) % PRIME
}

// A key with a number stirred in.
fn stir(key: u64, x: u64) -> u64
    ensures { result ≡ stirred key x }
{
    mix(key % PRIME + x % PRIME)
}

// The number of a charge; all below zero count alike.
fn charge_number(c: i32) -> u64
    ensures { result ≡ charge_number c }
{
    if c < 0 {
        return 99;
    }
    c as u64
}

// The key that an atom begins with: its five cells and its settled sum.
fn first_key(atoms: &[i32], a: AtomId, sum: u64) -> u64
    requires { a.0 < max_atoms }
    ensures { result ≡ first_key atoms.now a.0 sum }
{
    let e = stir(sum, cell::atom_number(atoms, a, ELEMENT) as u64);
    let i = stir(e, cell::atom_number(atoms, a, ISOTOPE) as u64);
    let h = stir(i, cell::atom_number(atoms, a, HYDROGENS) as u64);
    let c = stir(h, charge_number(cell::atom_cell(atoms, a, CHARGE)));
    stir(c, cell::atom_number(atoms, a, EXTENSION) as u64)
}

// internal: two numbers added, as a wider one.
pub fn plus(x: u16, y: u8) -> u64
    ensures { result ≡ x + y }
{
    u64::from(x) + u64::from(y)
}

// The keys that n atoms begin with, from their bond sums and flags.
fn fill_first(
    atoms: &[i32],
    sums: &[u16; SIDE],
    flags: &[u8; SIDE],
    n: usize,
    keys: &mut [u64; SIDE],
)
    requires { (n ≤ max_same) × (max_same ≤ length keys.old) }
    ensures { keys.new ≡ up_to (sum_key atoms.now sums.now flags.now) 0 n ++ drop n keys.old }
{
    for i in 0..n {
        keys[i] = first_key(atoms, AtomId(i), plus(sums[i], flags[i]));
    }
}

// internal: the keys of n atoms, each mixed.
pub fn mix_all(keys: &[u64], n: usize, mixed: &mut [u64])
    requires { (n ≤ length keys.now) × (n ≤ length mixed.old) }
    ensures { mixed.new ≡ up_to (mixed_at keys.now) 0 n ++ drop n mixed.old }
{
    for i in 0..n {
        mixed[i] = mix(keys[i]);
    }
}

// Each of two atoms that are joined adds the other's mixed key to its own.
fn join(keys: &mut [u64], mixed: &[u64], a: usize, b: usize)
    requires a_in_bounds { (a < length keys.old) × (b < length keys.old) }
    requires a_in_bounds_2 { (a < length mixed.now) × (b < length mixed.now) }
    requires low { Low mixed.now prime × Low keys.old (highest 80) }
    ensures { keys.new ≡ join_keys mixed.now a b keys.old }
{
    keys[a] += mixed[b];
    keys[b] += mixed[a];
}

// internal: the same over m bonds.
pub fn spread(ends: Ends, mixed: &[u64], keys: &mut [u64])
    requires inside { Inside ends.firsts.now ends.seconds.now ends.m (length mixed.now) × Inside ends.firsts.now ends.seconds.now ends.m (length keys.old) }
    requires low { Low mixed.now prime × Low keys.old (highest 78) }
    ensures { keys.new ≡ run (spread (at ends.entry.firsts.now) (at ends.entry.seconds.now) mixed.now) 0 ends.entry.m keys.old }
{
    let Ends { firsts, seconds, m } = ends;
    for k in 0..m {
        join(keys, mixed, firsts[k] as usize, seconds[k] as usize);
    }
}

// One round: each of n atoms adds the mixed keys, in a buffer, of those that it is joined to.
fn next_keys(ends: Ends, n: usize, mixed: &mut [u64], keys: &mut [u64])
    requires inside { Inside ends.firsts.now ends.seconds.now ends.m n }
    requires n_in_bounds { (n ≤ length mixed.old) × (n ≤ length keys.old) }
    requires low { Low mixed.old prime × Low keys.old (highest 76) }
    ensures keys_after { keys.new ≡ next_keys (at ends.entry.firsts.now) (at ends.entry.seconds.now) ends.entry.m n keys.old }
    ensures low_2 { Low mixed.new prime }
{
    mix_all(keys, n, mixed);
    spread(ends, mixed, keys);
}

// internal: r rounds.
pub fn refine(ends: Ends, n: usize, r: usize, mixed: &mut [u64], keys: &mut [u64])
    requires inside { Inside ends.firsts.now ends.seconds.now ends.m n }
    requires n_in_bounds { (n ≤ length mixed.old) × (n ≤ length keys.old) }
    requires r_bound { (r ≤ 40) × Low mixed.old prime × Low keys.old (highest 34) }
    ensures { keys.new ≡ refined (at ends.entry.firsts.now) (at ends.entry.seconds.now) ends.entry.m n r keys.old }
{
    for i in 0..r {
        next_keys(ends, n, mixed, keys);
    }
}

// internal: the keys of n atoms, into an array of zeros.
pub fn fill_keys(tables: Tables, keys: &mut [u64; SIDE])
    requires valid { Valid tables.atoms.now tables.bonds.now tables.n tables.m }
    requires n_le_max_same { (tables.n ≤ max_same) × (keys.old ≡ replicate max_same 0) }
    ensures { keys.new ≡ keys_of (molecule tables.entry.atoms.now tables.entry.bonds.now tables.entry.n tables.entry.m) }
{
    let Tables { atoms, bonds, n, m } = tables;
    let mut ea = [0u16; MAX_BONDS];
    let mut eb = [0u16; MAX_BONDS];
    let mut el = [0u8; MAX_BONDS];
    let mut sums = [0u16; SIDE];
    let mut flags = [0u8; SIDE];
    table_graph::wire(bonds, m, &mut ea, &mut eb, &mut el, &mut sums);
    table_graph::fill_flags(atoms, &sums, n, &mut flags);
    fill_first(atoms, &sums, &flags, n, keys);
    let mut mixed = [0u64; SIDE];
    let ends = Ends {
        firsts: &ea,
        seconds: &eb,
        m,
    };
    refine(ends, n, n / 2 + 1, &mut mixed, keys);
}

// The keys of n atoms with one of them told apart, refined again.
fn tell_apart(ends: Ends, n: usize, a: usize, keys: &mut [u64; SIDE])
    requires inside { Inside ends.firsts.now ends.seconds.now ends.m n }
    requires n_le_max_same { (n ≤ max_same) × (a < max_same) × Low keys.old (highest 33) }
    ensures { keys.new ≡ told_apart (at ends.entry.firsts.now) (at ends.entry.seconds.now) ends.entry.m n keys.old a }
{
    keys[a] += 1000003;
    let mut mixed = [0u64; SIDE];
    refine(ends, n, 8, &mut mixed, keys);
}

// The cell of a pair, from a key.
fn pair_cell(key: u64) -> u16
    ensures { result ≡ 4 * (key % pair_limit) }
{
    (key % 8192) as u16 * 4
}

// A row of the matrix of pairs.
fn fill_row(keys: &[u64; SIDE], n: usize, a: usize, pairs: &mut [u16; CELLS])
    requires { (n ≤ max_same) × (a < max_same) }
    ensures { pairs.new ≡ row_filled n (pair_cell keys.now) a pairs.old }
{
    for b in 0..n {
        pairs[SIDE * a + b] = pair_cell(keys[b]);
    }
}

// The row of the atom a: the keys of n atoms with a told apart.
fn pair_row(ends: Ends, n: usize, a: usize, keys: &[u64; SIDE], pairs: &mut [u16; CELLS])
    requires inside { Inside ends.firsts.now ends.seconds.now ends.m n }
    requires n_le_max_same { (n ≤ max_same) × (a < max_same) × Low keys.now (highest 33) }
    ensures { pairs.new ≡ row_filled n (pair_cell (told_apart (at ends.entry.firsts.now) (at ends.entry.seconds.now) ends.entry.m n keys.now a)) a pairs.old }
{
    let mut own = *keys;
    tell_apart(ends, n, a, &mut own);
    fill_row(&own, n, a, pairs);
}

// All rows.
fn pair_rows(ends: Ends, n: usize, keys: &[u64; SIDE], pairs: &mut [u16; CELLS])
    requires inside { Inside ends.firsts.now ends.seconds.now ends.m n }
    requires n_le_max_same { (n ≤ max_same) × Low keys.now (highest 33) }
    ensures { pairs.new ≡ pairs_filled (at ends.entry.firsts.now) (at ends.entry.seconds.now) ends.entry.m n keys.now pairs.old }
{
    for a in 0..n {
        pair_row(ends, n, a, keys, pairs);
    }
}

// internal: the matrix of pairs of a molecule with its keys, into a matrix of zeros; it stays so where it is not asked for.
pub fn fill_pairs(on: bool, tables: Tables, keys: &[u64; SIDE], pairs: &mut [u16; CELLS])
    requires valid { Valid tables.atoms.now tables.bonds.now tables.n tables.m }
    requires n_le_max_same { (tables.n ≤ max_same) × (keys.now ≡ keys_of (molecule tables.atoms.now tables.bonds.now tables.n tables.m)) }
    requires pairs_value { pairs.old ≡ replicate (max_same * max_same) 0 }
    ensures { pairs.new ≡ pairs_of on (molecule tables.entry.atoms.now tables.entry.bonds.now tables.entry.n tables.entry.m) keys.now }
{
    let Tables { bonds, n, m, .. } = tables;
    if !on {
        return;
    }
    let mut ea = [0u16; MAX_BONDS];
    let mut eb = [0u16; MAX_BONDS];
    let mut el = [0u8; MAX_BONDS];
    let mut sums = [0u16; SIDE];
    table_graph::wire(bonds, m, &mut ea, &mut eb, &mut el, &mut sums);
    let ends = Ends {
        firsts: &ea,
        seconds: &eb,
        m,
    };
    pair_rows(ends, n, keys, pairs);
}

// Marks the second end of each bond.
fn mark_seconds(bonds: &[i32], m: usize, seen: &mut [bool; SIDE]) {
    for k in 0..m {
        let second = cell::number(row::get_bond(bonds, BondId(k)).second);
        if second < SIDE {
            seen[second] = true;
        }
    }
}

// internal: whether some of n atoms, past the first, is joined to none before it. A hint only: atoms placed in their order then lose sight of one another, and the matrix of pairs helps.
pub fn scattered(bonds: &[i32], n: usize, m: usize) -> bool
    requires { n ≤ max_same }
{
    let mut seen = [false; SIDE];
    mark_seconds(bonds, m, &mut seen);
    for a in 1..n {
        if !seen[a] {
            return true;
        }
    }
    false
}

// internal: the mixed keys of n atoms, added up.
pub fn key_sum(keys: &[u64; SIDE], n: usize) -> u64
    requires { n ≤ max_same }
    ensures { result ≡ key_sum keys.now n }
{
    let mut sum = 0;
    for i in 0..n {
        sum += mix(keys[i]);
    }
    sum
}
