// A number of a molecule that every redrawing keeps, and one of each of its atoms. Every function here is internal.
#![tactic(auto)]

ghost use Rattle.std.specs.Prelude.{◌≡◌, true, ◌++◌, ◌+◌, ◌<◌, ◌≤◌, length, take, drop};
ghost use Rattle.loops.specs.Loop.{each, up_to};
ghost use Rattle.table.specs.Limits.{max_atoms, max_bonds};
ghost use Rattle.table.specs.Valid.{Valid, atom_ok};
ghost use Rattle.same_model.specs.Same.{molecule};
ghost use Rattle.same_keys.specs.Keys.{Low, highest};
ghost use Rattle.drawing_key.specs.Key.{cells_number, hashed, atom_keys, summed, key_of};
ghost use Rattle.drawing_key.specs.Filled.{sum_key, Even};

use ids::{AtomId, SMALL};
use same_keys::Ends;
use table::{CHARGE, ELEMENT, HYDROGENS, ISOTOPE, MAX_ATOMS, MAX_BONDS, Tables, cell};

// How many rounds over the neighbours.
const ROUNDS: usize = 5;

// The cells of an atom as one number.
fn cells_number(atoms: &[i32], a: AtomId) -> u64
    requires { (a.0 < max_atoms) × (atom_ok atoms.now a.0 ≡ true) }
    ensures { result ≡ cells_number atoms.now a.0 }
{
    let e = cell::atom_number(atoms, a, ELEMENT);
    let i = cell::atom_number(atoms, a, ISOTOPE);
    let h = cell::atom_number(atoms, a, HYDROGENS);
    let c = cell::number(cell::atom_cell(atoms, a, CHARGE) + 9);
    (((e * 1000 + i) * 10 + h) * 19 + c) as u64
}

// The key that an atom begins with, from its settled sum and its degree.
fn first_key(atoms: &[i32], a: AtomId, sum: u64, degree: u64) -> u64
    requires a_lt_max_atoms { (a.0 < max_atoms) × (atom_ok atoms.now a.0 ≡ true) }
    requires sum_bound { (sum ≤ 70000) × (degree ≤ highest 1) }
    ensures { result ≡ hashed (cells_number atoms.now a.0) sum degree }
{
    same_keys::mix(same_keys::mix(cells_number(atoms, a)) + sum * 1000 + degree)
}

// The keys that n atoms begin with, from their bond sums and flags, in place of their degrees.
fn fill_first(atoms: &[i32], sums: &[u16], flags: &[u8], n: usize, keys: &mut [u64])
    requires n_le_max_atoms { (n ≤ max_atoms) × (each (atom_ok atoms.now) 0 n ≡ true) }
    requires n_in_bounds { (n ≤ length sums.now) × (n ≤ length flags.now) × (n ≤ length keys.old) }
    requires low { Low keys.old (highest 1) }
    ensures { keys.new ≡ up_to (sum_key atoms.now sums.now flags.now keys.old) 0 n ++ drop n keys.old }
{
    for i in 0..n {
        keys[i] = first_key(
            atoms,
            AtomId(i),
            same_keys::plus(sums[i], flags[i]),
            keys[i],
        );
    }
}

// The keys of the atoms of a molecule of at most N atoms and M bonds.
fn fill_sized<const N: usize, const M: usize>(tables: Tables, keys: &mut [u64])
    requires valid { Valid tables.atoms.now tables.bonds.now tables.n tables.m }
    requires room { (tables.n ≤ N) × (tables.m ≤ M) }
    requires sizes { (N ≤ max_atoms) × (M ≤ max_bonds) }
    requires even { Even 0 tables.n keys.old }
    ensures { take tables.entry.n keys.new ≡ atom_keys (molecule tables.entry.atoms.now tables.entry.bonds.now tables.entry.n tables.entry.m) }
{
    let Tables { atoms, bonds, n, m } = tables;
    let mut flags = [0u8; N];
    let mut ea = [0u16; M];
    let mut eb = [0u16; M];
    let mut el = [0u8; M];
    let mut sums = [0u16; N];
    let mut mixed = [1u64; N];
    table_graph::wire(bonds, m, &mut ea, &mut eb, &mut el, &mut sums);
    table_graph::fill_flags(atoms, &sums, n, &mut flags);
    let ends = Ends {
        firsts: &ea,
        seconds: &eb,
        m,
    };
    same_keys::spread(ends, &mixed, keys);
    fill_first(atoms, &sums, &flags, n, keys);
    same_keys::refine(ends, n, ROUNDS, &mut mixed, keys);
}

// internal: the keys of n atoms, into a buffer of zeros.
pub fn fill_atom_keys(tables: Tables, keys: &mut [u64])
    requires valid { Valid tables.atoms.now tables.bonds.now tables.n tables.m }
    requires even { Even 0 tables.n keys.old }
    ensures { take tables.entry.n keys.new ≡ atom_keys (molecule tables.entry.atoms.now tables.entry.bonds.now tables.entry.n tables.entry.m) }
{
    if tables.n <= SMALL && tables.m <= SMALL {
        fill_sized::<SMALL, SMALL>(tables, keys);
    } else {
        fill_sized::<MAX_ATOMS, MAX_BONDS>(tables, keys);
    }
}

// The key that n atoms give by theirs.
fn sum_up(keys: &[u64], n: usize) -> u64
    requires { (n ≤ max_atoms) × (n ≤ length keys.now) }
    ensures { result ≡ summed keys.now n }
{
    let mut low = 0;
    let mut high = 0;
    for i in 0..n {
        let x = same_keys::mix(keys[i]);
        low += x;
        high += same_keys::mix(x + 1);
    }
    high % 4294967296 * 4294967296 + low % 4294967296
}

// The key of a molecule of at most N atoms.
fn key_sized<const N: usize>(tables: Tables) -> u64
    requires valid { Valid tables.atoms.now tables.bonds.now tables.n tables.m }
    requires room { (tables.n ≤ N) × (N ≤ max_atoms) }
    ensures { result ≡ key_of (molecule tables.entry.atoms.now tables.entry.bonds.now tables.entry.n tables.entry.m) }
{
    let mut keys = [0u64; N];
    fill_atom_keys(tables, &mut keys);
    sum_up(&keys, tables.n)
}

// internal: the key of a molecule, from its valid tables.
pub fn key(tables: Tables) -> u64
    requires { Valid tables.atoms.now tables.bonds.now tables.n tables.m }
    ensures { result ≡ key_of (molecule tables.entry.atoms.now tables.entry.bonds.now tables.entry.n tables.entry.m) }
{
    if tables.n <= SMALL {
        key_sized::<SMALL>(tables)
    } else {
        key_sized::<MAX_ATOMS>(tables)
    }
}
