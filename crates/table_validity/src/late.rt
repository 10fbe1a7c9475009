// The late checks, in reading after every bridge is closed: 20 and 21 of the bonds' marks, 22, a selected atom with fewer than two bonds, and 23, a marked atom without four neighbours.
ghost use Rattle.std.specs.Prelude.{◌≡◌, ℕ, ◌<◌, ◌≤◌, length, get_or, replicate};
ghost use Rattle.loops.specs.Loop.{each, up_to};
ghost use Rattle.table.specs.Limits.{max_atoms};
ghost use Rattle.table.specs.Valid.{Valid, check_code};
ghost use Rattle.table.specs.Sound.{bond_degree, late_code};
ghost use Rattle.table_validity.specs.Degrees.{counted, Ends, plain, fit, degrees_code, counts_code};

use ids::{AtomId, BondId, SMALL};
use refusal::Refusal;
use table::{FIRST, HYDROGENS, KIND, MARK, MAX_ATOMS, SECOND, SELECTED, Tables, cell};

// Counts a bond at an atom.
fn count_end(degrees: &mut [u16], a: usize)
    requires { (a < length degrees.old) × (get_or degrees.old a 0 < 65535) }
    ensures { degrees.new ≡ counted degrees.old a }
{
    degrees[a] += 1;
}

// How many of m bonds each atom has, into a buffer of zeros.
fn count_bonds(bonds: &[i32], m: usize, degrees: &mut [u16])
    requires ends { Ends bonds.now m (length degrees.old) }
    requires degrees_value { degrees.old ≡ replicate (length degrees.old) 0 }
    ensures { degrees.new ≡ up_to (bond_degree bonds.now m) 0 (length degrees.old) }
{
    for i in 0..m {
        count_end(degrees, cell::bond_number(bonds, BondId(i), FIRST));
        count_end(degrees, cell::bond_number(bonds, BondId(i), SECOND));
    }
}

// Each of n atoms is neither selected nor marked.
fn all_plain(atoms: &[i32], n: usize) -> bool
    requires { n ≤ max_atoms }
    ensures { result ≡ each (plain atoms.now) 0 n }
{
    (0..n).all(|i| {
        let selected = cell::atom_number(atoms, AtomId(i), SELECTED) == 1;
        let marked = 0 < cell::atom_number(atoms, AtomId(i), MARK);
        !(selected | marked)
    })
}

// An atom with d bonds is not marked, or has four neighbours, at most one of them a hydrogen.
fn fits(atoms: &[i32], a: AtomId, d: u16) -> bool
    requires { a.0 < max_atoms }
    ensures { result ≡ fit atoms.now a.0 d }
{
    if cell::atom_number(atoms, a, MARK) == 0 {
        return true;
    }
    let h = cell::atom_number(atoms, a, HYDROGENS);
    if 1 < h {
        return false;
    }
    d as usize + h == 4
}

// 22 and 23 of n atoms, by the numbers of their bonds.
fn check_degrees(atoms: &[i32], degrees: &[u16], n: usize) -> Result<(), Refusal>
    requires { (n ≤ max_atoms) × (n ≤ length degrees.now) }
    ensures { check_code result ≡ degrees_code atoms.now degrees.now n }
{
    let mut fit = true;
    for i in 0..n {
        let d = degrees[i];
        let selected = cell::atom_number(atoms, AtomId(i), SELECTED) == 1;
        if selected & (d < 2) {
            return Err(Refusal::LooseAtom);
        }
        fit &= fits(atoms, AtomId(i), d);
    }
    if fit { Ok(()) } else { Err(Refusal::UnfitMark) }
}

// 22 and 23; bonds are counted in a buffer of zeros for n atoms or more.
fn check_counts_in(tables: Tables, degrees: &mut [u16]) -> Result<(), Refusal>
    requires valid { Valid tables.atoms.now tables.bonds.now tables.n tables.m }
    requires n_in_bounds { (tables.n ≤ length degrees.old) × (degrees.old ≡ replicate (length degrees.old) 0) }
    ensures { check_code result ≡ counts_code tables.entry.atoms.now tables.entry.bonds.now tables.entry.n tables.entry.m }
{
    let Tables { atoms, bonds, n, m } = tables;
    count_bonds(bonds, m, degrees);
    check_degrees(atoms, degrees, n)
}

// 22 and 23.
fn check_counts(tables: Tables) -> Result<(), Refusal>
    requires { Valid tables.atoms.now tables.bonds.now tables.n tables.m }
    ensures { check_code result ≡ counts_code tables.entry.atoms.now tables.entry.bonds.now tables.entry.n tables.entry.m }
{
    let Tables { atoms, n, .. } = tables;
    if all_plain(atoms, n) {
        return Ok(());
    }
    if n <= SMALL {
        let mut degrees = [0u16; SMALL];
        return check_counts_in(tables, &mut degrees);
    }
    let mut degrees = [0u16; MAX_ATOMS];
    check_counts_in(tables, &mut degrees)
}

// internal: the late checks of valid tables in their order: the first refusal.
pub fn late_check(tables: Tables) -> Result<(), Refusal>
    requires { Valid tables.atoms.now tables.bonds.now tables.n tables.m }
    ensures { check_code result ≡ late_code tables.entry.atoms.now tables.entry.bonds.now tables.entry.n tables.entry.m }
{
    let Tables { bonds, m, .. } = tables;
    if table_marks::unmarked(bonds, m) {
        return check_counts(tables);
    }
    if !table_marks::none_crowded(bonds, m) {
        return Err(Refusal::CrowdedEnd);
    }
    if !table_marks::none_stray(bonds, m) {
        return Err(Refusal::StrayMark);
    }
    check_counts(tables)
}
