// Valid and sound tables: a test for each condition, and all of them.
#![tactic(auto)]

ghost use Rattle.std.specs.Prelude.{◌≡◌, ℕ, ◌<◌, ◌≤◌, true, Some};
ghost use Rattle.loops.specs.Loop.{each};
ghost use Rattle.table.specs.Limits.{max_atoms, max_bonds};
ghost use Rattle.table.specs.Cells.{number};
ghost use Rattle.table.specs.Rows.{AtomFits, BondFits};
ghost use Rattle.table.specs.Valid.{selectable, selection_ok, atom_row_ok, bond_row_ok, atom_ok, bond_ok, distinct, valid, enough, check_code};
ghost use Rattle.table.specs.Sound.{sound, check_of};
ghost use Rattle.table.specs.Keys.{BondEnds, key_of, ends_key};

use ids::{AtomId, BondId};
use refusal::Refusal;
use table::{
    ATOM_CELLS, Atom, BOND_CELLS, Bond, CHARGE, ELEMENT, EXTENSION, FIRST, HYDROGENS, ISOTOPE,
    KIND, MARK, MAX_ATOMS, MAX_BONDS, SECOND, SELECTED, Tables, cell, row,
};

pub mod late;

// internal: an element that a selected atom may have.
pub fn selectable(e: usize) -> bool
    ensures { result ≡ selectable e }
{
    (e == 6) | (e == 7) | (e == 8) | (e == 15) | (e == 16)
}

// Selected is 0, or 1 with an element that may be selected.
fn selected_ok(element: i32, selected: i32) -> bool
    ensures { result ≡ selection_ok element selected }
{
    let plain = cell::number(selected) == 0;
    cell::within(selected, 0, 1) & (plain | selectable(cell::number(element)))
}

// The cells of an atom's row are valid.
fn atom_row_ok(row: Atom) -> bool
    requires { AtomFits row }
    ensures { result ≡ atom_row_ok row.element row.selected row.isotope row.hydrogens row.charge row.extension row.mark }
{
    if !cell::within(row.element, 0, 118) {
        return false;
    }
    if !cell::within(row.isotope, 0, 999) {
        return false;
    }
    if !cell::within(row.hydrogens, 0, 9) {
        return false;
    }
    if !cell::within(row.charge, -9, 9) {
        return false;
    }
    if !cell::within(row.extension, 0, 9999) {
        return false;
    }
    if !cell::within(row.mark, 0, 2) {
        return false;
    }
    selected_ok(row.element, row.selected)
}

// The row of an atom is valid.
fn atom_ok(t: &[i32], a: AtomId) -> bool
    requires { a.0 < max_atoms }
    ensures { result ≡ atom_ok t.now a.0 }
{
    let p = ATOM_CELLS * a.0;
    if t.len() <= p + MARK {
        return atom_row_ok(row::get_atom(t, a));
    }
    atom_row_ok(Atom {
        element: t[p + ELEMENT],
        selected: t[p + SELECTED],
        isotope: t[p + ISOTOPE],
        hydrogens: t[p + HYDROGENS],
        charge: t[p + CHARGE],
        extension: t[p + EXTENSION],
        mark: t[p + MARK],
    })
}

// The three cells of a bond's row are valid, with n atoms.
fn bond_row_ok(row: Bond, n: usize) -> bool
    requires { BondFits row }
    ensures { result ≡ bond_row_ok row.first row.second row.kind n }
{
    let e = cell::number(row.first);
    let f = cell::number(row.second);
    let natural = 0 <= row.first;
    cell::within(row.kind, 0, kinds::MAX_KIND) & (natural & (e < f)) & (f < n)
}

// The row of a bond is valid, with n atoms.
fn bond_ok(t: &[i32], n: usize, b: BondId) -> bool
    requires { b.0 < max_bonds }
    ensures { result ≡ bond_ok t.now n b.0 }
{
    bond_row_ok(row::get_bond(t, b), n)
}

// The rows of n atoms are valid.
fn atoms_ok(t: &[i32], n: usize) -> bool
    requires { n ≤ max_atoms }
    ensures { result ≡ each (atom_ok t.now) 0 n }
{
    (0..n).all(|i| atom_ok(t, AtomId(i)))
}

// The rows of m bonds are valid, with n atoms.
fn bonds_ok(t: &[i32], n: usize, m: usize) -> bool
    requires { m ≤ max_bonds }
    ensures { result ≡ each (bond_ok t.now n) 0 m }
{
    (0..m).all(|i| bond_ok(t, n, BondId(i)))
}

// No two of the first m bonds join the same two atoms: their rows are compared pair by pair, up to the first repeat.
// Stays: two nested loops left by a label, the form that the paper names for this place.
fn distinct(t: &[i32], m: usize) -> bool
    requires m_le_max_bonds { m ≤ max_bonds }
    requires by_index { (b : ℕ) → b < m → BondEnds t.now b }
    ensures { result ≡ distinct t.now m }
{
    let mut fine = true;
    'rows: for i in 0..m {
        let first = t[BOND_CELLS * i + FIRST];
        let second = t[BOND_CELLS * i + SECOND];
        for j in 0..i {
            let p = BOND_CELLS * j;
            if (first == t[p + FIRST]) && (second == t[p + SECOND]) {
                fine = false;
                break 'rows;
            }
        }
    }
    fine
}

// Two ends as one number.
fn key_of(first: usize, second: usize) -> u32
    requires { (first < 65536) × (second < 65536) }
    ensures { result ≡ key_of first second }
{
    (second * 65536 + (65535 - first)) as u32
}

// The ends of a bond's row as one number, if its three cells are valid with n atoms.
fn row_key(row: Bond, n: usize) -> Option<u32>
    requires fits { BondFits row }
    requires n_le_max_atoms { n ≤ max_atoms }
    ensures { (k : ℕ) → result ≡ Some k → (bond_row_ok row.first row.second row.kind n ≡ true) × (k ≡ key_of (number row.first) (number row.second)) }
{
    if !bond_row_ok(row, n) {
        return None;
    }
    Some(key_of(cell::number(row.first), cell::number(row.second)))
}

// The ends of a bond as one number, if its row is valid with n atoms and lies in the table.
fn valid_key(t: &[i32], n: usize, b: BondId) -> Option<u32>
    requires { (n ≤ max_atoms) × (b.0 < max_bonds) }
    ensures { (k : ℕ) → result ≡ Some k → (bond_ok t.now n b.0 ≡ true) × (k ≡ ends_key t.now b.0) }
{
    let p = BOND_CELLS * b.0;
    if t.len() <= p + KIND {
        return None;
    }
    let first = t[p + FIRST];
    let second = t[p + SECOND];
    let kind = t[p + KIND];
    row_key(
        Bond {
            first,
            second,
            kind,
        },
        n,
    )
}

// The rows of m bonds lie in the table and are valid with n atoms, and their ends, each as one number, ascend: then no two are the same.
fn sorted(t: &[i32], n: usize, m: usize) -> bool
    requires { (n ≤ max_atoms) × (m ≤ max_bonds) }
    ensures { result ≡ true → (each (bond_ok t.now n) 0 m ≡ true) × (distinct t.now m ≡ true) }
{
    let mut last = 0;
    for i in 0..m {
        let key = match valid_key(t, n, BondId(i)) {
            Some(key) => key,
            None => return false,
        };
        if key <= last {
            return false;
        }
        last = key;
    }
    true
}

// internal: the tables with their counts are valid; a cell past the end counts as 0.
pub fn valid(tables: Tables) -> bool
    ensures { result ≡ valid tables.entry.atoms.now tables.entry.bonds.now tables.entry.n tables.entry.m }
{
    let Tables { atoms, bonds, n, m } = tables;
    if MAX_ATOMS < n {
        return false;
    }
    if MAX_BONDS < m {
        return false;
    }
    if !atoms_ok(atoms, n) {
        return false;
    }
    if sorted(bonds, n, m) {
        return true;
    }
    if !bonds_ok(bonds, n, m) {
        return false;
    }
    distinct(bonds, m)
}

// internal: the tables with their counts are sound: valid, and no late check fails.
pub fn sound(tables: Tables) -> bool
    ensures { result ≡ sound tables.entry.atoms.now tables.entry.bonds.now tables.entry.n tables.entry.m }
{
    if !valid(tables) {
        return false;
    }
    late::late_check(tables).is_ok()
}

// internal: the tables are as long as they have to be.
pub fn enough(atoms: &[i32], bonds: &[i32]) -> bool
    ensures { result ≡ enough atoms.now bonds.now }
{
    (ATOM_CELLS * MAX_ATOMS <= atoms.len()) & (BOND_CELLS * MAX_BONDS <= bonds.len())
}

// Whether the tables with their counts can be worked with: 1 for a table that is too short, 13 for tables that are not sound.
pub fn check_tables(tables: Tables) -> Result<(), Refusal>
    ensures { check_code result ≡ check_of tables.entry.atoms.now tables.entry.bonds.now tables.entry.n tables.entry.m }
{
    let Tables { atoms, bonds, .. } = tables;
    if !enough(atoms, bonds) {
        return Err(Refusal::Short);
    }
    if !sound(tables) {
        return Err(Refusal::Invalid);
    }
    Ok(())
}
