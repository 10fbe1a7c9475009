// Single cells of a table: where they stand, and reading, testing and writing them.
ghost use Rattle.std.specs.Prelude.{◌≡◌, ◌<◌, get_or, set, pos};
ghost use Rattle.std.proofs.Common.{SFits};
ghost use Rattle.std.specs.Int.{w32};
ghost use Rattle.table.specs.Limits.{max_atoms, max_bonds, atom_cells, bond_cells};
ghost use Rattle.table.specs.Cells.{number, in_range, atom_place, bond_place, atom_cell, bond_cell};

use crate::{ATOM_CELLS, BOND_CELLS};
use ids::{AtomId, BondId};

// internal: the cell at a place, 0 past the end.
pub fn cell(t: &[i32], i: usize) -> i32
    ensures value { result ≡ get_or t.now i (pos 0) }
    ensures sfits { SFits w32 result }
{
    if i < t.len() {
        return t[i];
    }
    0
}

// internal: writes the cell at a place; nothing past the end.
pub fn put(t: &mut [i32], i: usize, v: i32)
    ensures { t.new ≡ set t.old i v }
{
    if t.len() <= i {
        return;
    }
    t[i] = v;
}

// internal: whether a number lies between two bounds.
pub fn within(x: i32, low: i32, high: i32) -> bool
    ensures { result ≡ in_range x low high }
{
    (low <= x) & (x <= high)
}

// internal: the number in a cell, 0 for a negative one.
pub fn number(x: i32) -> usize
    ensures { result ≡ number x }
{
    if x < 0 { 0 } else { x as usize }
}

// internal: whether the cell at a place lies between two bounds.
pub fn cell_within(t: &[i32], i: usize, low: i32, high: i32) -> bool
    ensures { result ≡ in_range (get_or t.now i (pos 0)) low high }
{
    within(cell(t, i), low, high)
}

// internal: the number in the cell at a place.
pub fn cell_number(t: &[i32], i: usize) -> usize
    ensures { result ≡ number (get_or t.now i (pos 0)) }
{
    number(cell(t, i))
}

// Stays: a function for atoms and one for bonds where the row's width differs, below. What they share stands above, by the place of a cell; a
// generic one would take a trait with the width and the number, and say no more than these lines.

// internal: the place of a field of an atom's row.
pub fn atom_place(a: AtomId, f: usize) -> usize
    requires { (a.0 < max_atoms) × (f < atom_cells) }
    ensures { result ≡ atom_place a.0 f }
{
    ATOM_CELLS * a.0 + f
}

// internal: the place of a field of a bond's row.
pub fn bond_place(b: BondId, f: usize) -> usize
    requires { (b.0 < max_bonds) × (f < bond_cells) }
    ensures { result ≡ bond_place b.0 f }
{
    BOND_CELLS * b.0 + f
}

// internal: whether the field of an atom lies between two bounds.
pub fn atom_within(t: &[i32], a: AtomId, f: usize, low: i32, high: i32) -> bool
    requires { (a.0 < max_atoms) × (f < atom_cells) }
    ensures { result ≡ in_range (atom_cell t.now a.0 f) low high }
{
    cell_within(t, atom_place(a, f), low, high)
}

// internal: the number in a field of an atom.
pub fn atom_number(t: &[i32], a: AtomId, f: usize) -> usize
    requires { (a.0 < max_atoms) × (f < atom_cells) }
    ensures { result ≡ number (atom_cell t.now a.0 f) }
{
    cell_number(t, atom_place(a, f))
}

// internal: the number in a field of a bond.
pub fn bond_number(t: &[i32], b: BondId, f: usize) -> usize
    requires { (b.0 < max_bonds) × (f < bond_cells) }
    ensures { result ≡ number (bond_cell t.now b.0 f) }
{
    cell_number(t, bond_place(b, f))
}

// internal: a field of an atom.
pub fn atom_cell(t: &[i32], a: AtomId, f: usize) -> i32
    requires { (a.0 < max_atoms) × (f < atom_cells) }
    ensures value { result ≡ atom_cell t.now a.0 f }
    ensures sfits { SFits w32 result }
{
    cell(t, atom_place(a, f))
}

// internal: a field of a bond.
pub fn bond_cell(t: &[i32], b: BondId, f: usize) -> i32
    requires { (b.0 < max_bonds) × (f < bond_cells) }
    ensures value { result ≡ bond_cell t.now b.0 f }
    ensures sfits { SFits w32 result }
{
    cell(t, bond_place(b, f))
}

// internal: writes a field of an atom.
pub fn put_atom_cell(t: &mut [i32], a: AtomId, f: usize, v: i32)
    requires { (a.0 < max_atoms) × (f < atom_cells) }
    ensures { t.new ≡ set t.old (atom_place a.0 f) v }
{
    put(t, atom_place(a, f), v);
}

// internal: writes a field of a bond.
pub fn put_bond_cell(t: &mut [i32], b: BondId, f: usize, v: i32)
    requires { (b.0 < max_bonds) × (f < bond_cells) }
    ensures { t.new ≡ set t.old (bond_place b.0 f) v }
{
    put(t, bond_place(b, f), v);
}
