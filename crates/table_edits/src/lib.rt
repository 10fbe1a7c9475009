// What is written into tables: whole rows, zeros, and the edits that kekulize a molecule.
#![tactic(auto)]

ghost use Rattle.std.specs.Prelude.{◌≡◌, ◌<◌, length, replicate, pos};
ghost use Rattle.table.specs.Limits.{max_atoms, max_bonds, MARK, KIND};
ghost use Rattle.table.specs.Cells.{atom_place, bond_place};
ghost use Rattle.table.specs.Rows.{with_atom, put_atom, with_bond, put_bond};

use ids::{AtomId, BondId};
use table::{
    ATOM_CELLS, Atom, BOND_CELLS, Bond, CHARGE, ELEMENT, EXTENSION, FIRST, HYDROGENS, ISOTOPE,
    KIND, MARK, MAX_ATOMS, MAX_BONDS, SECOND, SELECTED, cell,
};

pub mod kekulize;

// Writes the cells of an atom's row that lies in the table.
fn lay_atom(t: &mut [i32], a: AtomId, x: Atom)
    requires { (a.0 < max_atoms) × (atom_place a.0 MARK < length t.old) }
    ensures { t.new ≡ with_atom t.old a.0 x }
{
    let p = ATOM_CELLS * a.0;
    t[p + ELEMENT] = x.element;
    t[p + SELECTED] = x.selected;
    t[p + ISOTOPE] = x.isotope;
    t[p + HYDROGENS] = x.hydrogens;
    t[p + CHARGE] = x.charge;
    t[p + EXTENSION] = x.extension;
    t[p + MARK] = x.mark;
}

// Writes the row of an atom that the table may end before: no cell past the end.
fn put_atom_beyond(t: &mut [i32], a: AtomId, x: Atom)
    requires { a.0 < max_atoms }
    ensures { t.new ≡ with_atom t.old a.0 x }
{
    cell::put_atom_cell(t, a, ELEMENT, x.element);
    cell::put_atom_cell(t, a, SELECTED, x.selected);
    cell::put_atom_cell(t, a, ISOTOPE, x.isotope);
    cell::put_atom_cell(t, a, HYDROGENS, x.hydrogens);
    cell::put_atom_cell(t, a, CHARGE, x.charge);
    cell::put_atom_cell(t, a, EXTENSION, x.extension);
    cell::put_atom_cell(t, a, MARK, x.mark);
}

// internal: writes the row of an atom: no cell past the end of the table, and nothing above the limit.
pub fn put_atom(t: &mut [i32], a: AtomId, x: Atom)
    ensures { t.new ≡ put_atom t.old a.0 x }
{
    if MAX_ATOMS <= a.0 {
        return;
    }
    if t.len() <= ATOM_CELLS * a.0 + MARK {
        put_atom_beyond(t, a, x);
        return;
    }
    lay_atom(t, a, x);
}

// Writes the three cells of a bond's row that lies in the table.
fn lay_bond(t: &mut [i32], b: BondId, x: Bond)
    requires { (b.0 < max_bonds) × (bond_place b.0 KIND < length t.old) }
    ensures { t.new ≡ with_bond t.old b.0 x }
{
    let p = BOND_CELLS * b.0;
    t[p + FIRST] = x.first;
    t[p + SECOND] = x.second;
    t[p + KIND] = x.kind;
}

// Writes the row of a bond that the table may end before: no cell past the end.
fn put_bond_beyond(t: &mut [i32], b: BondId, x: Bond)
    requires { b.0 < max_bonds }
    ensures { t.new ≡ with_bond t.old b.0 x }
{
    cell::put_bond_cell(t, b, FIRST, x.first);
    cell::put_bond_cell(t, b, SECOND, x.second);
    cell::put_bond_cell(t, b, KIND, x.kind);
}

// internal: writes the row of a bond: no cell past the end of the table, and nothing above the limit.
pub fn put_bond(t: &mut [i32], b: BondId, x: Bond)
    ensures { t.new ≡ put_bond t.old b.0 x }
{
    if MAX_BONDS <= b.0 {
        return;
    }
    if t.len() <= BOND_CELLS * b.0 + KIND {
        put_bond_beyond(t, b, x);
        return;
    }
    lay_bond(t, b, x);
}

// internal: zeroes a whole table.
pub fn clear(t: &mut [i32])
    ensures { t.new ≡ replicate (length t.old) (pos 0) }
{
    t.fill(0);
}
