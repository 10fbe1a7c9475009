// Whole rows of a table, read.
ghost use Rattle.std.specs.Prelude.{◌≡◌, ◌<◌};
ghost use Rattle.table.specs.Limits.{max_bonds};
ghost use Rattle.table.specs.Rows.{atom_at, bond_at, bond_row, AtomFits, BondFits};

use crate::{
    Atom, BOND_CELLS, Bond, CHARGE, ELEMENT, EXTENSION, FIRST, HYDROGENS, ISOTOPE, KIND, MARK,
    MAX_ATOMS, MAX_BONDS, SECOND, SELECTED, cell,
};
use ids::{AtomId, BondId};

// internal: the row of an atom: 0 in every cell past the end of the table, and above the limit.
pub fn get_atom(t: &[i32], a: AtomId) -> Atom
    ensures value { result ≡ atom_at t.now a.0 }
    ensures atom_fits { AtomFits result }
{
    if MAX_ATOMS <= a.0 {
        return Atom {
            element: 0,
            selected: 0,
            isotope: 0,
            hydrogens: 0,
            charge: 0,
            extension: 0,
            mark: 0,
        };
    }
    Atom {
        element: cell::atom_cell(t, a, ELEMENT),
        selected: cell::atom_cell(t, a, SELECTED),
        isotope: cell::atom_cell(t, a, ISOTOPE),
        hydrogens: cell::atom_cell(t, a, HYDROGENS),
        charge: cell::atom_cell(t, a, CHARGE),
        extension: cell::atom_cell(t, a, EXTENSION),
        mark: cell::atom_cell(t, a, MARK),
    }
}

// The row of a bond that the table may end before.
fn get_bond_beyond(t: &[i32], b: BondId) -> Bond
    requires { b.0 < max_bonds }
    ensures value { result ≡ bond_row t.now b.0 }
    ensures bond_fits { BondFits result }
{
    Bond {
        first: cell::bond_cell(t, b, FIRST),
        second: cell::bond_cell(t, b, SECOND),
        kind: cell::bond_cell(t, b, KIND),
    }
}

// internal: the row of a bond: 0 in every cell past the end of the table, and above the limit.
pub fn get_bond(t: &[i32], b: BondId) -> Bond
    ensures value { result ≡ bond_at t.now b.0 }
    ensures bond_fits { BondFits result }
{
    if MAX_BONDS <= b.0 {
        return Bond {
            first: 0,
            second: 0,
            kind: 0,
        };
    }
    let p = BOND_CELLS * b.0;
    if t.len() <= p + KIND {
        return get_bond_beyond(t, b);
    }
    Bond {
        first: t[p + FIRST],
        second: t[p + SECOND],
        kind: t[p + KIND],
    }
}
