// The edits that kekulize tables (01: settling), in place.
ghost use Rattle.std.specs.Prelude.{◌≡◌, ◌<◌, ◌≤◌, length};
ghost use Rattle.table.specs.Limits.{max_atoms, max_bonds};
ghost use Rattle.table.specs.Edits.{doubled, doubled_bonds, unselected_atoms};

use ids::{AtomId, BondId};
use table::{KIND, SELECTED, cell};

// The bond becomes kind 2 if its number in a matching row is 1.
fn double_bond(bonds: &mut [i32], b: BondId, x: u8)
    requires { b.0 < max_bonds }
    ensures { bonds.new ≡ doubled x b.0 bonds.old }
{
    if x != 1 {
        return;
    }
    cell::put_bond_cell(bonds, b, KIND, kinds::DOUBLE);
}

// internal: the bonds that the matching row has become kind 2.
pub fn double_bonds(bonds: &mut [i32], m: usize, row: &[u8])
    requires m_le_max_bonds { m ≤ max_bonds }
    requires m_in_bounds { m ≤ length row.now }
    ensures { bonds.new ≡ doubled_bonds row.now m bonds.old }
{
    for i in 0..m {
        double_bond(bonds, BondId(i), row[i]);
    }
}

// internal: the selected cell of every atom becomes 0.
pub fn unselect_atoms(atoms: &mut [i32], n: usize)
    requires { n ≤ max_atoms }
    ensures { atoms.new ≡ unselected_atoms n atoms.old }
{
    for i in 0..n {
        cell::put_atom_cell(atoms, AtomId(i), SELECTED, 0);
    }
}
