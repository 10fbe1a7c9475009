// The graph that matchings see, from valid tables: bond sums, delocalized flags, ends and elided flags.
#![tactic(auto)]

ghost use Rattle.std.specs.Prelude.{◌≡◌, ◌++◌, ◌≤◌, ◌<◌, length, drop, replicate};
ghost use Rattle.loops.specs.Loop.{up_to};
ghost use Rattle.table.specs.Limits.{max_atoms, max_bonds, CHARGE};
ghost use Rattle.table.specs.Cells.{atom_cell, element, selected, hydrogens};
ghost use Rattle.table.specs.Valid.{Valid};
ghost use Rattle.valence.specs.Valence.{delocalized};
ghost use Rattle.table_graph.specs.Graph.{bond_sum, none_selected};
ghost use Rattle.table_graph.specs.Built.{sum_flag, Summed, Wide, Wired, Built, Room};

use ids::{AtomId, BondId};
use table::{CHARGE, ELEMENT, HYDROGENS, SELECTED, Tables, cell, row};

// internal: whether none of n atoms is selected.
pub fn none_selected(atoms: &[i32], n: usize) -> bool
    requires { n ≤ max_atoms }
    ensures { result ≡ none_selected atoms.now n }
{
    (0..n).all(|i| cell::atom_number(atoms, AtomId(i), SELECTED) != 1)
}

// Whether an atom is delocalized, by its bond sum.
fn is_delocalized(atoms: &[i32], a: AtomId, sum: u16) -> bool
    requires { a.0 < max_atoms }
    ensures { result ≡ delocalized (element atoms.now a.0) (selected atoms.now a.0) (atom_cell atoms.now a.0 CHARGE) sum (hydrogens atoms.now a.0) }
{
    let s = cell::atom_number(atoms, a, SELECTED);
    if s != 1 {
        return false;
    }
    let e = cell::atom_number(atoms, a, ELEMENT);
    let c = cell::atom_cell(atoms, a, CHARGE);
    let h = cell::atom_cell(atoms, a, HYDROGENS);
    valence::delocalized(e, s, c, sum as u32, cell::number(h) as u32)
}

// internal: 1 for each delocalized atom, from the bond sums.
pub fn fill_flags(atoms: &[i32], sums: &[u16], n: usize, flags: &mut [u8])
    requires { Summed sums.now n flags.old }
    ensures { flags.new ≡ up_to (sum_flag atoms.now sums.now) 0 n ++ drop n flags.old }
{
    for i in 0..n {
        flags[i] = u8::from(is_delocalized(atoms, AtomId(i), sums[i]));
    }
}

// internal: the ends of each bond, 1 for each elided bond, and the bond sums, in one pass.
pub fn wire(
    bonds: &[i32],
    m: usize,
    ea: &mut [u16],
    eb: &mut [u16],
    el: &mut [u8],
    sums: &mut [u16],
)
    requires wide { Wide bonds.now m ea.old eb.old el.old sums.old }
    requires sums_value { sums.old ≡ replicate (length sums.old) 0 }
    ensures wired { Wired bonds.now m ea.new eb.new el.new }
    ensures sums_after { sums.new ≡ up_to (bond_sum bonds.now m) 0 (length sums.old) }
{
    for i in 0..m {
        let row = row::get_bond(bonds, BondId(i));
        let first = cell::number(row.first);
        let second = cell::number(row.second);
        let kind = cell::number(row.kind);
        let x = kinds::order(kind) as u16;
        ea[i] = first as u16;
        eb[i] = second as u16;
        el[i] = u8::from(kind == 0);
        sums[first] += x;
        sums[second] += x;
    }
}

// internal: the graph of a molecule, into four buffers, with one of zeros for the bond sums.
pub fn build(
    tables: Tables,
    flags: &mut [u8],
    ea: &mut [u16],
    eb: &mut [u16],
    el: &mut [u8],
    sums: &mut [u16],
)
    requires valid { Valid tables.atoms.now tables.bonds.now tables.n tables.m }
    requires room { Room tables.n tables.m flags.old ea.old eb.old el.old sums.old }
    requires sums_value { sums.old ≡ replicate (length sums.old) 0 }
    ensures { Built tables.entry.atoms.now tables.entry.bonds.now tables.entry.n tables.entry.m flags.new ea.new eb.new el.new }
{
    let Tables { atoms, bonds, n, m } = tables;
    wire(bonds, m, ea, eb, el, sums);
    fill_flags(atoms, sums, n, flags);
}
