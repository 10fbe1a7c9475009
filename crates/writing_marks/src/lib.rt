// The marks of the atoms as they are written: the stored ones, turned by the walk's ranks of their bonds.
#![tactic(auto)]

ghost use Rattle.std.specs.Prelude.{◌≡◌, true, ◌++◌, ◌+◌, ◌-◌, ◌*◌, ◌<◌, ◌≤◌, length, get_or, drop, replicate};
ghost use Rattle.loops.specs.Loop.{each, up_to};
ghost use Rattle.table.specs.Limits.{max_atoms};
ghost use Rattle.table.specs.Cells.{end1, end2};
ghost use Rattle.table.specs.Valid.{Valid};
ghost use Rattle.table.specs.Sound.{none_unfit};
ghost use Rattle.table.specs.Orders.{turned_mark, at_end};
ghost use Rattle.writing_walk.specs.Ranks.{walk_rank};
ghost use Rattle.writing.specs.Write.{walk_bond, bond_list};
ghost use Rattle.writing_visit.specs.Visit.{BondsFit};
ghost use Rattle.writing_bridges.specs.Unused.{Numbered};
ghost use Rattle.writing_marks.specs.Marks.{unmarked, with_ranks, Ranked, Turned};

use ids::{AtomId, BondId};
use table::{FIRST, MARK, MAX_BONDS, SECOND, Tables, cell};
use writing_visit::{Trail, WalkNumber};

// Whether no atom has a mark.
fn none_marked(atoms: &[i32], n: usize) -> bool
    requires { n ≤ max_atoms }
    ensures { result ≡ each (unmarked atoms.now) 0 n }
{
    for a in 0..n {
        if cell::atom_number(atoms, AtomId(a), MARK) != 0 {
            return false;
        }
    }
    true
}

// Where the bond between x and y stands among the neighbours of x: a parent first, then bridges, then children.
fn rank(up: &[u16], n: usize, x: WalkNumber, y: WalkNumber) -> u16
    requires n_le_max_atoms { (n ≤ max_atoms) × (n ≤ length up.now) }
    requires x_lt_n { (x.0 < n) × (y.0 < n) }
    ensures { result ≡ walk_rank n up.now x.0 y.0 }
{
    let i = x.0;
    let j = y.0;
    if up[i] as usize == j + 1 {
        return 0;
    }
    if up[j] as usize == i + 1 {
        return (n + 2 + j) as u16;
    }
    (j + 2) as u16
}

// The walk number of an atom, from the numbers plus 1.
fn walk_number(number: &[u16], a: AtomId) -> WalkNumber
    requires a_in_bounds { a.0 < length number.now }
    requires nonzero { 0 < get_or number.now a.0 0 }
    ensures { result.0 ≡ get_or number.now a.0 0 - 1 }
{
    let i = a.0;
    WalkNumber(number[i] as usize - 1)
}

// The ranks of the bond b between x and y, at its first end x and at its second end y.
fn put_ranks(up: &[u16], n: usize, x: WalkNumber, y: WalkNumber, b: BondId, ranks: &mut [u16])
    requires n_le_max_atoms { (n ≤ max_atoms) × (n ≤ length up.now) }
    requires x_lt_n { (x.0 < n) × (y.0 < n) }
    requires b_in_bounds { 2 * b.0 + 1 < length ranks.old }
    ensures { ranks.new ≡ with_ranks n up.now x.0 y.0 b.0 ranks.old }
{
    let i = b.0;
    ranks[2 * i] = rank(up, n, x, y);
    ranks[2 * i + 1] = rank(up, n, y, x);
}

// The ranks of a bond of the table.
fn bond_ranks(bonds: &[i32], n: usize, m: usize, trail: Trail, b: BondId, ranks: &mut [u16])
    requires bonds_fit { BondsFit (walk_bond bonds.now) n m }
    requires numbered { Numbered (bond_list bonds.now m) n trail.number.now trail.up.now }
    requires b_lt_m { (b.0 < m) × (2 * m ≤ length ranks.old) }
    ensures { ranks.new ≡ with_ranks n trail.entry.up.now (get_or trail.entry.number.now (end1 bonds.now b.0) 0 - 1) (get_or trail.entry.number.now (end2 bonds.now b.0) 0 - 1) b.0 ranks.old }
{
    let Trail { number, up, .. } = trail;
    let x = walk_number(number, AtomId(cell::bond_number(bonds, b, FIRST)));
    let y = walk_number(number, AtomId(cell::bond_number(bonds, b, SECOND)));
    put_ranks(up, n, x, y, b, ranks);
}

// The ranks of m bonds.
fn fill_ranks(bonds: &[i32], n: usize, m: usize, trail: Trail, ranks: &mut [u16])
    requires bonds_fit { BondsFit (walk_bond bonds.now) n m }
    requires numbered { Numbered (bond_list bonds.now m) n trail.number.now trail.up.now }
    requires m_in_bounds { 2 * m ≤ length ranks.old }
    ensures { Ranked bonds.now n m m ranks.new }
{
    for b in 0..m {
        bond_ranks(bonds, n, m, trail, BondId(b), ranks);
    }
}

// The marks of n atoms, turned by ranks.
fn fill_marks(tables: Tables, ranks: &[u16], written: &mut [u8])
    requires valid { Valid tables.atoms.now tables.bonds.now tables.n tables.m }
    requires m_value { none_unfit tables.atoms.now tables.bonds.now tables.n tables.m ≡ true }
    requires m_in_bounds { (2 * tables.m ≤ length ranks.now) × (tables.n ≤ length written.old) }
    ensures { written.new ≡ up_to (turned_mark (at_end ranks.now tables.entry.bonds.now) tables.entry.atoms.now tables.entry.bonds.now tables.entry.m) 0 tables.entry.n ++ drop tables.entry.n written.old }
{
    let Tables { atoms, bonds, n, m } = tables;
    for a in 0..n {
        written[a] = table_orders::turned_mark(atoms, bonds, m, AtomId(a), ranks);
    }
}

// The marks of a molecule that has some, as they are written.
fn turn_marked(tables: Tables, trail: Trail, written: &mut [u8])
    requires valid { Valid tables.atoms.now tables.bonds.now tables.n tables.m }
    requires m_value { none_unfit tables.atoms.now tables.bonds.now tables.n tables.m ≡ true }
    requires bonds_fit { BondsFit (walk_bond tables.bonds.now) tables.n tables.m }
    requires numbered { Numbered (bond_list tables.bonds.now tables.m) tables.n trail.number.now trail.up.now }
    requires n_in_bounds { tables.n ≤ length written.old }
    ensures { Turned tables.entry.atoms.now tables.entry.bonds.now tables.entry.n tables.entry.m written.new }
{
    let Tables { bonds, n, m, .. } = tables;
    let mut ranks = [0u16; 2 * MAX_BONDS];
    fill_ranks(bonds, n, m, trail, &mut ranks);
    fill_marks(tables, &ranks, written);
}

// internal: each atom's mark as it is written, in an array of zeros.
pub fn turn(tables: Tables, trail: Trail, written: &mut [u8])
    requires valid { Valid tables.atoms.now tables.bonds.now tables.n tables.m }
    requires m_value { none_unfit tables.atoms.now tables.bonds.now tables.n tables.m ≡ true }
    requires bonds_fit { BondsFit (walk_bond tables.bonds.now) tables.n tables.m }
    requires numbered { Numbered (bond_list tables.bonds.now tables.m) tables.n trail.number.now trail.up.now }
    requires written_value { (written.old ≡ replicate (length written.old) 0) × (tables.n ≤ length written.old) }
    ensures { Turned tables.entry.atoms.now tables.entry.bonds.now tables.entry.n tables.entry.m written.new }
{
    let Tables { atoms, n, .. } = tables;
    if none_marked(atoms, n) {
        return;
    }
    turn_marked(tables, trail, written);
}
