// The row of sides of a molecule: at which double bonds the lowest marked neighbours of the two ends lie on the same side.
#![tactic(auto)]

ghost use Rattle.std.specs.Prelude.{◌≡◌, ◌++◌, ◌<◌, ◌≤◌, length, drop};
ghost use Rattle.loops.specs.Loop.{up_to};
ghost use Rattle.table.specs.Limits.{max_bonds};
ghost use Rattle.conformation.specs.Sides.{other_end, lower, lowest_of, compared, side_of, told, sides_of};

use ids::{AtomId, BondId};
use refusal::Refusal;
use table::{FIRST, KIND, MAX_BONDS, SECOND, Tables, cell};

// A marked neighbour of an atom, and the side on which it lies as a mark; side 0: there is none.
// Stays: the definition lowest_of speaks of this pair, and the laws above it turn a side whether there is one or not; an Option would part each in two.
#[derive(Clone, Copy)]
struct Lowest {
    neighbour: usize,
    side: u8,
}

// The other end of a bond, seen from one of its ends.
fn other_end(bonds: &[i32], a: AtomId, b: BondId) -> usize
    requires { b.0 < max_bonds }
    ensures { result ≡ other_end bonds.now a.0 b.0 }
{
    let first = cell::bond_number(bonds, b, FIRST);
    if first == a.0 {
        return cell::bond_number(bonds, b, SECOND);
    }
    first
}

// The marked neighbour that a bond has, if it is lower than the one that is known.
fn lower(bonds: &[i32], a: AtomId, b: BondId, w: Lowest) -> Lowest
    requires { b.0 < max_bonds }
    ensures { result ≡ lower bonds.now a.0 b.0 w }
{
    let side = match table_marks::side(bonds, a, b) {
        None => return w,
        Some(side) => side,
    };
    let neighbour = other_end(bonds, a, b);
    if (w.side == 0) | (neighbour < w.neighbour) {
        return Lowest { neighbour, side };
    }
    w
}

// The lowest marked neighbour of an atom.
fn lowest_of(bonds: &[i32], m: usize, a: AtomId) -> Lowest
    requires { m ≤ max_bonds }
    ensures { result ≡ lowest_of bonds.now m a.0 }
{
    let mut w = Lowest {
        neighbour: 0,
        side: 0,
    };
    for i in 0..m {
        w = lower(bonds, a, BondId(i), w);
    }
    w
}

// 1 for the same side, 2 for opposite sides, 0 where one is none.
fn compare(s: u8, t: u8) -> u8
    ensures { result ≡ compared s t }
{
    if (s == 0) | (t == 0) {
        return 0;
    }
    if s == t { 1 } else { 2 }
}

// The cell of a bond in the row of sides.
fn side_of(bonds: &[i32], m: usize, b: BondId) -> u8
    requires { (m ≤ max_bonds) × (b.0 < m) }
    ensures { result ≡ side_of bonds.now m b.0 }
{
    if cell::bond_number(bonds, b, KIND) != 2 {
        return 0;
    }
    let first = cell::bond_number(bonds, b, FIRST);
    let second = cell::bond_number(bonds, b, SECOND);
    let one = lowest_of(bonds, m, AtomId(first));
    let other = lowest_of(bonds, m, AtomId(second));
    compare(one.side, other.side)
}

// The row of sides, up to the last bond.
fn fill(bonds: &[i32], m: usize, row: &mut [u8])
    requires { (m ≤ max_bonds) × (m ≤ length row.old) }
    ensures { row.new ≡ up_to (side_of bonds.now m) 0 m ++ drop m row.old }
{
    for i in 0..m {
        row[i] = side_of(bonds, m, BondId(i));
    }
}

// The row of sides of a molecule: 1 at each double bond whose two ends have their lowest marked neighbours on the same side, 2
// if on opposite sides, 0 at every other bond and past the last. 1: a table or the row is too short, and nothing changes.
// 13: the tables are not sound, and the row is zeroed.
pub fn sides(tables: Tables, row: &mut [u8]) -> Result<(), Refusal>
    ensures { told result row.new ≡ sides_of tables.entry.atoms.now tables.entry.bonds.now tables.entry.n tables.entry.m row.old }
{
    let Tables {
        atoms,
        bonds,
        m,
        ..
    } = tables;
    if row.len() < MAX_BONDS {
        return Err(Refusal::Short);
    }
    if !table_validity::enough(atoms, bonds) {
        return Err(Refusal::Short);
    }
    if !table_validity::sound(tables) {
        buffer::clear_from(row, 0);
        return Err(Refusal::Invalid);
    }
    fill(bonds, m, row);
    buffer::clear_from(row, m);
    Ok(())
}
