// The marks of bonds: on which side of an atom they place its neighbours, and the tests behind the refusals 20 and 21.
#![tactic(auto)]

ghost use Rattle.std.specs.Prelude.{◌≡◌, ◌&&◌, not, ◌<◌, ◌≤◌, eqb, length};
ghost use Rattle.kinds.specs.Kind.{given};
ghost use Rattle.table.specs.Limits.{max_bonds};
ghost use Rattle.table.specs.Marks.{side, double_at, double_count, crowded, crowded_ends, crowded_bond, none_crowded, stray, none_stray, unmarked};
ghost use Rattle.table_marks.specs.Chosen.{none_crowded_by};

use ids::{AtomId, BondId};
use table::{FIRST, KIND, SECOND, cell};

// internal: the side of an atom on which a bond places its neighbour, as a mark: `/` is above; none where it places none.
pub fn side(bonds: &[i32], a: AtomId, b: BondId) -> Option<u8>
    requires { b.0 < max_bonds }
    ensures { result ≡ given (side bonds.now a.0 b.0) }
{
    let mark = kinds::mark(cell::bond_number(bonds, b, KIND));
    if cell::bond_number(bonds, b, FIRST) == a.0 {
        return mark;
    }
    if cell::bond_number(bonds, b, SECOND) == a.0 {
        let back = kinds::turned(mark?);
        return Some(back);
    }
    None
}

// Whether two of m bonds place neighbours of an atom on the same side.
fn crowded(bonds: &[i32], m: usize, a: AtomId) -> bool
    requires { m ≤ max_bonds }
    ensures { result ≡ crowded bonds.now m a.0 }
{
    let mut above = 0usize;
    let mut below = 0usize;
    for i in 0..m {
        let s = side(bonds, a, BondId(i));
        above += usize::from(s == Some(kinds::UP));
        below += usize::from(s == Some(kinds::DOWN));
    }
    (1 < above) | (1 < below)
}

// Whether an end of a bond is crowded, whatever its kind.
fn crowded_end(bonds: &[i32], m: usize, b: BondId) -> bool
    requires { (m ≤ max_bonds) × (b.0 < m) }
    ensures { result ≡ crowded_ends bonds.now m b.0 }
{
    let first = cell::bond_number(bonds, b, FIRST);
    if crowded(bonds, m, AtomId(first)) {
        return true;
    }
    let second = cell::bond_number(bonds, b, SECOND);
    crowded(bonds, m, AtomId(second))
}

// Whether a bond is double and has a crowded end.
fn crowded_bond(bonds: &[i32], m: usize, b: BondId) -> bool
    requires { (m ≤ max_bonds) × (b.0 < m) }
    ensures { result ≡ crowded_bond bonds.now m b.0 }
{
    if cell::bond_number(bonds, b, KIND) != 2 {
        return false;
    }
    crowded_end(bonds, m, b)
}

// internal: no bond has a mark.
pub fn unmarked(bonds: &[i32], m: usize) -> bool
    requires { m ≤ max_bonds }
    ensures { result ≡ unmarked bonds.now m }
{
    (0..m).all(|i| !kinds::is_mark(cell::bond_number(bonds, BondId(i), KIND)))
}

// internal: no end of a double bond is crowded: 20 is not given.
pub fn none_crowded(bonds: &[i32], m: usize) -> bool
    requires { m ≤ max_bonds }
    ensures { result ≡ none_crowded bonds.now m }
{
    unmarked(bonds, m) || (0..m).all(|i| !crowded_bond(bonds, m, BondId(i)))
}

// Whether an atom has a double bond.
fn has_double(bonds: &[i32], m: usize, a: AtomId) -> bool
    requires { m ≤ max_bonds }
    ensures { result ≡ not (eqb (double_count bonds.now m a.0) 0) }
{
    (0..m).any(|i| is_double_at(bonds, a, BondId(i)))
}

// Whether a bond is a double bond at an atom.
fn is_double_at(bonds: &[i32], a: AtomId, b: BondId) -> bool
    requires { b.0 < max_bonds }
    ensures { result ≡ double_at bonds.now a.0 b.0 }
{
    let first = cell::bond_number(bonds, b, FIRST);
    let second = cell::bond_number(bonds, b, SECOND);
    let kind = cell::bond_number(bonds, b, KIND);
    ((first == a.0) | (second == a.0)) & (kind == 2)
}

// Whether a bond has a mark and touches no double bond.
fn stray(bonds: &[i32], m: usize, b: BondId) -> bool
    requires { (m ≤ max_bonds) × (b.0 < m) }
    ensures { result ≡ stray bonds.now m b.0 }
{
    if !kinds::is_mark(cell::bond_number(bonds, b, KIND)) {
        return false;
    }
    let first = cell::bond_number(bonds, b, FIRST);
    let second = cell::bond_number(bonds, b, SECOND);
    !has_double(bonds, m, AtomId(first)) & !has_double(bonds, m, AtomId(second))
}

// internal: each mark touches a double bond: 21 is not given.
pub fn none_stray(bonds: &[i32], m: usize) -> bool
    requires { m ≤ max_bonds }
    ensures { result ≡ none_stray bonds.now m }
{
    (0..m).all(|i| !stray(bonds, m, BondId(i)))
}

// Whether a row chooses a bond, x being its cell, and an end of the bond is crowded.
fn crowded_choice(bonds: &[i32], m: usize, b: BondId, x: u8) -> bool
    requires { (m ≤ max_bonds) × (b.0 < m) }
    ensures { result ≡ (eqb x 1 && crowded_ends bonds.now m b.0) }
{
    if x != 1 {
        return false;
    }
    crowded_end(bonds, m, b)
}

// internal: no end of a bond that a row chooses is crowded: where these become double, 20 is not given.
pub fn none_crowded_by(bonds: &[i32], m: usize, row: &[u8]) -> bool
    requires { (m ≤ max_bonds) × (m ≤ length row.now) }
    ensures { result ≡ none_crowded_by bonds.now m row.now }
{
    unmarked(bonds, m) || (0..m).all(|i| !crowded_choice(bonds, m, BondId(i), row[i]))
}
