// A bridge: it opens at the hub, or closes with a bond.
ghost use Rattle.std.specs.Prelude.{◌≡◌, List, [], ℕ, ◌*◌, ◌≤◌, ◌<◌, length, ltb};
ghost use Rattle.table.specs.Limits.{max_bonds, bond_cells};
ghost use Rattle.ids.specs.Limits.{bridges, max_text};
ghost use Rattle.loops.specs.Loop.{pick};
ghost use Rattle.reading_state.specs.State.{steering, keyed};
ghost use Rattle.reading.specs.Memory.{joins, joined_already, between};
ghost use Rattle.reader.specs.Outcome.{Bounded};
ghost use Rattle.reader.specs.Bridge.{Away, Closes, Bridges};

use crate::answer::TextRefusal;
use crate::atom::bond_of;
use ids::{AtomId, BRIDGES, BondId, SMALL};
use reading_state::{KEYS, State};
use refusal::Refusal;
use table::cell::{bond_number, number};
use table::{BOND_CELLS, Bond, FIRST, MAX_BONDS, SECOND};
use table_edits::put_bond;

// Whether a bond joins two atoms.
fn joins(bonds: &[i32], a: AtomId, b: AtomId, i: BondId) -> bool
    requires { i.0 < max_bonds }
    ensures { result ≡ joins bonds.now a.0 b.0 i.0 }
{
    let y = bond_number(bonds, i, SECOND);
    if y == b.0 {
        return bond_number(bonds, i, FIRST) == a.0;
    }
    if y == a.0 {
        return bond_number(bonds, i, FIRST) == b.0;
    }
    false
}

// Whether the second end of one of m bonds is one of two atoms: a look at each, without an early end.
fn near(bonds: &[i32], m: usize, a: u16, b: u16) -> bool
    requires { (m ≤ max_bonds) × (bond_cells * m ≤ length bonds.now) }
    ensures { Away bonds.now a b m result }
{
    let mut found = false;
    for i in 0..m {
        let y = number(bonds[BOND_CELLS * i + SECOND]);
        found = found | (y == a as usize) | (y == b as usize);
    }
    found
}

// Whether one of the bonds before m joins two atoms, one bond after the other.
fn joined_among(bonds: &[i32], m: BondId, a: AtomId, b: AtomId) -> bool
    requires { m.0 ≤ max_bonds }
    ensures { result ≡ joined_already bonds.now m.0 a.0 b.0 }
{
    for i in 0..m.0 {
        if joins(bonds, a, b, BondId(i)) {
            return true;
        }
    }
    false
}

// Whether one of the bonds before m joins two atoms; where there are many, the second ends are asked first.
fn joined_already(bonds: &[i32], m: BondId, a: AtomId, b: AtomId) -> bool
    requires m_le_max_bonds { m.0 ≤ max_bonds }
    requires a_bound { (a.0 < 65536) × (b.0 < 65536) }
    ensures { result ≡ joined_already bonds.now m.0 a.0 b.0 }
{
    if m.0 <= SMALL {
        return joined_among(bonds, m, a, b);
    }
    if BOND_CELLS * m.0 <= bonds.len() {
        if !near(bonds, m.0, a.0 as u16, b.0 as u16) {
            return false;
        }
    }
    joined_among(bonds, m, a, b)
}

// The bond between two atoms, its kind as seen from the first: the lower number first.
fn between(a: AtomId, b: AtomId, k: u8) -> Bond
    requires { (a.0 < 65536) × (b.0 < 65536) }
    ensures { result ≡ between a.0 b.0 k }
{
    if a.0 < b.0 {
        return bond_of(a, b, k);
    }
    let back = kinds::turned(k);
    bond_of(b, a, back)
}

// internal: the bond of the bridge that was opened at the atom u with the symbol j, and closes at the hub with k, at an offset; m is the number that it gets.
pub fn close_at(
    bonds: &[i32],
    m: BondId,
    u: AtomId,
    hub: AtomId,
    j: u8,
    k: u8,
    at: usize,
) -> Result<Bond, TextRefusal>
    requires { (u.0 < 65536) × (hub.0 < 65536) }
    ensures { Closes bonds.now m.0 u.0 hub.0 j k at result }
{
    if MAX_BONDS <= m.0 {
        return Err(TextRefusal {
            refusal: Refusal::ManyBonds,
            at,
        });
    }
    if u.0 == hub.0 {
        return Err(TextRefusal {
            refusal: Refusal::SelfBridge,
            at,
        });
    }
    if joined_already(bonds, m, u, hub) {
        return Err(TextRefusal {
            refusal: Refusal::RepeatedBond,
            at,
        });
    }
    if kinds::clash(j, k) {
        return Err(TextRefusal {
            refusal: Refusal::SymbolClash,
            at,
        });
    }
    Ok(between(u, hub, kinds::meet(j, k)))
}

// internal: writes the keys of a bridge's bond, whose digits stand at p at the atom u and at q at the hub: the lower number first.
pub fn put_keys(keys: &mut [u16; KEYS], b: BondId, u: AtomId, hub: AtomId, p: u16, q: u16)
    requires { (b.0 < max_bonds) × (p ≤ max_text) × (q ≤ max_text) }
    ensures { keys.new ≡ pick (ltb u.0 hub.0) (keyed keys.old b.0 p q) (keyed keys.old b.0 q p) }
{
    let i = 2 * b.0;
    if u.0 < hub.0 {
        keys[i] = p + 1;
        keys[i + 1] = q + 1;
        return;
    }
    keys[i] = q + 1;
    keys[i + 1] = p + 1;
}

// internal: before a bridge joins, with its number, the kind of its symbol, and the offset of its digit or `%`: the offset of one that opens, the bond and its keys of one that closes, or its refusal.
pub fn bridge(
    st: State,
    number: usize,
    kind: u8,
    at: usize,
    bonds: &mut [i32],
    offsets: &mut [u16; BRIDGES],
    keys: &mut [u16; KEYS],
) -> Result<(), TextRefusal>
    requires bounded { Bounded (steering st offsets.old [] []) }
    requires number_lt_bridges { number < bridges }
    requires at_le_max_text { at ≤ max_text }
    ensures { (x : List ℕ) → Bridges (steering st offsets.old x keys.old) number kind at bonds.old bonds.new offsets.new keys.new result }
{
    let Some(opening) = st.opening(number) else {
        offsets[number] = at as u16;
        return Ok(());
    };
    let from = offsets[number];
    offsets[number] = 0;
    let m = BondId(st.bonds);
    let bond = close_at(bonds, m, opening.atom, st.hub, opening.symbol, kind, at)?;
    put_bond(bonds, m, bond);
    put_keys(keys, m, opening.atom, st.hub, from, at as u16);
    Ok(())
}
