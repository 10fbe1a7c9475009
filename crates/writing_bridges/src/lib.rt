// Bridges: the bonds that the walk does not use, the numbers that are open, and what is written of them at an atom.
#![tactic(auto)]

ghost use Rattle.std.specs.Option.{is_some, unwrap_or};
ghost use Rattle.std.specs.Prelude.{◌≡◌, ◌++◌, ◌+◌, ◌<◌, ◌≤◌, length, set};
ghost use Rattle.table.specs.Limits.{max_bonds};
ghost use Rattle.ids.specs.Limits.{bridges};
ghost use Rattle.buffer.specs.Buffer.{buffer_at, Wrote};
ghost use Rattle.writing.specs.Spell.{kind_bytes, bridge_bytes};
ghost use Rattle.writing_bridges.specs.Slots.{Looked, Found, Near, Released, Inserted, Closed, Opened, Ended};
ghost use Rattle.writing_bridges.specs.Unused.{Marked};

use ids::BRIDGES;
use unused::{MANY, UnusedBonds, UnusedId};
use writing_visit::WalkNumber;

pub mod unused;

// How many bridge numbers there are: a slot for each, 0 where it is free, else the number of its bond plus 1.
pub const SLOTS: usize = BRIDGES - 1;

// The first slot with a content from a slot on.
fn slot_from(slots: &[u16], x: usize, from: usize) -> Option<usize>
    requires { Looked x slots.now from }
    ensures { Found x slots.now result }
{
    for i in from..slots.len() {
        if slots[i] as usize == x {
            return Some(i);
        }
    }
    None
}

// The first slot with a content. It is mostly one of the first two.
fn slot_of(slots: &[u16], x: usize) -> Option<usize>
    ensures { Found x slots.now result }
{
    if slots.len() < 2 {
        return slot_from(slots, x, 0);
    }
    if slots[0] as usize == x {
        return Some(0);
    }
    if slots[1] as usize == x {
        return Some(1);
    }
    slot_from(slots, x, 2)
}

// The nearer of the best bond so far and the bond i.
fn nearer(
    ends: &[u16],
    keys: &[u16],
    k: usize,
    x: WalkNumber,
    from: WalkNumber,
    i: UnusedId,
    best: UnusedId,
) -> UnusedId
    requires k_in_bounds { (k ≤ length ends.now) × (k ≤ length keys.now) }
    requires i_lt_k { i.0 < k }
    ensures { Near ends.now keys.now x.0 from.0 k i.0 best.0 → Near ends.now keys.now x.0 from.0 k (i.0 + 1) result.0 }
{
    let at = i.0;
    let old = best.0;
    if ends[at] as usize != x.0 {
        return best;
    }
    let key = keys[at] as usize;
    if key < from.0 {
        return best;
    }
    if k <= old {
        return i;
    }
    if keys[old] as usize <= key {
        return best;
    }
    i
}

// Of the bonds with the end x, the one with the least other end from a bound on; k where there is none.
fn nearest(ends: &[u16], keys: &[u16], k: usize, x: WalkNumber, from: WalkNumber) -> UnusedId
    requires { (k ≤ length ends.now) × (k ≤ length keys.now) }
    ensures { Near ends.now keys.now x.0 from.0 k k result.0 }
{
    let mut best = UnusedId(k);
    for i in 0..k {
        best = nearer(ends, keys, k, x, from, UnusedId(i), best);
    }
    best
}

// A bridge number is written, and its slot gets a content.
fn write_slot(
    slots: &mut [u16],
    out: &mut [u8],
    at: usize,
    kind: usize,
    r: usize,
    x: usize,
) -> usize
    requires slots_len_bound { (length slots.old < bridges) × (r < length slots.old) }
    requires x_le_max_bonds { x ≤ max_bonds }
    ensures wrote { Wrote (kind_bytes kind ++ bridge_bytes r) (buffer_at out.old at) (buffer_at out.new result) }
    ensures slots_after { slots.new ≡ set slots.old r x }
{
    slots[r] = x as u16;
    let at = writing_atoms::bond_symbol(out, at, kind);
    writing_atoms::bridge(out, at, r)
}

// The bond i closes: its bridge number is written, and its slot is free again.
fn close_bond(slots: &mut [u16], out: &mut [u8], at: usize, i: UnusedId) -> usize
    requires { (length slots.old < bridges) × (i.0 < max_bonds) }
    ensures { Released i.0 slots.old slots.new (buffer_at out.old at) (buffer_at out.new result) }
{
    match slot_of(slots, i.0 + 1) {
        Some(r) => write_slot(slots, out, at, 0, r, 0),
        None => at,
    }
}

// The bond i opens: the lowest free bridge number is written after its symbol. The place after it; None where no number is free.
fn open_bond(
    slots: &mut [u16],
    out: &mut [u8],
    at: usize,
    kind: usize,
    i: UnusedId,
) -> Option<usize>
    requires { (length slots.old < bridges) × (i.0 < max_bonds) }
    ensures { Inserted i.0 kind slots.old slots.new (is_some result) (buffer_at out.old at) (buffer_at out.new (unwrap_or result 0)) }
{
    let r = slot_of(slots, 0)?;
    Some(write_slot(slots, out, at, kind, r, i.0 + 1))
}

// What closes at the atom x, by ascending other end from a bound on.
// Stays: closing and opening differ in more than a step: each promises of its own bytes and slots, and only opening can fail.
fn close_from(
    bonds: &UnusedBonds,
    x: WalkNumber,
    from: WalkNumber,
    slots: &mut [u16],
    out: &mut [u8],
    at: usize,
) -> usize
    requires k_in_bounds { (bonds.now.count ≤ length bonds.now.los.now) × (bonds.now.count ≤ length bonds.now.his.now) }
    requires k_le_max_bonds { (bonds.now.count ≤ max_bonds) × (length slots.old < bridges) }
    ensures { Closed bonds.now.los.now bonds.now.his.now bonds.now.count x.0 from.0 slots.old slots.new (buffer_at out.old at) (buffer_at out.new result) }
{
    let UnusedBonds {
        los,
        his,
        count: k,
        ..
    } = *bonds;
    let bond = nearest(his, los, k, x, from);
    let i = bond.0;
    if k <= i {
        return at;
    }
    let at = close_bond(slots, out, at, bond);
    let next = los[i] as usize + 1;
    close_from(bonds, x, WalkNumber(next), slots, out, at)
}

// What opens at the atom x, by ascending other end from a bound on. None where the bridge numbers do not suffice.
fn open_from(
    bonds: &UnusedBonds,
    x: WalkNumber,
    from: WalkNumber,
    slots: &mut [u16],
    out: &mut [u8],
    at: usize,
) -> Option<usize>
    requires k_in_bounds { (bonds.now.count ≤ length bonds.now.los.now) × (bonds.now.count ≤ length bonds.now.his.now) }
    requires k_le_max_bonds { (bonds.now.count ≤ max_bonds) × (length slots.old < bridges) }
    requires k_in_bounds_2 { bonds.now.count ≤ length bonds.now.kinds.now }
    ensures { Opened bonds.now.los.now bonds.now.his.now bonds.now.kinds.now bonds.now.count x.0 from.0 slots.old slots.new (is_some result) (buffer_at out.old at) (buffer_at out.new (unwrap_or result 0)) }
{
    let UnusedBonds {
        los,
        his,
        kinds,
        count: k,
        ..
    } = *bonds;
    let bond = nearest(los, his, k, x, from);
    let i = bond.0;
    if k <= i {
        return Some(at);
    }
    let at = open_bond(slots, out, at, kinds[i] as usize, bond)?;
    let next = his[i] as usize + 1;
    open_from(bonds, x, WalkNumber(next), slots, out, at)
}

// internal: what closes at the atom x, and then what opens there. The place after the last byte; None where the bridge numbers do not suffice.
pub fn ring_ends(
    bonds: UnusedBonds,
    x: WalkNumber,
    slots: &mut [u16],
    out: &mut [u8],
    at: usize,
) -> Option<usize>
    requires k_in_bounds { (bonds.count ≤ length bonds.los.now) × (bonds.count ≤ length bonds.his.now) }
    requires k_le_max_bonds { (bonds.count ≤ max_bonds) × (length slots.old < bridges) }
    requires k_in_bounds_2 { bonds.count ≤ length bonds.kinds.now }
    requires marked { Marked bonds.marks.now bonds.los.now bonds.his.now bonds.count }
    requires x_in_bounds { x.0 < length bonds.marks.now }
    ensures { Ended bonds.entry.los.now bonds.entry.his.now bonds.entry.kinds.now bonds.entry.count x.0 slots.old slots.new (is_some result) (buffer_at out.old at) (buffer_at out.new (unwrap_or result 0)) }
{
    let UnusedBonds {
        his,
        kinds,
        marks,
        ..
    } = bonds;
    let here = x.0;
    let mark = marks[here];
    if mark == 0 {
        return Some(at);
    }
    if mark < MANY {
        let i = mark as usize - 1;
        if his[i] as usize == here {
            return Some(close_bond(slots, out, at, UnusedId(i)));
        }
        return open_bond(slots, out, at, kinds[i] as usize, UnusedId(i));
    }
    let at = close_from(&bonds, x, WalkNumber(0), slots, out, at);
    open_from(&bonds, x, WalkNumber(0), slots, out, at)
}
