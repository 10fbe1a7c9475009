// The bytes of a walk, one atom after the other.
ghost use Rattle.std.specs.Option.{is_some, unwrap_or};
ghost use Rattle.std.specs.Prelude.{true, ℕ, ◌<◌, ◌≤◌, length, replicate};
ghost use Rattle.buffer.specs.Buffer.{buffer_at, Wrote};
ghost use Rattle.ids.specs.Limits.{bridges};
ghost use Rattle.writing_bridges.specs.Slots.{slot_count};
ghost use Rattle.writing_bridges.specs.Unused.{Marked};
ghost use Rattle.writer.specs.Emit.{leave_bytes, enter_bytes, lead_bytes, head_bytes, Ready, Emitted, Texted};

use ids::AtomId;
use writing_bridges::SLOTS;
use writing_bridges::unused::UnusedBonds;
use writing_visit::{Trail, WalkNumber};

// A branch is left before a child that is not the first.
fn leave(out: &mut [u8], at: usize, up: usize, x: WalkNumber) -> usize
    ensures { Wrote (leave_bytes up x.0) (buffer_at out.old at) (buffer_at out.new result) }
{
    if up == x.0 {
        return at;
    }
    buffer::put(out, at, b')')
}

// A child that is not the last stands in a branch.
fn enter(out: &mut [u8], at: usize, more: bool) -> usize
    ensures { Wrote (enter_bytes more) (buffer_at out.old at) (buffer_at out.new result) }
{
    if more {
        return buffer::put(out, at, b'(');
    }
    at
}

// What stands before the atom x: a dot, or parentheses and the symbol of the bond to its parent.
fn lead(out: &mut [u8], at: usize, x: WalkNumber, up: usize, more: bool, kind: usize) -> usize
    ensures { Wrote (lead_bytes x.0 up more kind) (buffer_at out.old at) (buffer_at out.new result) }
{
    if up > 0 {
        let at = leave(out, at, up, x);
        let at = enter(out, at, more);
        return writing_atoms::bond_symbol(out, at, kind);
    }
    if x.0 == 0 {
        return at;
    }
    buffer::put(out, at, b'.')
}

// The atom x: what stands before it, its bytes, what closes there and what opens there. The place after it; None where the bridge numbers do not suffice.
fn emit_atom(
    atoms: &[i32],
    trail: Trail,
    last: &[u16],
    sums: &[u16],
    written: &[u8],
    bonds: UnusedBonds,
    slots: &mut [u16],
    x: WalkNumber,
    out: &mut [u8],
    at: usize,
) -> Option<usize>
    requires ready { Ready atoms.now trail.order.now trail.up.now trail.kind.now last.now sums.now written.now bonds.los.now bonds.his.now bonds.kinds.now bonds.count x.0 }
    requires marked { Marked bonds.marks.now bonds.los.now bonds.his.now bonds.count }
    requires slots_len_bound { (length slots.old < bridges) × (x.0 < length bonds.marks.now) }
    ensures { Emitted atoms.now trail.entry.order.now trail.entry.up.now trail.entry.kind.now last.now sums.now written.now bonds.entry.los.now bonds.entry.his.now bonds.entry.kinds.now bonds.entry.count x.0 slots.old slots.new (is_some result) (buffer_at out.old at) (buffer_at out.new (unwrap_or result 0)) }
{
    let Trail {
        order,
        up,
        kind,
        ..
    } = trail;
    let i = x.0;
    let a = order[i] as usize;
    let u = up[i] as usize;
    let more = last[u] as usize != i;
    let at = lead(out, at, x, u, more, kind[i] as usize);
    let at = writing_atoms::fields::atom(atoms, AtomId(a), written[a], sums[a] as usize, out, at);
    writing_bridges::ring_ends(bonds, x, slots, out, at)
}

// internal: the atoms of a walk in order, into the buffer from its start. The place after them; None where the bridge numbers do not suffice.
pub fn emit(
    atoms: &[i32],
    n: usize,
    trail: Trail,
    last: &[u16],
    sums: &[u16],
    written: &[u8],
    bonds: UnusedBonds,
    out: &mut [u8],
) -> Option<usize>
    requires by_index { (x : ℕ) → x < n → Ready atoms.now trail.order.now trail.up.now trail.kind.now last.now sums.now written.now bonds.los.now bonds.his.now bonds.kinds.now bonds.count x }
    requires marked { Marked bonds.marks.now bonds.los.now bonds.his.now bonds.count }
    requires n_in_bounds { n ≤ length bonds.marks.now }
    ensures { Texted (head_bytes atoms.now trail.entry.order.now trail.entry.up.now trail.entry.kind.now last.now sums.now written.now) bonds.entry.los.now bonds.entry.his.now bonds.entry.kinds.now n bonds.entry.count (replicate slot_count 0) (is_some result) (buffer_at out.old 0) (buffer_at out.new (unwrap_or result 0)) }
{
    let mut slots = [0u16; SLOTS];
    let mut at = 0;
    for x in 0..n {
        at = emit_atom(
            atoms,
            trail,
            last,
            sums,
            written,
            bonds,
            &mut slots,
            WalkNumber(x),
            out,
            at,
        )?;
    }
    Some(at)
}
