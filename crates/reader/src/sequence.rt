// Sequences and branches, each of whose readers calls the other, and the unread byte count falls.
ghost use Rattle.std.specs.Prelude.{◌≡◌, List, [], ℕ, ◌≤◌, ◌<◌, length, get_or};
ghost use Rattle.ids.specs.Limits.{max_text, max_depth};
ghost use Rattle.reading_state.specs.State.{steering};
ghost use Rattle.reader.specs.Outcome.{Bounded, outcome, reached, Sequenced, Branched, Closable, branch_ended};

use crate::answer::TextRefusal;
use crate::atom::atom_at;
use crate::bridge::bridge;
use crate::piece::{Piece, Start, joint_at, piece_at};
use ids::{BRIDGES, MAX_DEPTH};
use reading_fields::byte::peek;
use reading_state::{KEYS, State};
use refusal::Refusal;
use table::MAX_ATOMS;

// The next offset after a part of a text, and the state there.
#[derive(Clone, Copy)]
pub struct PartRead {
    pub at: usize,
    pub st: State,
}

// internal: an atom after a joint, and any number of pieces.
// Stays: the tables and arrays are lent one by one, since each callee takes others of them, and a struct would be taken apart at every call.
#[cycle(branch_sequence)]
pub fn sequence(
    s: &[u8],
    start: Start,
    from: State,
    atoms: &mut [i32],
    bonds: &mut [i32],
    outsides: &mut [u8; MAX_ATOMS],
    offsets: &mut [u16; BRIDGES],
    keys: &mut [u16; KEYS],
) -> Result<PartRead, TextRefusal>
    requires bounded { Bounded (steering from offsets.old [] []) }
    requires at_in_bounds { start.at ≤ length s.now }
    requires s_len_bound { length s.now ≤ max_text }
    ensures { Sequenced s.now start.at start.joint (steering from offsets.old outsides.old keys.old) atoms.old bonds.old atoms.new bonds.new (outcome result offsets.new outsides.new keys.new) }
{
    let joint = start.joint;
    let mut at = start.at;
    let mut st = from;
    let mut fresh = true;
    loop {
        let piece = piece_at(s, at, joint, fresh);
        fresh = false;
        match piece {
            Piece::Atom(j, q) => {
                let added = atom_at(s, q, j, st, atoms, bonds)?;
                outsides[st.atoms] = added.outside;
                st = st.extend(added.bonded);
                at = added.at;
            }
            Piece::Bridge(number, kind, q, p) => {
                bridge(st, number, kind, q, bonds, offsets, keys)?;
                st = st.join(number, kind);
                at = p;
            }
            Piece::Branch(q) => {
                if MAX_DEPTH <= st.depth {
                    return Err(TextRefusal {
                        refusal: Refusal::DeepBranch,
                        at: q,
                    });
                }
                let inner = branch(s, q, st, atoms, bonds, outsides, offsets, keys)?;
                st = inner.st;
                at = inner.at;
            }
            Piece::End(at) => return Ok(PartRead { at, st }),
            Piece::Wrong(q) => {
                return Err(TextRefusal {
                    refusal: Refusal::Grammar,
                    at: q,
                });
            }
        }
    }
}

// internal: a branch, whose `(` stands at the offset.
#[cycle(branch_sequence)]
pub fn branch(
    s: &[u8],
    at: usize,
    st: State,
    atoms: &mut [i32],
    bonds: &mut [i32],
    outsides: &mut [u8; MAX_ATOMS],
    offsets: &mut [u16; BRIDGES],
    keys: &mut [u16; KEYS],
) -> Result<PartRead, TextRefusal>
    requires bounded { Bounded (steering st offsets.old [] []) }
    requires depth_lt_max_depth { st.depth < max_depth }
    requires at_in_bounds { at < length s.now }
    requires at_value { get_or s.now at 0 ≡ 40 }
    requires s_len_bound { length s.now ≤ max_text }
    ensures { Branched s.now at (steering st offsets.old outsides.old keys.old) atoms.old bonds.old atoms.new bonds.new (outcome result offsets.new outsides.new keys.new) }
{
    let inner = st.open();
    let start = joint_at(s, at + 1);
    let o = sequence(s, start, inner, atoms, bonds, outsides, offsets, keys)?;
    end_branch(s, o)
}

// The end of a branch: it closes at its `)`, and the hub is again what it was.
fn end_branch(s: &[u8], o: PartRead) -> Result<PartRead, TextRefusal>
    requires s_len_bound { length s.now ≤ max_text }
    requires closable { Closable (steering o.st [] [] []) }
    ensures { (p x y : List ℕ) → outcome result p x y ≡ branch_ended s.now (reached o p x y) }
{
    if peek(s, o.at) != b')' {
        return Err(TextRefusal {
            refusal: Refusal::Grammar,
            at: o.at,
        });
    }
    Ok(PartRead {
        at: o.at + 1,
        st: o.st.close(),
    })
}
