// What the end of a text answers.
ghost use Rattle.std.specs.Prelude.{◌≡◌, true, false};
ghost use Rattle.table.specs.Valid.{enough};
ghost use Rattle.reading_grammar.specs.Machine.{accepting};
ghost use Rattle.reading_pieces.specs.State.{machine_of};
ghost use Rattle.reading_pieces.specs.Broken.{broken_of};
ghost use Rattle.reader_pieces.specs.Answer.{fed_is, concluded};

use crate::answer::{blank, clear_from, reply};
use crate::{ENDED, Fed};
use ids::AtomId;
use reader_checks::limit::cap_all;
use reading_pieces::Paused;
use reading_state::State;
use table::{ATOM_CELLS, BOND_CELLS};

// internal: whether the bytes so far are a text: none, or a sequence that is complete.
pub fn complete(p: Paused) -> bool
    ensures { result ≡ accepting (machine_of p) }
{
    if p.atoms == 0 {
        return true;
    }
    (1 <= p.mode) & (p.mode <= 3) & (p.depth == 0)
}

// internal: what a complete text answers.
pub fn conclude(p: Paused, atoms: &mut [i32], bonds: &mut [i32]) -> Fed
    requires { (enough atoms.old bonds.old ≡ true) × (broken_of p atoms.old bonds.old ≡ false) }
    ensures { fed_is result atoms.new bonds.new ≡ concluded p atoms.old bonds.old }
{
    let hubs = p.hubs;
    let openers = p.openers;
    let symbols = p.symbols;
    let st = State {
        hubs,
        depth: p.depth as usize,
        openers,
        bonds: p.bonds as usize,
        symbols,
        hub: AtomId(p.hub as usize),
        atoms: p.atoms as usize,
    };
    let mut offsets = p.offsets;
    cap_all(&mut offsets);
    let outsides = p.outsides;
    let mut keys = p.keys;
    cap_all(&mut keys);
    let over = blank(ENDED, 0);
    match reader::ending::end(st, &offsets, &outsides, &mut keys, atoms, bonds) {
        Ok(t) => {
            clear_from(atoms, ATOM_CELLS * t.atoms);
            clear_from(bonds, BOND_CELLS * t.bonds);
            Fed {
                code: 0,
                place: 0,
                atoms: t.atoms,
                bonds: t.bonds,
                overfull: t.overfull,
                state: over,
            }
        }
        Err(e) => reply(refusal::code(e.refusal), e.at, over),
    }
}
