// What the calls hand back.
ghost use Rattle.std.specs.Prelude.{◌≡◌};
ghost use Rattle.reading_pieces.specs.State.{blank_state};
ghost use Rattle.reading_pieces.specs.Calls.{cleared_from, refused_in};
ghost use Rattle.reader_pieces.specs.Answer.{fed_is, replied};

use crate::Fed;
use ids::{BRIDGES, MAX_ATOMS, MAX_DEPTH};
use reading_pieces::Paused;
use reading_state::KEYS;

// internal: every cell 0 but what was told.
pub fn blank(told: u8, place: u16) -> Paused
    ensures { result ≡ blank_state told place }
{
    Paused {
        told,
        place,
        read: 0,
        mode: 0,
        letter: 0,
        pending: 0,
        tens: 0,
        element: 0,
        selected: 0,
        isotope: 0,
        hydrogens: 0,
        charge: 0,
        extension: 0,
        mark: 0,
        hub: 0,
        atoms: 0,
        bonds: 0,
        depth: 0,
        hubs: [0u16; MAX_DEPTH],
        openers: [0u16; BRIDGES],
        symbols: [0u8; BRIDGES],
        offsets: [0u16; BRIDGES],
        outsides: [0u8; MAX_ATOMS],
        keys: [0u16; KEYS],
    }
}

// internal: an answer without counts.
pub fn reply(code: u8, place: usize, state: Paused) -> Fed
    ensures { result ≡ replied code place state }
{
    Fed {
        code,
        place,
        atoms: 0,
        bonds: 0,
        overfull: 0,
        state,
    }
}

// internal: zeroes a table from a cell on.
pub fn clear_from(t: &mut [i32], from: usize)
    ensures { t.new ≡ cleared_from from t.old }
{
    for i in from..t.len() {
        t[i] = 0;
    }
}

// internal: a refusal, which zeroes both tables.
pub fn refuse(code: u8, place: usize, state: Paused, atoms: &mut [i32], bonds: &mut [i32]) -> Fed
    ensures { fed_is result atoms.new bonds.new ≡ refused_in code place state atoms.old bonds.old }
{
    clear_from(atoms, 0);
    clear_from(bonds, 0);
    reply(code, place, state)
}
