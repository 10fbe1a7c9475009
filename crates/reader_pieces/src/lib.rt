// Reading a text in pieces: start, feed, end.
#![tactic(auto)]

ghost use Rattle.std.specs.Prelude.{◌≡◌};
ghost use Rattle.reading_pieces.specs.Calls.{start_of, fed_of, end_of};
ghost use Rattle.reader_pieces.specs.Answer.{fed_is, guard_code};

use crate::answer::{blank, refuse, reply};
use crate::ending::{complete, conclude};
use crate::run::run;
use reader_checks::broken::broken;
use reading_pieces::Paused;

pub mod answer;
pub mod ending;
pub mod run;

// A call's answer: a code with its offset, the counts of atoms, bonds and over-full atoms, and the state.
// Stays: start, feed and end share it, C gets its cells one by one, and a state may hand back any code, so that the code is a number.
#[derive(Clone, Copy)]
pub struct Fed {
    pub code: u8,
    pub place: usize,
    pub atoms: usize,
    pub bonds: usize,
    pub overfull: usize,
    pub state: Paused,
}

// The code of a call after the end.
pub const ENDED: u8 = 24;

// The code of a state that was not handed back so.
pub const BROKEN: u8 = 25;

// Begins a reading: both tables are zeroed, or left as they were where one is too short (1).
pub fn start(atoms: &mut [i32], bonds: &mut [i32]) -> Fed
    ensures { fed_is result atoms.new bonds.new ≡ start_of atoms.old bonds.old }
{
    if !table_validity::enough(atoms, bonds) {
        return reply(1, 0, blank(0, 0));
    }
    refuse(0, 0, blank(0, 0), atoms, bonds)
}

// The code that stops a call, 1, 25 or 24; none where it goes on.
fn guard(p: Paused, atoms: &[i32], bonds: &[i32]) -> Option<u8>
    ensures { result ≡ guard_code p atoms.now bonds.now }
{
    if !table_validity::enough(atoms, bonds) {
        return Some(1);
    }
    if broken(p, atoms, bonds) {
        return Some(BROKEN);
    }
    if p.told == ENDED {
        return Some(ENDED);
    }
    None
}

// Reads a piece: 0, or the refusal of a byte with its offset, which every later piece repeats. 1, 25 and 24 change nothing; every other refusal zeroes both tables.
pub fn feed(p: Paused, piece: &[u8], atoms: &mut [i32], bonds: &mut [i32]) -> Fed
    ensures { fed_is result atoms.new bonds.new ≡ fed_of p piece.now atoms.old bonds.old }
{
    if let Some(code) = guard(p, atoms, bonds) {
        return reply(code, 0, p);
    }
    if p.told != 0 {
        return refuse(p.told, p.place as usize, p, atoms, bonds);
    }
    run(p, piece, atoms, bonds)
}

// Says that the text has ended: what reading whole answers. 1, 25 and 24 change nothing; every other refusal zeroes both tables, and an acceptance what follows the rows.
pub fn end(p: Paused, atoms: &mut [i32], bonds: &mut [i32]) -> Fed
    ensures { fed_is result atoms.new bonds.new ≡ end_of p atoms.old bonds.old }
{
    if let Some(code) = guard(p, atoms, bonds) {
        return reply(code, 0, p);
    }
    if p.told != 0 {
        return refuse(p.told, p.place as usize, blank(ENDED, 0), atoms, bonds);
    }
    if !complete(p) {
        return refuse(3, p.read as usize, blank(ENDED, 0), atoms, bonds);
    }
    conclude(p, atoms, bonds)
}
