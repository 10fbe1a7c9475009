// The register's calls for C and Rust.
ghost use Rattle.std.specs.Prelude.{◌≡◌};
ghost use Rattle.register.specs.Answers.{told, emptied_of, stepped_of, added_of, none, found_out, found_of};
ghost use Rattle.register_walk.specs.Walk.{stays, walked_out, walked_of};
ghost use Rattle.balsa.specs.Registers.{entry_reply, walk_reply};

use register::{Found, RegisterError};
use register_walk::Step;

// What reading an entry hands back: code 0 with found 1 and where its body stands; code 0 with found 0 where there is none; or the refusal's code.
#[repr(C)]
#[derive(Clone, Copy)]
pub struct EntryReply {
    pub code: u32,
    pub found: u32,
    pub tag: u16,
    pub start: usize,
    pub length: usize,
}

// A reading that found nothing.
fn no_entry(code: u32) -> EntryReply
    ensures { result ≡ entry_reply (none code) }
{
    EntryReply {
        code,
        found: 0,
        tag: 0,
        start: 0,
        length: 0,
    }
}

// An answer of reading in plain numbers.
impl From<Result<Option<Found>, RegisterError>> for EntryReply {
    ghost from_gives = { λ answer r. r ≡ entry_reply (found_out answer) };

    fn from(answer: Result<Option<Found>, RegisterError>) -> EntryReply {
        match answer {
            Err(e) => no_entry(u32::from(e)),
            Ok(None) => no_entry(0),
            Ok(Some(Found { tag, start, length })) => EntryReply {
                code: 0,
                found: 1,
                tag,
                start,
                length,
            },
        }
    }
}

// Empties a register of full length: 0 or 1.
#[unsafe(no_mangle)]
pub extern "C" fn balsa_register_empty(reg: &mut [u8]) -> u32
    ensures { told result reg.new ≡ emptied_of reg.old }
{
    register::code(register::empty(reg))
}

// Adds an entry: 0, 1, 17 or 18.
#[unsafe(no_mangle)]
pub extern "C" fn balsa_register_add(reg: &mut [u8], tag: u16, body: &[u8]) -> u32
    ensures { told result reg.new ≡ added_of reg.old tag body.now }
{
    register::code(register::add(reg, tag, body))
}

// Step k of adding, at most one byte: 0, 1, 17 or 18. Past the last step nothing changes.
#[unsafe(no_mangle)]
pub extern "C" fn balsa_register_step(reg: &mut [u8], tag: u16, body: &[u8], k: usize) -> u32
    ensures { told result reg.new ≡ stepped_of reg.old tag body.now k }
{
    register::code(register::step(reg, tag, body, k))
}

// The entry at a place counted from 0: code 0, 1 or 17.
#[unsafe(no_mangle)]
pub extern "C" fn balsa_register_entry(reg: &[u8], place: usize) -> EntryReply
    ensures { result ≡ entry_reply (found_of reg.now place) }
{
    EntryReply::from(register::entry(reg, place))
}

// What a step of a walk hands back: code 0 with the entry and the place of the next step; or 255 at the end or the refusal's code, with the place handed in.
#[repr(C)]
#[derive(Clone, Copy)]
pub struct WalkReply {
    pub code: u32,
    pub tag: u16,
    pub start: usize,
    pub length: usize,
    pub next: usize,
}

// A step that hands out nothing.
fn stay(code: u32, place: usize) -> WalkReply
    ensures { result ≡ walk_reply (stays place code) }
{
    WalkReply {
        code,
        tag: 0,
        start: 0,
        length: 0,
        next: place,
    }
}

// An answer to a step from a place, in plain numbers.
// Stays: the reply names the place that was handed in, which the answer does not have.
fn walk_reply(answer: Result<Option<Step>, RegisterError>, place: usize) -> WalkReply
    ensures { result ≡ walk_reply (walked_out place answer) }
{
    match answer {
        Err(e) => stay(u32::from(e), place),
        Ok(None) => stay(255, place),
        Ok(Some(Step { found, next })) => WalkReply {
            code: 0,
            tag: found.tag,
            start: found.start,
            length: found.length,
            next,
        },
    }
}

// A step of a walk over the entries, from a place: code 0, 255 for the end, 1 or 17.
#[unsafe(no_mangle)]
pub extern "C" fn balsa_register_walk(reg: &[u8], place: usize) -> WalkReply
    ensures { result ≡ walk_reply (walked_of reg.now place) }
{
    walk_reply(register_walk::walk_at(reg, place), place)
}
