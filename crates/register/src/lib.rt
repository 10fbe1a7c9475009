// A register of entries, each a tag and a body, in bytes that the caller lends; adding survives a power cut.
#![tactic(auto)]

ghost use Rattle.std.specs.Prelude.{◌≡◌, OnOk};
ghost use Rattle.register.specs.Answers.{error_code, code_of, out, emptied_of, stepped_of, added_of, found_out, found_of, body_at, ready_of, Ready, room_of, Room};

use contents::SIZE;

pub mod contents;
mod store;

// Why a call refuses; a refusal leaves the register as it was.
#[derive(Clone, Copy, Debug, PartialEq, Eq)]
pub enum RegisterError {
    // Under 32,768 bytes.
    Short,
    // The layout breaks a rule.
    Invalid,
    // No room for the body.
    Full,
}

// The code of a refusal: 1, 17 or 18.
impl From<RegisterError> for u32 {
    ghost from_gives = { λ e c. c ≡ error_code e };

    fn from(e: RegisterError) -> u32 {
        match e {
            RegisterError::Short => 1,
            RegisterError::Invalid => 17,
            RegisterError::Full => 18,
        }
    }
}

// The code of an answer: 0, or that of the refusal.
pub fn code(answer: Result<(), RegisterError>) -> u32
    ensures { result ≡ code_of answer }
{
    match answer {
        Ok(()) => 0,
        Err(e) => u32::from(e),
    }
}

// An entry that was found: its tag, and where its body stands in the register.
#[derive(Clone, Copy, Debug, PartialEq, Eq)]
pub struct Found {
    pub tag: u16,
    pub start: usize,
    pub length: usize,
}

// internal: the register has its full length and a layout that keeps the rules. Refusals 1, 17.
pub fn ready(register: &[u8]) -> Result<(), RegisterError>
    ensures value { result ≡ ready_of register.now }
    ensures ok { OnOk result (Ready register.now) }
{
    if register.len() < SIZE {
        return Err(RegisterError::Short);
    }
    if !contents::valid(register) {
        return Err(RegisterError::Invalid);
    }
    Ok(())
}

// The same, with room for a body of m bytes. Refusals 1, 17, 18.
fn with_room(register: &[u8], m: usize) -> Result<(), RegisterError>
    ensures value { result ≡ room_of register.now m }
    ensures ok { OnOk result (Room register.now m) }
{
    ready(register)?;
    if !contents::fits(register, m) {
        return Err(RegisterError::Full);
    }
    Ok(())
}

// Empties a register of full length, whatever stands in it: bytes 0 and 1 are stored, no more. Refusal 1.
pub fn empty(register: &mut [u8]) -> Result<(), RegisterError>
    ensures { out result register.new ≡ emptied_of register.old }
{
    if register.len() < SIZE {
        return Err(RegisterError::Short);
    }
    register[1] = 0;
    register[0] = 1;
    Ok(())
}

// Step k of adding, for k = 0, 1, .. in order: stores at most one byte, byte 1 with the last. Past the last step nothing changes. Refusals 1, 17, 18.
pub fn step(register: &mut [u8], tag: u16, body: &[u8], k: usize) -> Result<(), RegisterError>
    ensures { out result register.new ≡ stepped_of register.old tag body.now k }
{
    with_room(register, body.len())?;
    let n = contents::count(register);
    let e = contents::end_before(register, n);
    store::store(register, n, e, tag, body, k);
    Ok(())
}

// Adds an entry: every step, in order. Refusals 1, 17, 18.
pub fn add(register: &mut [u8], tag: u16, body: &[u8]) -> Result<(), RegisterError>
    ensures { out result register.new ≡ added_of register.old tag body.now }
{
    with_room(register, body.len())?;
    store::store_all(register, tag, body);
    Ok(())
}

// The entry at a place counted from 0; none where the place is past the last. Refusals 1, 17.
pub fn entry(register: &[u8], place: usize) -> Result<Option<Found>, RegisterError>
    ensures { found_out result ≡ found_of register.now place }
{
    ready(register)?;
    if contents::count(register) <= place {
        return Ok(None);
    }
    let tag = contents::tag(register, place);
    let start = contents::start(register, place);
    let length = contents::length(register, place);
    Ok(Some(Found { tag, start, length }))
}

// The body of the entry at a place, a part of the register; empty where there is no entry or `entry` refuses.
pub fn body(register: &[u8], place: usize) -> &[u8]
    ensures { result.now ≡ body_at register.now place }
{
    match entry(register, place) {
        Ok(Some(_)) => contents::body(register, place),
        Ok(None) => &[],
        Err(_) => &[],
    }
}
