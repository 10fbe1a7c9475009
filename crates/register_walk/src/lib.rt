// Walking a register: each entry once, in the order of the contents, then the end.
#![tactic(auto)]

ghost use Rattle.std.specs.Prelude.{◌≡◌};
ghost use Rattle.register.specs.Answers.{code_of, body_at};
ghost use Rattle.register_walk.specs.Walk.{started_of, walked_out, walked_of};

use register::{Found, RegisterError};

// A step of a walk: the entry that it hands out, and the place of the next step.
#[derive(Clone, Copy, Debug, PartialEq, Eq)]
pub struct Step {
    pub found: Found,
    pub next: usize,
}

// Whether a walk can start. Refusals 1, 17.
#[tactic(auto, using(crate::proofs::Steps::invalid_start))]
pub fn start(register: &[u8]) -> Result<(), RegisterError>
    ensures { code_of result ≡ started_of register.now }
{
    register::ready(register)
}

// A step of a walk from a place counted from 0, in plain parameters; none past the last entry. Refusals 1, 17; these and the end leave the place as it was.
#[tactic(auto, using(crate::proofs::Steps::invalid_step))]
pub fn walk_at(register: &[u8], place: usize) -> Result<Option<Step>, RegisterError>
    ensures { walked_out place result ≡ walked_of register.now place }
{
    let found = register::entry(register, place)?;
    match found {
        Some(found) => Ok(Some(Step {
            found,
            next: place + 1,
        })),
        None => Ok(None),
    }
}

// The place of the next step, after one from a place was answered so.
fn next_place(walked: Result<Option<Step>, RegisterError>, place: usize) -> usize
    ensures { result ≡ (walked_out place walked).next }
{
    match walked {
        Ok(Some(step)) => step.next,
        Ok(None) => place,
        Err(_) => place,
    }
}

// internal: the place after a step from a place.
pub fn place_after(register: &[u8], place: usize) -> usize
    ensures { result ≡ (walked_of register.now place).next }
{
    next_place(walk_at(register, place), place)
}

// A walk that holds the register and the place of its next step. Any register may be held: `start` says whether it can be walked, and so does each step.
#[derive(Clone, Copy)]
pub struct RegisterReader<'a> {
    pub register: &'a [u8],
    pub next: usize,
}

// The reader at the first entry of a register.
pub fn reader<'a>(register: &'a [u8]) -> RegisterReader<'a>
    ensures { (result.register ≡ register.entry) × (result.next ≡ 0) }
{
    RegisterReader { register, next: 0 }
}

// The body of the entry that the next step hands out, a part of the register; empty where it hands out none.
pub fn body<'a>(r: RegisterReader<'a>) -> &'a [u8]
    ensures { result.now ≡ body_at r.entry.register.now r.entry.next }
{
    register::body(r.register, r.next)
}

// A step: the reader moves on past the entry that is handed out; the end and the refusals 1 and 17 leave it where it was.
pub fn next<'s, 'a>(r: &'s mut RegisterReader<'a>) -> Result<Option<Step>, RegisterError>
    ensures { (walked_out r.old.next result ≡ walked_of r.old.register.now r.old.next) × (r.new.register ≡ r.old.register) × (r.new.next ≡ (walked_of r.old.register.now r.old.next).next) }
{
    let walked = walk_at(r.register, r.next);
    r.next = next_place(walked, r.next);
    walked
}
