// What the calls for matchings answer, and the code of each answer.
#![tactic(auto)]

ghost use Rattle.std.specs.Prelude.{◌≡◌};
ghost use Rattle.kekule_answers.specs.Answers.{found_of, found_code, is_given, call_of};

use matching::{Call, MatchingAnswer};
use refusal::Refusal;

// What a call for a matching answers where it refuses nothing.
#[derive(Clone, Copy)]
pub enum Handed {
    // The row is the matching asked for.
    Given,
    // None follows.
    Ended,
}

// The code of an answer: 0 for a matching, 255 for the end, else the refusal's.
pub fn found_code(found: Result<Handed, Refusal>) -> u8
    ensures { result ≡ found_code found }
{
    match found {
        Ok(Handed::Given) => 0,
        Ok(Handed::Ended) => 255,
        Err(refusal) => refusal::code(refusal),
    }
}

// internal: an answer of the search as an answer of a call.
pub fn found_of(a: MatchingAnswer) -> Result<Handed, Refusal>
    ensures { result ≡ found_of a }
{
    match a {
        MatchingAnswer::Given => Ok(Handed::Given),
        MatchingAnswer::Absent => Err(Refusal::Unmatchable),
        MatchingAnswer::Refused => Err(Refusal::NotMatching),
        MatchingAnswer::Ended => Ok(Handed::Ended),
    }
}

// internal: the call that a byte asks for: 0 the first matching, any other the next.
pub fn call_of(b: u8) -> Call
    ensures { result ≡ call_of b }
{
    if b == 0 { Call::First } else { Call::Next }
}

// internal: whether an answer is a matching.
pub fn is_given(found: Result<Handed, Refusal>) -> bool
    ensures { result ≡ is_given found }
{
    matches!(found, Ok(Handed::Given))
}
