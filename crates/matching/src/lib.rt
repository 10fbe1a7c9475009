// Matchings of the delocalized atoms: what the two calls answer. Their definitions and laws stand in specs/ and proofs/.
#![tactic(auto)]

// Given: the row is a matching; Absent: there is none (code 11); Refused: the row handed in is no matching (code 12); Ended: none follows.
#[derive(Clone, Copy)]
pub enum MatchingAnswer {
    Given,
    Absent,
    Refused,
    Ended,
}

// The two calls that hand out matchings.
#[derive(Clone, Copy)]
pub enum Call {
    First,
    Next,
}

// The ends of the bonds, by number: the first of each, and the second.
#[derive(Clone, Copy)]
pub struct EndTables<'a> {
    pub first: &'a [u16],
    pub second: &'a [u16],
}

// The bonds as a search meets them: their ends, and 1 for each that can be chosen.
#[derive(Clone, Copy)]
pub struct Links<'a> {
    pub ends: EndTables<'a>,
    pub elided: &'a [u8],
}
