// The refusals of every call, with their codes.
#![tactic(auto)]

ghost use Rattle.std.specs.Prelude.{◌≡◌};
ghost use Rattle.refusal.specs.Code.{code_of};

// Why a call says no; the number of a case is its code.
#[derive(Clone, Copy)]
pub enum Refusal {
    Short = 1,
    LongText = 2,
    Grammar = 3,
    ManyAtoms = 4,
    ManyBonds = 5,
    DeepBranch = 6,
    SelfBridge = 7,
    RepeatedBond = 8,
    SymbolClash = 9,
    OpenBridge = 10,
    Unmatchable = 11,
    NotMatching = 12,
    Invalid = 13,
    ManyBridges = 14,
    DeepWriting = 15,
    LongWriting = 16,
    CrowdedEnd = 20,
    StrayMark = 21,
    LooseAtom = 22,
    UnfitMark = 23,
}

// The code of a refusal.
pub fn code(r: Refusal) -> u8
    ensures { result ≡ code_of r }
{
    r as u8
}
