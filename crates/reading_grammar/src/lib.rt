// The grammar of texts: the types of the byte machine. Its definitions and theorems are in specs/ and proofs/.
#![tactic(auto)]

// The byte with which the atom just read may go on: l after C, r after B.
#[derive(Clone, Copy)]
pub enum Last {
    Plain,
    AfterC,
    AfterB,
}

// Where in a text the machine stands: AtomNext after a dot, and after a symbol that opens a branch, where an atom must follow.
#[derive(Clone, Copy)]
pub enum Mode {
    Seq(Last),
    Bond,
    AtomNext,
    Inside,
    Percent,
    Percent1,
    LetterA,
    LetterT,
    Bracket,
    Isotope(u8),
    Symbol1(u8),
    Symbolled,
    At1,
    At2,
    Hydrogen,
    Hydrogens,
    Sign,
    Charged,
    Colon,
    Extension(u8),
}

// What a byte does: no text goes on with it, a mode follows, a branch opens, a branch closes.
#[derive(Clone, Copy)]
pub enum Move {
    Stop,
    To(Mode),
    Up,
    Down,
}

// The machine: no text begins so, nothing read yet, or a mode with the number of open branches.
#[derive(Clone, Copy)]
pub enum MachineState {
    Dead,
    Start,
    At(Mode, u32),
}
