// What reading answers: the counts of a molecule, or a refusal with its offset.
use refusal::Refusal;

// The counts of a molecule: of its atoms, of its bonds and of its over-full atoms.
#[derive(Clone, Copy)]
pub struct Counts {
    pub atoms: usize,
    pub bonds: usize,
    pub overfull: usize,
}

// A refusal of a text, with its offset.
#[derive(Clone, Copy)]
pub struct TextRefusal {
    pub refusal: Refusal,
    pub at: usize,
}
