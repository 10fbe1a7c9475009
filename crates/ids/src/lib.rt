// The numbers of atoms and bonds, and the limits of molecules and texts.
#![tactic(auto)]

// The number of an atom: atoms count from 0 as they begin in a text.
#[derive(Clone, Copy)]
pub struct AtomId(pub usize);

// The number of a bond: bonds count from 0 as they are completed in a text.
#[derive(Clone, Copy)]
pub struct BondId(pub usize);

// The most atoms of a molecule.
pub const MAX_ATOMS: usize = 1000;

// The most bonds of a molecule.
pub const MAX_BONDS: usize = 1100;

// The most bytes of a text read or written.
pub const MAX_TEXT: usize = 16384;

// The most branches that are open inside one another.
pub const MAX_DEPTH: usize = 64;

// The size of the arrays that suffice for a small molecule: an array is cleared where it is made.
pub const SMALL: usize = 64;

// Bridge numbers are 1 to 99; each is below this.
pub const BRIDGES: usize = 100;
