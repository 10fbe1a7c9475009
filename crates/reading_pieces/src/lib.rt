// Reading a text in pieces: what the caller keeps between two of them. The definitions and theorems are in specs/ and proofs/.
#![tactic(auto)]

use ids::{BRIDGES, MAX_ATOMS, MAX_DEPTH};
use reading_state::KEYS;

// A reading between two pieces, as numbers and arrays; every cell is 0 before the first byte, and once it was refused or has ended all but the first two are.
// Stays: numbers in place of kinds and options, and arrays side by side, since C lends this struct and sees its cells.
#[repr(C)]
#[derive(Clone, Copy)]
pub struct Paused {
    // 0 while the reading goes on, 24 once it has ended, else the code of the refusal that was told; and that refusal's offset.
    pub told: u8,
    pub place: u16,
    // How many bytes were read.
    pub read: u16,
    // Where the byte machine stands, by the number of its mode, and the first letter of a half-read symbol.
    pub mode: u8,
    pub letter: u8,
    // What stands before the next atom or bridge: 0 nothing, a symbol's kind and one, above those a dot.
    pub pending: u8,
    // The first digit after `%`.
    pub tens: u8,
    // The fields of the bracket so far.
    pub element: u16,
    pub selected: u16,
    pub isotope: u16,
    pub hydrogens: u16,
    pub charge: i32,
    pub extension: u16,
    pub mark: u16,
    // The hub, and how many atoms and bonds there are; without atoms there is no hub, and the cell is 0.
    pub hub: u16,
    pub atoms: u16,
    pub bonds: u16,
    // How many branches are open, and the hub of each.
    pub depth: u16,
    pub hubs: [u16; MAX_DEPTH],
    // Of each bridge number: the opening atom and one, or 0 where it is free; the kind of its opening's symbol, and the opening's offset.
    pub openers: [u16; BRIDGES],
    pub symbols: [u8; BRIDGES],
    pub offsets: [u16; BRIDGES],
    // 1 for each atom that stood outside brackets.
    pub outsides: [u8; MAX_ATOMS],
    // Two numbers for each bond: where a bridge's digits stood.
    pub keys: [u16; KEYS],
}
