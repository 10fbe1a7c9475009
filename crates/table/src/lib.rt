// Atom and bond tables of signed cells: the only crate that knows cells, signs and row widths.
#![tactic(auto)]

pub mod cell;
pub mod row;

// The limits of a molecule.
pub use ids::{MAX_ATOMS, MAX_BONDS};

// The cells of an atom row and of a bond row.
pub const ATOM_CELLS: usize = 7;

pub const BOND_CELLS: usize = 3;

// The fields of an atom row, by their place in it.
pub const ELEMENT: usize = 0;

pub const SELECTED: usize = 1;

pub const ISOTOPE: usize = 2;

pub const HYDROGENS: usize = 3;

pub const CHARGE: usize = 4;

pub const EXTENSION: usize = 5;

pub const MARK: usize = 6;

// The fields of a bond row, by their place in it.
pub const FIRST: usize = 0;

pub const SECOND: usize = 1;

pub const KIND: usize = 2;

// An atom row.
#[derive(Clone, Copy)]
pub struct Atom {
    pub element: i32,
    pub selected: i32,
    pub isotope: i32,
    pub hydrogens: i32,
    pub charge: i32,
    pub extension: i32,
    pub mark: i32,
}

// A bond row.
#[derive(Clone, Copy)]
pub struct Bond {
    pub first: i32,
    pub second: i32,
    pub kind: i32,
}

// The two tables of a molecule, of which the first n atom rows and the first m bond rows count.
#[derive(Clone, Copy)]
pub struct Tables<'a> {
    pub atoms: &'a [i32],
    pub bonds: &'a [i32],
    pub n: usize,
    pub m: usize,
}
