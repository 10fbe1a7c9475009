// The spelling of an atom, outside brackets or in a bracket.
ghost use Rattle.std.specs.Prelude.{◌≡◌, ◌≤◌, ◌<◌, length, true};
ghost use Rattle.loops.specs.Loop.{pick};
ghost use Rattle.element.specs.declared.Letter.TheVariants.{Plain as Alone, Half, Bracket as Opening};
ghost use Rattle.element.specs.Lookup.{letter_of};
ghost use Rattle.reading.specs.Memory.{bare_row, row_of};
ghost use Rattle.reading_fields.specs.Field.{Peeked};
ghost use Rattle.reading_fields.specs.Spelled.{Spells};
ghost use Rattle.reading_fields.specs.declared.spelled.Unspelled.{Unspelled};

use crate::bracket::{Broken, bracket_at};
use crate::byte::peek;
use element::Letter;
use reading_state::Fields;
use table::Atom;

// An atom's row before its hydrogens are known, whether it stands outside brackets, and the offset after it.
#[derive(Clone, Copy)]
pub struct Spelled {
    pub row: Atom,
    pub outside: bool,
    pub at: usize,
}

// Why no atom was read: none begins there, or none goes on at an offset.
#[derive(Clone, Copy)]
pub enum Unspelled {
    Nothing,
    Broken(usize),
}

impl From<Broken> for Unspelled {
    ghost from_gives = { λ b e. e ≡ Unspelled.Broken b.at };

    fn from(b: Broken) -> Unspelled {
        Unspelled::Broken(b.at)
    }
}

// internal: the row of an atom outside brackets; selected is 1 for a selected letter, else 0.
// Stays: a number, as the cell is; a bool would ask more of a caller.
pub fn bare(e: u8, selected: u8) -> Atom
    ensures { result ≡ bare_row e selected }
{
    Atom {
        element: e as i32,
        selected: selected as i32,
        isotope: 0,
        hydrogens: 0,
        charge: 0,
        extension: 0,
        mark: 0,
    }
}

// internal: the row of the fields of a bracket.
pub fn row_of(f: Fields) -> Atom
    ensures { result ≡ row_of f }
{
    Atom {
        element: f.element as i32,
        selected: f.selected as i32,
        isotope: f.isotope as i32,
        hydrogens: f.hydrogens as i32,
        charge: f.charge,
        extension: f.extension as i32,
        mark: f.mark as i32,
    }
}

// An atom outside brackets, by its element and whether it is selected, and the offset after it.
fn lettered(e: u8, selected: bool, at: usize) -> Spelled
    ensures { result ≡ record { row = bare_row e (pick selected 1 0); outside = true; at = at } }
{
    let row = bare(e, u8::from(selected));
    Spelled {
        row,
        outside: true,
        at,
    }
}

// A letter by itself, or `Cl` or `Br`.
fn letter_at(s: &[u8], at: usize, b: u8, e: u8) -> Result<Spelled, Unspelled>
    requires at_in_bounds { at < length s.now }
    requires peeked { Peeked s.now at b }
    requires b_value { letter_of b ≡ Alone e }
    ensures { Spells s.now at result }
{
    let c = peek(s, at + 1);
    if (b == b'C') & (c == b'l') {
        return Ok(lettered(17, false, at + 2));
    }
    if (b == b'B') & (c == b'r') {
        return Ok(lettered(35, false, at + 2));
    }
    Ok(lettered(e, false, at + 1))
}

// `At` or `Ts`.
fn half_at(s: &[u8], at: usize, b: u8) -> Result<Spelled, Unspelled>
    requires at_in_bounds { at < length s.now }
    requires peeked { Peeked s.now at b }
    requires b_value { letter_of b ≡ Half }
    ensures { Spells s.now at result }
{
    let c = peek(s, at + 1);
    if b == b'A' {
        if c == b't' {
            return Ok(lettered(85, false, at + 2));
        }
        return Err(Unspelled::Broken(at + 1));
    }
    if c == b's' {
        return Ok(lettered(117, false, at + 2));
    }
    Err(Unspelled::Broken(at + 1))
}

// An atom in brackets.
fn boxed_at(s: &[u8], at: usize, b: u8) -> Result<Spelled, Unspelled>
    requires at_in_bounds { at < length s.now }
    requires peeked { Peeked s.now at b }
    requires b_value { letter_of b ≡ Opening }
    ensures { Spells s.now at result }
{
    let bracket = bracket_at(s, at + 1)?;
    Ok(Spelled {
        row: row_of(bracket.value),
        outside: false,
        at: bracket.at,
    })
}

// The atom at an offset, by its first byte.
fn by_letter(s: &[u8], at: usize, b: u8) -> Result<Spelled, Unspelled>
    requires at_in_bounds { at ≤ length s.now }
    requires peeked { Peeked s.now at b }
    ensures { Spells s.now at result }
{
    if b == 0 {
        return Err(Unspelled::Nothing);
    }
    match element::atom_start(b) {
        Letter::Plain(e) => letter_at(s, at, b, e),
        Letter::Selected(e) => Ok(lettered(e, true, at + 1)),
        Letter::Half => half_at(s, at, b),
        Letter::Bracket => boxed_at(s, at, b),
        Letter::Nothing => Err(Unspelled::Nothing),
    }
}

// internal: the atom at an offset; the common letters are asked for first.
pub fn read_spelling(s: &[u8], at: usize) -> Result<Spelled, Unspelled>
    requires { at ≤ length s.now }
    ensures { Spells s.now at result }
{
    let b = peek(s, at);
    if b == b'c' {
        return Ok(lettered(6, true, at + 1));
    }
    if b == b'C' {
        return letter_at(s, at, b, 6);
    }
    if b == b'O' {
        return letter_at(s, at, b, 8);
    }
    if b == b'N' {
        return letter_at(s, at, b, 7);
    }
    if b == b'n' {
        return Ok(lettered(7, true, at + 1));
    }
    by_letter(s, at, b)
}
