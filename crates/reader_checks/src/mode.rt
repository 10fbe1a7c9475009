// The modes of the byte machine by their numbers.
ghost use Rattle.std.specs.Prelude.{◌≡◌};
ghost use Rattle.reading_grammar.specs.declared.Mode.TheVariants.{Seq};
ghost use Rattle.reading_pieces.specs.State.{isotope_mode, extension_mode, mode_of, mode_number, mode_letter};

use reading_grammar::{Last, Mode};

// A half-read isotope: how many digits may follow.
fn isotope_mode(i: u16) -> Mode
    ensures { result ≡ isotope_mode i }
{
    if i == 0 {
        return Mode::Bracket;
    }
    if i <= 9 {
        return Mode::Isotope(2);
    }
    if i <= 99 {
        return Mode::Isotope(1);
    }
    Mode::Isotope(0)
}

// The same of an extension.
fn extension_mode(e: u16) -> Mode
    ensures { result ≡ extension_mode e }
{
    if e == 0 {
        return Mode::Colon;
    }
    if e <= 9 {
        return Mode::Extension(3);
    }
    if e <= 99 {
        return Mode::Extension(2);
    }
    if e <= 999 {
        return Mode::Extension(1);
    }
    Mode::Extension(0)
}

// internal: the mode of a number, with the first letter of a symbol, the isotope and the extension so far.
// Stays: a number alone does not tell the mode, and `Mode` is of another crate, so that `From` has no place here.
pub fn mode_of(m: u8, letter: u8, isotope: u16, extension: u16) -> Mode
    ensures { result ≡ mode_of m letter isotope extension }
{
    match m {
        0 => Mode::AtomNext,
        1 => Mode::Seq(Last::Plain),
        2 => Mode::Seq(Last::AfterC),
        3 => Mode::Seq(Last::AfterB),
        4 => Mode::Bond,
        5 => Mode::Inside,
        6 => Mode::Percent,
        7 => Mode::Percent1,
        8 => Mode::LetterA,
        9 => Mode::LetterT,
        10 => isotope_mode(isotope),
        11 => Mode::Symbol1(letter),
        12 => Mode::Symbolled,
        13 => Mode::At1,
        14 => Mode::At2,
        15 => Mode::Hydrogen,
        16 => Mode::Hydrogens,
        17 => Mode::Sign,
        18 => Mode::Charged,
        _ => extension_mode(extension),
    }
}

// The number of a mode between the atoms of a sequence.
fn last_number(x: Last) -> u8
    ensures { result ≡ mode_number (Seq x) }
{
    match x {
        Last::Plain => 1,
        Last::AfterC => 2,
        Last::AfterB => 3,
    }
}

// internal: the number of a mode.
pub fn mode_number(m: Mode) -> u8
    ensures { result ≡ mode_number m }
{
    match m {
        Mode::Seq(x) => last_number(x),
        Mode::Bond => 4,
        Mode::AtomNext => 0,
        Mode::Inside => 5,
        Mode::Percent => 6,
        Mode::Percent1 => 7,
        Mode::LetterA => 8,
        Mode::LetterT => 9,
        Mode::Bracket => 10,
        Mode::Isotope(_) => 10,
        Mode::Symbol1(_) => 11,
        Mode::Symbolled => 12,
        Mode::At1 => 13,
        Mode::At2 => 14,
        Mode::Hydrogen => 15,
        Mode::Hydrogens => 16,
        Mode::Sign => 17,
        Mode::Charged => 18,
        Mode::Colon => 19,
        Mode::Extension(_) => 19,
    }
}

// internal: the first letter of a half-read symbol.
pub fn mode_letter(m: Mode) -> u8
    ensures { result ≡ mode_letter m }
{
    let Mode::Symbol1(a) = m else {
        return 0;
    };
    a
}
