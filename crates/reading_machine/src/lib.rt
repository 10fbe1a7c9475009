// The byte machine of the grammar in code: what follows a byte in a mode.
#![tactic(auto)]

ghost use Rattle.std.specs.Prelude.{◌≡◌, eqb};
ghost use Rattle.loops.specs.Loop.{pick};
ghost use Rattle.reading_grammar.specs.Machine.{last_of, goes_on, atom_or, bridge_or, closing, extending, charging, hydrating, marking, symbol_or, next};
ghost use Rattle.reading_grammar.specs.declared.Mode.TheVariants.{Seq, LetterA, LetterT, Symbol1, Isotope, Extension};
ghost use Rattle.reading_grammar.specs.declared.Move.TheVariants.{Stop, To};

use crate::byte::{is_bond_symbol, is_digit, is_nonzero, is_several, is_sign};
use element::{Letter, Symbol};
use reading_grammar::{Last, Mode, Move};

pub mod byte;

// The byte with which the letter b may go on.
fn last_of(b: u8) -> Last
    ensures { result ≡ last_of b }
{
    if b == b'C' {
        return Last::AfterC;
    }
    if b == b'B' {
        return Last::AfterB;
    }
    Last::Plain
}

// A mode where the test holds, else k.
fn to_or(test: bool, m: Mode, k: Move) -> Move
    ensures { result ≡ pick test (To m) k }
{
    if test {
        return Move::To(m);
    }
    k
}

// The second letter of `Cl` or `Br`.
fn goes_on(x: Last, b: u8) -> Move
    ensures { result ≡ goes_on x b }
{
    match x {
        Last::Plain => Move::Stop,
        Last::AfterC => to_or(b == b'l', Mode::Seq(Last::Plain), Move::Stop),
        Last::AfterB => to_or(b == b'r', Mode::Seq(Last::Plain), Move::Stop),
    }
}

// `A` or `T`, with which `At` and `Ts` begin.
fn half(b: u8) -> Move
    ensures { result ≡ pick (eqb b 65) (To LetterA) (To LetterT) }
{
    if b == b'A' {
        return Move::To(Mode::LetterA);
    }
    Move::To(Mode::LetterT)
}

// An atom's first byte, or else k.
fn atom_or(b: u8, k: Move) -> Move
    ensures { result ≡ atom_or b k }
{
    match element::atom_start(b) {
        Letter::Plain(_) => Move::To(Mode::Seq(last_of(b))),
        Letter::Selected(_) => Move::To(Mode::Seq(Last::Plain)),
        Letter::Half => half(b),
        Letter::Bracket => Move::To(Mode::Bracket),
        Letter::Nothing => k,
    }
}

// A bridge's first byte, or else k.
#[tactic(auto, unfolding(reading_grammar::specs::Machine::bridge_or))]
fn bridge_or(b: u8, k: Move) -> Move
    ensures { result ≡ bridge_or b k }
{
    if is_nonzero(b) {
        return Move::To(Mode::Seq(Last::Plain));
    }
    if b == b'%' {
        return Move::To(Mode::Percent);
    }
    k
}

// `]`.
#[tactic(auto, unfolding(reading_grammar::specs::Machine::closing))]
fn closing(b: u8) -> Move
    ensures { result ≡ closing b }
{
    to_or(b == b']', Mode::Seq(Last::Plain), Move::Stop)
}

// The extension, or what follows it.
#[tactic(auto, unfolding(reading_grammar::specs::Machine::extending))]
fn extending(b: u8) -> Move
    ensures { result ≡ extending b }
{
    to_or(b == b':', Mode::Colon, closing(b))
}

// The charge, or what follows it.
#[tactic(auto, unfolding(reading_grammar::specs::Machine::charging))]
fn charging(b: u8) -> Move
    ensures { result ≡ charging b }
{
    to_or(is_sign(b), Mode::Sign, extending(b))
}

// The hydrogens, or what follows them.
#[tactic(auto, unfolding(reading_grammar::specs::Machine::hydrating))]
fn hydrating(b: u8) -> Move
    ensures { result ≡ hydrating b }
{
    to_or(b == b'H', Mode::Hydrogen, charging(b))
}

// The tetrahedral mark, or what follows it.
#[tactic(auto, unfolding(reading_grammar::specs::Machine::marking))]
fn marking(b: u8) -> Move
    ensures { result ≡ marking b }
{
    to_or(b == b'@', Mode::At1, hydrating(b))
}

// A symbol's first byte, or else k.
fn symbol_or(b: u8, k: Move) -> Move
    ensures { result ≡ symbol_or b k }
{
    match element::lookup(b, 0) {
        Symbol::Brief(_) => to_or(b == b'*', Mode::Symbolled, Move::To(Mode::Symbol1(b))),
        Symbol::Long(_) | Symbol::Half => Move::To(Mode::Symbol1(b)),
        Symbol::Selected(_) => Move::To(Mode::Symbolled),
        Symbol::Nothing => k,
    }
}

// After a symbol's first byte a.
fn second(a: u8, b: u8) -> Move
    ensures { result ≡ next (Symbol1 a) b }
{
    match element::lookup(a, b) {
        Symbol::Long(_) => Move::To(Mode::Symbolled),
        Symbol::Brief(_) if a == b'*' => Move::Stop,
        Symbol::Brief(_) => marking(b),
        Symbol::Selected(_) | Symbol::Half | Symbol::Nothing => Move::Stop,
    }
}

// Where neither an atom nor a bridge begins in a sequence: a symbol, a dot, a branch, or the second letter that x allows.
fn between(x: Last, b: u8) -> Move
    ensures { next (Seq x) b ≡ atom_or b (bridge_or b result) }
{
    if is_bond_symbol(b) {
        return Move::To(Mode::Bond);
    }
    if b == b'.' {
        return Move::To(Mode::AtomNext);
    }
    if b == b'(' {
        return Move::Up;
    }
    if b == b')' {
        return Move::Down;
    }
    goes_on(x, b)
}

// After an isotope's digit, where k more may follow.
#[tactic(auto, unfolding(reading_grammar::specs::Machine::next))]
fn isotope(k: u8, b: u8) -> Move
    ensures { result ≡ next (Isotope k) b }
{
    if k == 0 {
        return symbol_or(b, Move::Stop);
    }
    symbol_or(b, to_or(is_digit(b), Mode::Isotope(k - 1), Move::Stop))
}

// After an extension's digit, where k more may follow.
#[tactic(auto, unfolding(reading_grammar::specs::Machine::next))]
fn extension(k: u8, b: u8) -> Move
    ensures { result ≡ next (Extension k) b }
{
    if k == 0 {
        return closing(b);
    }
    to_or(is_digit(b), Mode::Extension(k - 1), closing(b))
}

// internal: what follows a byte in a mode.
#[tactic(auto, unfolding(reading_grammar::specs::Machine::next))]
pub fn next(m: Mode, b: u8) -> Move
    ensures { result ≡ next m b }
{
    match m {
        Mode::Seq(x) => atom_or(b, bridge_or(b, between(x, b))),
        Mode::Bond => atom_or(b, bridge_or(b, Move::Stop)),
        Mode::AtomNext => atom_or(b, Move::Stop),
        Mode::Inside => atom_or(
            b,
            to_or(
                is_bond_symbol(b),
                Mode::AtomNext,
                to_or(b == b'.', Mode::AtomNext, Move::Stop),
            ),
        ),
        Mode::Percent => to_or(is_nonzero(b), Mode::Percent1, Move::Stop),
        Mode::Percent1 => to_or(is_digit(b), Mode::Seq(Last::Plain), Move::Stop),
        Mode::LetterA => to_or(b == b't', Mode::Seq(Last::Plain), Move::Stop),
        Mode::LetterT => to_or(b == b's', Mode::Seq(Last::Plain), Move::Stop),
        Mode::Bracket => symbol_or(b, to_or(is_nonzero(b), Mode::Isotope(2), Move::Stop)),
        Mode::Isotope(k) => isotope(k, b),
        Mode::Symbol1(a) => second(a, b),
        Mode::Symbolled => marking(b),
        Mode::At1 => to_or(b == b'@', Mode::At2, hydrating(b)),
        Mode::At2 => hydrating(b),
        Mode::Hydrogen => to_or(is_several(b), Mode::Hydrogens, charging(b)),
        Mode::Hydrogens => charging(b),
        Mode::Sign => to_or(is_several(b), Mode::Charged, extending(b)),
        Mode::Charged => extending(b),
        Mode::Colon => to_or(is_nonzero(b), Mode::Extension(3), Move::Stop),
        Mode::Extension(k) => extension(k, b),
    }
}
