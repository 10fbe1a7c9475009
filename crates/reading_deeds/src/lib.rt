// What a byte that the grammar takes does beside it.
#![tactic(auto)]

ghost use Rattle.std.specs.Prelude.{◌≡◌, true, ℕ, ◌≤◌, eqb};
ghost use Rattle.loops.specs.Loop.{pick};
ghost use Rattle.element.specs.Symbols.{among};
ghost use Rattle.element.specs.Lookup.{letter_of};
ghost use Rattle.reading_grammar.specs.Grammar.{nonzero, digits, bond_symbols};
ghost use Rattle.reading_grammar.specs.declared.Move.TheVariants.{Stop};
ghost use Rattle.reading_grammar.specs.declared.Mode.TheVariants.{Symbol1, Hydrogen, Sign, Extension};
ghost use Rattle.reading_grammar.specs.Machine.{next};
ghost use Rattle.reading_grammar.specs.Fold.{keeps};
ghost use Rattle.reading_state.specs.State.{closed};
ghost use Rattle.reading.specs.Memory.{Memory, moved};
ghost use Rattle.reading.specs.Bracket.{digit, elemented, symbolled, marked, hydrogened, charged};
ghost use Rattle.reading.specs.Act.{Acts, or_atom, atom_act, bridge_act, branch_act, joint_act, letter_act, close_act, charge_act, hydrogen_act, mark_act, isotope_act, mode_act};
ghost use Rattle.reading_deeds.specs.Deed.{Acted, Drafts, Does, Fitting, with_isotope, with_extension};
ghost use Rattle.reading_deeds.specs.declared.Deed.TheVariants.{Draft};

use element::{Letter, Symbol};
use reading_fields::bracket::charge_of;
use reading_fields::byte::value;
use reading_grammar::{Last, Mode};
use reading_machine::byte::{is_bond_symbol, is_digit, is_nonzero, is_several, is_sign};
use reading_state::Fields;

// Nothing; an atom begins; a second letter makes the hub's element; a bridge of a number, its digit or `%` so many bytes back; what stands before the next atom or bridge, by its number; a branch opens, closes; the first digit after `%`; other fields of the bracket; the bracket's row is complete.
#[derive(Clone, Copy)]
pub enum Deed {
    Keep,
    Atom(Letter),
    Second(u8),
    Bridge(usize, usize),
    // Stays: a number, as a paused reading keeps it in a cell for C; an enum would be told apart only to be that number again.
    Joint(u8),
    Open,
    Close,
    Tens(u8),
    Draft(Fields),
    Row,
}

// The number of a dot before the next atom.
pub const DOT: u8 = 7;

// ---- fields

// Another isotope.
fn with_isotope(f: Fields, isotope: u16) -> Deed
    ensures { result ≡ Draft (with_isotope f isotope) }
{
    Deed::Draft(Fields { isotope, ..f })
}

// Another element, and 1 for a selected letter.
fn with_element(f: Fields, element: u16, selected: u16) -> Deed
    ensures { result ≡ Draft (elemented element selected f) }
{
    Deed::Draft(Fields {
        element,
        selected,
        ..f
    })
}

// Another mark.
fn with_mark(f: Fields, mark: u16) -> Deed
    ensures { result ≡ Draft (marked mark f) }
{
    Deed::Draft(Fields { mark, ..f })
}

// Other hydrogens.
fn with_hydrogens(f: Fields, hydrogens: u16) -> Deed
    ensures { result ≡ Draft (hydrogened hydrogens f) }
{
    Deed::Draft(Fields { hydrogens, ..f })
}

// Another charge.
fn with_charge(f: Fields, charge: i32) -> Deed
    ensures { result ≡ Draft (charged charge f) }
{
    Deed::Draft(Fields { charge, ..f })
}

// Another extension.
fn with_extension(f: Fields, extension: u16) -> Deed
    ensures { result ≡ Draft (with_extension f extension) }
{
    Deed::Draft(Fields { extension, ..f })
}

// ---- in a bracket

// `]`, or a byte that only moves the machine.
fn closing(b: u8) -> Deed
    ensures { Acted (λ i. close_act b) result }
{
    if b == b']' {
        return Deed::Row;
    }
    Deed::Keep
}

// The charge's sign, or what follows it.
fn charging(b: u8, f: Fields) -> Deed
    ensures { Drafts f (charge_act b) result }
{
    if is_sign(b) {
        return with_charge(f, charge_of(b, 1));
    }
    closing(b)
}

// `H`, or what follows it.
fn hydrating(b: u8, f: Fields) -> Deed
    ensures { Drafts f (hydrogen_act b) result }
{
    if b == b'H' {
        return with_hydrogens(f, 1);
    }
    charging(b, f)
}

// `@`, with the mark that it makes, or what follows it.
fn marking(b: u8, f: Fields, mark: u16) -> Deed
    ensures { Drafts f (mark_act mark b) result }
{
    if b == b'@' {
        return with_mark(f, mark);
    }
    hydrating(b, f)
}

// The symbol's first byte.
fn naming(b: u8, f: Fields) -> Deed
    ensures { result ≡ Draft (symbolled b f) }
{
    match element::lookup(b, 0) {
        Symbol::Brief(e) => with_element(f, e as u16, 0),
        Symbol::Selected(e) => with_element(f, e as u16, 1),
        Symbol::Long(_) | Symbol::Half | Symbol::Nothing => with_element(f, 0, 0),
    }
}

// A digit of the isotope, or the symbol's first byte.
fn numbering(b: u8, f: Fields) -> Deed
    requires { f.isotope ≤ 999 }
    ensures { Drafts f (isotope_act b) result }
{
    if is_digit(b) {
        return with_isotope(f, 10 * f.isotope + value(b));
    }
    naming(b, f)
}

// The symbol's second byte, or what follows the symbol.
fn second(a: u8, b: u8, f: Fields) -> Deed
    ensures { Drafts f (mode_act (Symbol1 a) b 0) result }
{
    match element::lookup(a, b) {
        Symbol::Long(e) => with_element(f, e as u16, 0),
        Symbol::Brief(_) | Symbol::Selected(_) | Symbol::Half | Symbol::Nothing => {
            marking(b, f, 1)
        }
    }
}

// The number of hydrogens, or what follows it.
fn after_hydrogen(b: u8, f: Fields) -> Deed
    ensures { Drafts f (mode_act Hydrogen b 0) result }
{
    if is_several(b) {
        return with_hydrogens(f, value(b));
    }
    charging(b, f)
}

// The size of the charge, or what follows it.
fn after_sign(b: u8, f: Fields) -> Deed
    ensures { Drafts f (mode_act Sign b 0) result }
{
    if is_several(b) {
        if f.charge < 0 {
            return with_charge(f, charge_of(b'-', value(b)));
        }
        return with_charge(f, charge_of(b'+', value(b)));
    }
    closing(b)
}

// A digit of the extension, or `]`.
fn extending(b: u8, f: Fields) -> Deed
    requires { among b digits ≡ true → f.extension ≤ 999 }
    ensures { Drafts f (mode_act (Extension 0) b 0) result }
{
    if is_digit(b) {
        return with_extension(f, 10 * f.extension + value(b));
    }
    closing(b)
}

// ---- outside brackets

// What a bond symbol or a dot leaves before the next atom or bridge.
fn joint(b: u8) -> Deed
    ensures { Acted (λ i. joint_act b) result }
{
    if b == b'.' {
        return Deed::Joint(DOT);
    }
    Deed::Joint(kinds::symbol_kind(b).unwrap_or(0) + 1)
}

// The second letter of `Cl` or `Br`.
fn letter(x: Last) -> Deed
    ensures { Acted (λ i. letter_act x) result }
{
    match x {
        Last::Plain => Deed::Keep,
        Last::AfterC => Deed::Second(17),
        Last::AfterB => Deed::Second(35),
    }
}

// An atom, or else k.
fn or_atom(b: u8, k: Deed) -> Deed
    ensures { (a : ℕ → Memory → Acts) → Acted a k → Acted (λ i μ. or_atom (letter_of b) (atom_act b i μ) (a i μ)) result }
{
    let l = element::atom_start(b);
    match l {
        Letter::Nothing => k,
        Letter::Plain(_) | Letter::Selected(_) | Letter::Half | Letter::Bracket => Deed::Atom(l),
    }
}

// A bridge of one digit, or else k.
fn or_bridge(b: u8, k: Deed) -> Deed
    ensures { (a : ℕ → Memory → Acts) → Acted a k → Acted (λ i μ. pick (among b nonzero) (bridge_act (digit b) i μ) (a i μ)) result }
{
    if is_nonzero(b) {
        return Deed::Bridge(value(b) as usize, 0);
    }
    k
}

// What stands in a sequence beside atoms and bridges of one digit.
fn between(x: Last, b: u8) -> Deed
    ensures { Acted (λ i μ. pick (eqb b 37) (keeps μ) (pick (among b bond_symbols) (joint_act b μ) (pick (eqb b 46) (joint_act b μ) (pick (eqb b 40) (branch_act i μ) (pick (eqb b 41) (keeps (moved (closed μ.st) μ)) (letter_act x μ)))))) result }
{
    if b == b'%' {
        return Deed::Keep;
    }
    if is_bond_symbol(b) {
        return joint(b);
    }
    if b == b'.' {
        return joint(b);
    }
    if b == b'(' {
        return Deed::Open;
    }
    if b == b')' {
        return Deed::Close;
    }
    letter(x)
}

// internal: what a byte does in a mode, the first digit of a bridge's number and the bracket's fields so far being known.
pub fn deed_of(m: Mode, b: u8, tens: u8, f: Fields) -> Deed
    requires fact { next m b ≡ Stop → ⊥ }
    requires fitting { Fitting m tens f }
    ensures { Does m b tens f result }
{
    match m {
        Mode::Seq(x) => or_atom(b, or_bridge(b, between(x, b))),
        Mode::Bond => or_atom(b, or_bridge(b, Deed::Keep)),
        Mode::AtomNext => or_atom(b, Deed::Keep),
        Mode::Inside => or_atom(b, joint(b)),
        Mode::Percent => Deed::Tens(value(b) as u8),
        Mode::Percent1 => Deed::Bridge(10 * tens as usize + value(b) as usize, 2),
        Mode::LetterA => Deed::Second(85),
        Mode::LetterT => Deed::Second(117),
        Mode::Bracket | Mode::Isotope(_) => numbering(b, f),
        Mode::Symbol1(a) => second(a, b, f),
        Mode::Symbolled => marking(b, f, 1),
        Mode::At1 => marking(b, f, 2),
        Mode::At2 => hydrating(b, f),
        Mode::Hydrogen => after_hydrogen(b, f),
        Mode::Hydrogens => charging(b, f),
        Mode::Sign => after_sign(b, f),
        Mode::Charged => closing(b),
        Mode::Colon | Mode::Extension(_) => extending(b, f),
    }
}
