// The fields of a bracket, in their order, and the bracket.
ghost use Rattle.std.specs.Prelude.{◌≡◌, ◌≤◌, ◌<◌, length, eqb, Err};
ghost use Rattle.std.proofs.Common.{SFits};
ghost use Rattle.std.specs.Int.{w32};
ghost use Rattle.reading.specs.Bracket.{signed};
ghost use Rattle.reading_fields.specs.Field.{Isotoped, Symbolled, Marked, Hydrogened, Charged, Extended, Bracketed, end_of};

use crate::byte::{Read, more, peek, value};
use element::Symbol;
use reading_machine::byte::{is_digit, is_nonzero, is_several, is_sign};
use reading_state::Fields;

// A bracket's symbol: the element, and whether it is a selected letter.
#[derive(Clone, Copy)]
pub struct Name {
    pub element: u8,
    pub selected: bool,
}

// The offset at which no bracket goes on.
#[derive(Clone, Copy)]
pub struct Broken {
    pub at: usize,
}

// internal: the isotope: 1 to 999.
pub fn isotope_at(s: &[u8], at: usize) -> Result<Read<u16>, Broken>
    requires { at ≤ length s.now }
    ensures { Isotoped s.now at result }
{
    let b = peek(s, at);
    if !is_digit(b) {
        return Ok(Read { value: 0, at });
    }
    if b == b'0' {
        return Err(Broken { at });
    }
    let one = Read {
        value: value(b),
        at: at + 1,
    };
    let two = more(s, one);
    Ok(more(s, two))
}

// A symbol, by its element and whether it is a selected letter, and the offset after it.
fn named(element: u8, selected: bool, at: usize) -> Read<Name>
    ensures { result ≡ record { value = record { element = element; selected = selected }; at = at } }
{
    let value = Name { element, selected };
    Read { value, at }
}

// internal: the symbol: an element, `*` or a selected letter.
pub fn symbol_at(s: &[u8], at: usize) -> Result<Read<Name>, Broken>
    requires { at ≤ length s.now }
    ensures { Symbolled s.now at result }
{
    let a = peek(s, at);
    if a == 0 {
        return Err(Broken { at });
    }
    match element::lookup(a, peek(s, at + 1)) {
        Symbol::Long(e) => Ok(named(e, false, at + 2)),
        Symbol::Brief(e) => Ok(named(e, false, at + 1)),
        Symbol::Selected(e) => Ok(named(e, true, at + 1)),
        Symbol::Half => Err(Broken { at: at + 1 }),
        Symbol::Nothing => Err(Broken { at }),
    }
}

// internal: the mark: `@` is 1, `@@` is 2, and 0 where there is none.
pub fn mark_at(s: &[u8], at: usize) -> Read<u16>
    requires { at ≤ length s.now }
    ensures { Marked s.now at result }
{
    if peek(s, at) != 64 {
        return Read { value: 0, at };
    }
    if peek(s, at + 1) != 64 {
        return Read {
            value: 1,
            at: at + 1,
        };
    }
    Read {
        value: 2,
        at: at + 2,
    }
}

// internal: the hydrogens: `H` is 1, `H2` to `H9`.
pub fn hydrogens_at(s: &[u8], at: usize) -> Result<Read<u16>, Broken>
    requires { at ≤ length s.now }
    ensures { Hydrogened s.now at result }
{
    if peek(s, at) != 72 {
        return Ok(Read { value: 0, at });
    }
    let d = peek(s, at + 1);
    if is_several(d) {
        return Ok(Read {
            value: value(d),
            at: at + 2,
        });
    }
    if is_digit(d) {
        return Err(Broken { at: at + 1 });
    }
    Ok(Read {
        value: 1,
        at: at + 1,
    })
}

// internal: the charge of a sign and a size.
pub fn charge_of(b: u8, n: u16) -> i32
    requires { (0 < n) × (n < 10) }
    ensures value { result ≡ signed (eqb b 43) n }
    ensures sfits { SFits w32 result }
{
    let size = n as i32;
    if b == b'+' {
        return size;
    }
    0 - size
}

// internal: the charge: `+` or `-`, then optionally 2 to 9.
pub fn charge_at(s: &[u8], at: usize) -> Result<Read<i32>, Broken>
    requires { at ≤ length s.now }
    ensures { Charged s.now at result }
{
    let b = peek(s, at);
    if !is_sign(b) {
        return Ok(Read { value: 0, at });
    }
    let d = peek(s, at + 1);
    if is_several(d) {
        return Ok(Read {
            value: charge_of(b, value(d)),
            at: at + 2,
        });
    }
    if is_digit(d) {
        return Err(Broken { at: at + 1 });
    }
    Ok(Read {
        value: charge_of(b, 1),
        at: at + 1,
    })
}

// internal: the extension: `:` and 1 to 9999.
pub fn extension_at(s: &[u8], at: usize) -> Result<Read<u16>, Broken>
    requires { at ≤ length s.now }
    ensures { Extended s.now at result }
{
    if peek(s, at) != 58 {
        return Ok(Read { value: 0, at });
    }
    let b = peek(s, at + 1);
    if !is_nonzero(b) {
        return Err(Broken { at: at + 1 });
    }
    let one = Read {
        value: value(b),
        at: at + 2,
    };
    let two = more(s, one);
    let three = more(s, two);
    Ok(more(s, three))
}

// What broke a field off, as the answer of the bracket.
fn refused<T: Copy>(read: Result<Read<T>, Broken>) -> Result<Read<Fields>, Broken>
    ensures { result ≡ Err (record { at = end_of read }) }
{
    match read {
        Ok(read) => Err(Broken { at: read.at }),
        Err(end) => Err(end),
    }
}

// internal: a bracket whose `[` stands before the offset.
// Stays: each field's answer is taken apart by `let .. else`, the form that the paper names for this place; `?` would say the same.
pub fn bracket_at(s: &[u8], at: usize) -> Result<Read<Fields>, Broken>
    requires { at ≤ length s.now }
    ensures { Bracketed s.now at result }
{
    let i = isotope_at(s, at);
    let Ok(isotope) = i else {
        return refused(i);
    };
    let y = symbol_at(s, isotope.at);
    let Ok(name) = y else {
        return refused(y);
    };
    let mark = mark_at(s, name.at);
    let h = hydrogens_at(s, mark.at);
    let Ok(hydrogens) = h else {
        return refused(h);
    };
    let c = charge_at(s, hydrogens.at);
    let Ok(charge) = c else {
        return refused(c);
    };
    let x = extension_at(s, charge.at);
    let Ok(extension) = x else {
        return refused(x);
    };
    if peek(s, extension.at) != b']' {
        return Err(Broken { at: extension.at });
    }
    let value = Fields {
        element: name.value.element as u16,
        selected: name.value.selected as u16,
        isotope: isotope.value,
        hydrogens: hydrogens.value,
        charge: charge.value,
        extension: extension.value,
        mark: mark.value,
    };
    Ok(Read {
        value,
        at: extension.at + 1,
    })
}
