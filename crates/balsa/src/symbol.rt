// The symbol of a bracket, for C and Rust.
ghost use Rattle.std.specs.Prelude.{◌≡◌};
ghost use Rattle.element.specs.Lookup.{symbol_of};
ghost use Rattle.balsa.specs.Symbol.{symbol_found, no_symbol, symbol_reply};

use element::Symbol;

// Code 0 with the number of bytes, the atomic number and 1 for a selected letter; or 3 with the place of the byte that no symbol goes on with.
#[repr(C)]
#[derive(Clone, Copy)]
pub struct SymbolReply {
    pub code: u32,
    pub place: usize,
    pub length: usize,
    pub element: u32,
    pub selected: u32,
}

// A symbol of a number of bytes.
fn found(length: usize, element: u8, selected: u32) -> SymbolReply
    ensures { result ≡ symbol_found length element selected }
{
    SymbolReply {
        code: 0,
        place: 0,
        length: length,
        element: element as u32,
        selected: selected,
    }
}

// No symbol: 3 at a place.
fn none(place: usize) -> SymbolReply
    ensures { result ≡ no_symbol place }
{
    SymbolReply {
        code: 3,
        place: place,
        length: 0,
        element: 0,
        selected: 0,
    }
}

// The symbol at two bytes in brackets; second is 0 where first is the last byte.
#[unsafe(no_mangle)]
pub extern "C" fn balsa_symbol(first: u8, second: u8) -> SymbolReply
    ensures { result ≡ symbol_reply (symbol_of first second) }
{
    let s = element::lookup(first, second);
    match s {
        Symbol::Long(e) => found(2, e, 0),
        Symbol::Brief(e) => found(1, e, 0),
        Symbol::Selected(e) => found(1, e, 1),
        Symbol::Half => none(1),
        Symbol::Nothing => none(0),
    }
}
