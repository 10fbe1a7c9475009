// Single bytes of a text, by the lists of the grammar.
#![tactic(auto, unfolding(element::specs::Symbols::among, reading_grammar::specs::Grammar::nonzero, reading_grammar::specs::Grammar::digits, reading_grammar::specs::Grammar::several, reading_grammar::specs::Grammar::signs, reading_grammar::specs::Grammar::bond_symbols))]

ghost use Rattle.std.specs.Prelude.{◌≡◌};
ghost use Rattle.element.specs.Symbols.{among, starts, symbols};
ghost use Rattle.reading_grammar.specs.Grammar.{nonzero, digits, several, signs, bond_symbols};

// internal: `0` to `9`.
pub fn is_digit(b: u8) -> bool
    ensures { result ≡ among b digits }
{
    matches!(b, b'0'..=b'9')
}

// internal: `1` to `9`.
pub fn is_nonzero(b: u8) -> bool
    ensures { result ≡ among b nonzero }
{
    matches!(b, b'1'..=b'9')
}

// internal: `2` to `9`.
pub fn is_several(b: u8) -> bool
    ensures { result ≡ among b several }
{
    matches!(b, b'2'..=b'9')
}

// internal: `+` and `-`.
pub fn is_sign(b: u8) -> bool
    ensures { result ≡ among b signs }
{
    matches!(b, b'+' | b'-')
}

// internal: `-`, `=`, `#`, `/` and `\`.
pub fn is_bond_symbol(b: u8) -> bool
    ensures { result ≡ among b bond_symbols }
{
    matches!(b, b'-' | b'=' | b'#' | b'/' | b'\\')
}
