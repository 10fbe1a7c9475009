// Single bytes of a text, and what they can be.
ghost use Rattle.std.specs.Prelude.{◌≡◌, true, ◌≤◌, ◌<◌, length};
ghost use Rattle.element.specs.Symbols.{among};
ghost use Rattle.reading_grammar.specs.Grammar.{digits};
ghost use Rattle.reading.specs.Bracket.{digit};
ghost use Rattle.reading_fields.specs.Field.{Peeked, Grown};

use reading_machine::byte::is_digit;

// What was read of a text, and the offset after it.
#[derive(Clone, Copy)]
pub struct Read<T> {
    pub value: T,
    pub at: usize,
}

// internal: the byte at an offset, 0 past the end.
pub fn peek(s: &[u8], at: usize) -> u8
    ensures { Peeked s.now at result }
{
    if at < s.len() { s[at] } else { 0 }
}

// internal: the number that a digit stands for.
pub fn value(b: u8) -> u16
    requires { among b digits ≡ true }
    ensures { (result ≡ digit b) × (result < 10) }
{
    (b - b'0') as u16
}

// internal: one digit more of a number, where a digit stands.
pub fn more(s: &[u8], n: Read<u16>) -> Read<u16>
    requires at_in_bounds { n.at ≤ length s.now }
    requires value_bound { n.value < 1000 }
    ensures { Grown s.now n result }
{
    let at = n.at;
    let b = peek(s, at);
    if is_digit(b) {
        return Read {
            value: 10 * n.value + value(b),
            at: at + 1,
        };
    }
    n
}
