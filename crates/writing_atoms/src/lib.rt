// The bytes of bond symbols, bridges and atoms, laid into a buffer.
#![tactic(auto)]

ghost use Rattle.std.specs.Prelude.{[], ◌∷◌, ◌+◌, ◌<◌};
ghost use Rattle.ids.specs.Limits.{bridges};
ghost use Rattle.buffer.specs.Buffer.{buffer_at, Wrote};
ghost use Rattle.writing.specs.Spell.{digit_byte, decimal, kind_bytes, bridge_bytes};

pub mod fields;

// A digit.
fn digit(out: &mut [u8], at: usize, d: usize) -> usize
    requires { d < 10 }
    ensures { Wrote (digit_byte d ∷ []) (buffer_at out.old at) (buffer_at out.new result) }
{
    buffer::put(out, at, b'0' + d as u8)
}

// internal: a number in decimal.
pub fn decimal(out: &mut [u8], at: usize, x: usize) -> usize
    requires { x < 10000 }
    ensures { Wrote (decimal x) (buffer_at out.old at) (buffer_at out.new result) }
{
    if x < 10 {
        return digit(out, at, x);
    }
    if x < 100 {
        let at = digit(out, at, x / 10);
        return digit(out, at, x % 10);
    }
    if x < 1000 {
        let at = digit(out, at, x / 100);
        let at = digit(out, at, x / 10 % 10);
        return digit(out, at, x % 10);
    }
    let at = digit(out, at, x / 1000);
    let at = digit(out, at, x / 100 % 10);
    let at = digit(out, at, x / 10 % 10);
    digit(out, at, x % 10)
}

// internal: the symbol of a bond's kind; nothing for an elided bond.
pub fn bond_symbol(out: &mut [u8], at: usize, k: usize) -> usize
    ensures { Wrote (kind_bytes k) (buffer_at out.old at) (buffer_at out.new result) }
{
    match kinds::symbol(k) {
        None => at,
        Some(b) => buffer::put(out, at, b),
    }
}

// internal: the number of a bridge; r is the number less one.
pub fn bridge(out: &mut [u8], at: usize, r: usize) -> usize
    requires { r + 1 < bridges }
    ensures { Wrote (bridge_bytes r) (buffer_at out.old at) (buffer_at out.new result) }
{
    if r < 9 {
        return digit(out, at, r + 1);
    }
    let at = buffer::put(out, at, b'%');
    decimal(out, at, r + 1)
}
