// Offsets within the limit of a text.
ghost use Rattle.std.specs.Prelude.{◌≡◌};
ghost use Rattle.reading_pieces.specs.State.{cap, capped};

use ids::MAX_TEXT;

// An offset past the limit counts as the limit.
fn cap(q: u16) -> u16
    ensures { result ≡ cap q }
{
    if (MAX_TEXT as u16) < q {
        return MAX_TEXT as u16;
    }
    q
}

// internal: every offset within the limit.
pub fn cap_all<const N: usize>(l: &mut [u16; N])
    ensures { l.new ≡ capped N l.old }
{
    for i in 0..N {
        l[i] = cap(l[i]);
    }
}
