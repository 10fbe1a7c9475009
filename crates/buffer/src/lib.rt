// Bytes laid into a buffer one after the other.
#![tactic(auto)]

ghost use Rattle.std.specs.Prelude.{◌-◌, ◌≤◌, ◌≡◌, [], ◌∷◌, ◌++◌, length, take, replicate};
ghost use Rattle.buffer.specs.Buffer.{following, buffer_at, Wrote};

// internal: the next place or count. The largest stays: no input has so many bytes or lines.
pub fn next_count(n: usize) -> usize
    ensures { result ≡ following n }
{
    n.saturating_add(1)
}

// internal: the next byte, stored where there is room and counted where there is none. The place after it.
pub fn put(out: &mut [u8], at: usize, b: u8) -> usize
    ensures { Wrote (b ∷ []) (buffer_at out.old at) (buffer_at out.new result) }
{
    if at < out.len() {
        out[at] = b;
        return at + 1;
    }
    next_count(at)
}

// internal: the next bytes. The place after them.
pub fn put_all(out: &mut [u8], at: usize, s: &[u8]) -> usize
    ensures { Wrote s.now (buffer_at out.old at) (buffer_at out.new result) }
{
    let mut to = at;
    for &b in s {
        to = put(out, to, b);
    }
    to
}

// internal: zeros from a place on.
pub fn clear_from(out: &mut [u8], from: usize)
    requires { from ≤ length out.old }
    ensures { out.new ≡ take from out.old ++ replicate (length out.old - from) 0 }
{
    out[from..].fill(0);
}
