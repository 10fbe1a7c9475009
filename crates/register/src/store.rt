// The stores of adding.
ghost use Rattle.std.specs.Prelude.{◌≡◌, ◌+◌, ◌<◌, ◌≤◌, length, get_or, eqb};
ghost use Rattle.loops.specs.Loop.{pick};
ghost use Rattle.register.specs.Layout.{size, max_entries, max_body, count, used};
ghost use Rattle.register.specs.Adding.{low, high, entry_bytes, steps, step_with, added_after};

use crate::contents;

// A byte of a number: the low one at 0, else the high one.
fn half(x: usize, i: usize) -> u8
    ensures { result ≡ pick (eqb i 0) (low x) (high x) }
{
    if i == 0 {
        return (x % 256) as u8;
    }
    (x / 256 % 256) as u8
}

// Byte i of an entry: start, length, tag.
fn entry_byte(s: usize, m: usize, tag: u16, i: usize) -> u8
    requires { i < 6 }
    ensures { result ≡ get_or (entry_bytes s m tag) i 0 }
{
    let t = tag as usize;
    let bytes: [u8; 6] = [
        half(s, 0),
        half(s, 1),
        half(m, 0),
        half(m, 1),
        half(t, 0),
        half(t, 1),
    ];
    bytes[i]
}

// internal: step k of adding to n entries whose bodies end at e. It stores at most one byte.
pub fn store(r: &mut [u8], n: usize, e: usize, tag: u16, body: &[u8], k: usize)
    requires { (n < max_entries) × (length body.now ≤ max_body) × (e + length body.now ≤ size) × (size ≤ length r.old) }
    ensures { r.new ≡ step_with n e tag body.now k r.old }
{
    let m = body.len();
    let last = m + 6;
    if k == last {
        r[1] = (n + 1) as u8;
        return;
    }
    if k < m {
        r[e + k] = body[k];
        return;
    }
    if k < last {
        r[2 + 6 * n + (k - m)] = entry_byte(e, m, tag, k - m);
    }
}

// internal: every step, in order.
pub fn store_all(r: &mut [u8], tag: u16, body: &[u8])
    requires { (count r.old < max_entries) × (length body.now ≤ max_body) × (used r.old + length body.now ≤ size) × (size ≤ length r.old) }
    ensures { r.new ≡ added_after r.old tag body.now (steps (length body.now)) }
{
    let n = contents::count(r);
    let e = contents::end_before(r, n);
    for k in 0..body.len() + 7 {
        store(r, n, e, tag, body, k);
    }
}
