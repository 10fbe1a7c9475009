// Reading the table of contents.
ghost use Rattle.std.specs.Prelude.{◌≡◌, ◌+◌, ◌<◌, ◌≤◌, length, true};
ghost use Rattle.register.specs.Layout.{size, max_entries, first_body, two, count, start_of, length_of, tag_of, body_of, end_before, valid_entry, valid};
ghost use Rattle.register.specs.Adding.{fits};

// internal: the least length of a register.
pub const SIZE: usize = 32768;
// internal: the most entries.
pub const MAX_ENTRIES: usize = 64;
// internal: where the first body starts.
pub const FIRST_BODY: usize = 386;
// internal: the most bytes of a body.
pub const MAX_BODY: usize = 4096;

// A byte as a number.
fn wide(x: u8) -> usize
    ensures { (result ≡ x) × (result < 256) }
{
    x as usize
}

// Two bytes, low byte first.
fn pair(r: &[u8], i: usize) -> usize
    requires { (i < first_body) × (size ≤ length r.now) }
    ensures value { result ≡ two r.now i }
    ensures upper_bound { result < 65536 }
{
    wide(r[i]) + 256 * wide(r[i + 1])
}

// internal: the number of entries.
pub fn count(r: &[u8]) -> usize
    requires { size ≤ length r.now }
    ensures { result ≡ count r.now }
{
    wide(r[1])
}

// internal: where the body of entry j starts.
pub fn start(r: &[u8], j: usize) -> usize
    requires { (j < max_entries) × (size ≤ length r.now) }
    ensures value { result ≡ start_of r.now j }
    ensures upper_bound { result < 65536 }
{
    pair(r, 2 + 6 * j)
}

// internal: how long the body of entry j is.
pub fn length(r: &[u8], j: usize) -> usize
    requires { (j < max_entries) × (size ≤ length r.now) }
    ensures value { result ≡ length_of r.now j }
    ensures upper_bound { result < 65536 }
{
    pair(r, 2 + 6 * j + 2)
}

// internal: the tag of entry j.
pub fn tag(r: &[u8], j: usize) -> u16
    requires { (j < max_entries) × (size ≤ length r.now) }
    ensures { result ≡ tag_of r.now j }
{
    pair(r, 2 + 6 * j + 4) as u16
}

// internal: where the bodies before entry j end.
pub fn end_before(r: &[u8], j: usize) -> usize
    requires { (j ≤ max_entries) × (size ≤ length r.now) }
    ensures value { result ≡ end_before r.now j }
    ensures upper_bound { result < 131072 }
{
    if j == 0 {
        return FIRST_BODY;
    }
    start(r, j - 1) + length(r, j - 1)
}

// Entry j starts where the bodies before it end, and its body is short enough and within the register.
fn valid_entry(r: &[u8], j: usize) -> bool
    requires { (j < max_entries) × (size ≤ length r.now) }
    ensures { result ≡ valid_entry r.now j }
{
    let s = start(r, j);
    let n = length(r, j);
    (s == end_before(r, j)) & ((n <= MAX_BODY) & (s + n <= SIZE))
}

// internal: the layout keeps the rules.
pub fn valid(r: &[u8]) -> bool
    requires { size ≤ length r.now }
    ensures { result ≡ valid r.now }
{
    if wide(r[0]) != 1 {
        return false;
    }
    let n = count(r);
    if MAX_ENTRIES < n {
        return false;
    }
    for j in 0..n {
        if !valid_entry(r, j) {
            return false;
        }
    }
    true
}

// internal: there is room for a body of m bytes.
pub fn fits(r: &[u8], m: usize) -> bool
    requires { size ≤ length r.now }
    ensures { result ≡ fits r.now m }
{
    let n = count(r);
    if MAX_ENTRIES <= n {
        return false;
    }
    if MAX_BODY < m {
        return false;
    }
    end_before(r, n) + m <= SIZE
}

// internal: the body of entry j, a part of the register.
pub fn body(r: &[u8], j: usize) -> &[u8]
    requires { (size ≤ length r.now) × (valid r.now ≡ true) × (j < count r.now) }
    ensures { result.now ≡ body_of r.now j }
{
    let s = start(r, j);
    let e = s + length(r, j);
    &r[s..e]
}
