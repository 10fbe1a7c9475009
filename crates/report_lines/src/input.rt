// The lines of an input: the end of a line in memory, and lines gathered over any number of blocks.
ghost use Rattle.std.specs.Prelude.{◌<◌, ◌≡◌, [], length};
ghost use Rattle.report_lines.specs.Cut.{gathered, Bounded, Fills, Ends};

use ids::MAX_TEXT;

// The most bytes of a line that are gathered: one more than a text may have, so that a longer line shows by its length.
pub const MAX_LINE: usize = MAX_TEXT + 1;

// The line so far: its first bytes. Further bytes are dropped.
// Stays: memory is fixed, so the bytes have their length beside them and no Vec holds them.
#[derive(Clone, Copy)]
pub struct Line {
    pub bytes: [u8; MAX_LINE],
    pub len: usize,
}

// Whether the line's end was met; the place after what was taken; the line.
// Stays: the place is told whether or not the end was met, so that the flag makes no Option of it.
#[derive(Clone, Copy)]
pub struct Filled {
    pub done: bool,
    pub at: usize,
    pub line: Line,
}

impl Line {
    // internal: a line without bytes.
    pub fn new() -> Self
        ensures empty { gathered result ≡ [] }
        ensures bounded { Bounded result }
    {
        let bytes = [0u8; MAX_LINE];
        Self { bytes, len: 0 }
    }

    // internal: takes bytes of a block, up to the line's end or the block's.
    pub fn fill(mut self, s: &[u8], from: usize) -> Filled
        requires { Bounded self }
        ensures { Fills self s.now from result }
    {
        for i in from..s.len() {
            let b = s[i];
            if b == b'\n' {
                return Filled {
                    done: true,
                    at: i + 1,
                    line: self,
                };
            }
            let n = self.len;
            if MAX_LINE <= n {
                continue;
            }
            self.bytes[n] = b;
            self.len = n + 1;
        }
        Filled {
            done: false,
            at: from.max(s.len()),
            line: self,
        }
    }
}

// internal: the place where the line from a place on ends, at a byte 10 or with the input.
pub fn line_end(s: &[u8], from: usize) -> usize
    requires { from < length s.now }
    ensures { Ends s.now from result }
{
    for i in from..s.len() {
        if s[i] == b'\n' {
            return i;
        }
    }
    s.len()
}
