// The report of an input: whole in memory (`whole`), or as it comes in blocks.
#![tactic(auto)]

ghost use Rattle.std.specs.Prelude.{◌≡◌, []};
ghost use Rattle.buffer.specs.Buffer.{buffer_at, Wrote};
ghost use Rattle.report_lines.specs.Cut.{gathered, Bounded};
ghost use Rattle.report_entry.specs.Laid.{Reports};
ghost use Rattle.report_blocks.specs.Report.{counted};
ghost use Rattle.report_blocks.specs.Blocks.{remaining, Begins, Advances};

use report_entry::{LINE_ROOM, Reported};
use report_lines::input::Line;
use report_lines::output;

pub mod whole;

// The number of the next line, and how many texts were accepted and refused before it.
#[derive(Clone, Copy)]
pub struct Tally {
    pub number: usize,
    pub accepted: usize,
    pub refused: usize,
}

// How far a report is: the line so far, and the counts.
#[derive(Clone, Copy)]
pub struct Progress {
    pub line: Line,
    pub tally: Tally,
}

// The report of a block: the place after what was taken, the bytes laid, and the progress.
#[derive(Clone, Copy)]
pub struct Report {
    pub at: usize,
    pub used: usize,
    pub progress: Progress,
}

// internal: the progress before the first line.
pub fn begin() -> Progress
    ensures { Begins result }
{
    let line = Line::new();
    let tally = Tally {
        number: 1,
        accepted: 0,
        refused: 0,
    };
    Progress { line, tally }
}

// The counts after a line.
fn count(t: Tally, accepted: bool) -> Tally
    ensures { result ≡ counted accepted t }
{
    let number = buffer::next_count(t.number);
    if accepted {
        return Tally {
            number,
            accepted: buffer::next_count(t.accepted),
            refused: t.refused,
        };
    }
    Tally {
        number,
        accepted: t.accepted,
        refused: buffer::next_count(t.refused),
    }
}

// The report of a line that was gathered.
fn tell(line: Line, k: usize, out: &mut [u8], at: usize) -> Reported
    requires { Bounded line }
    ensures { Reports k (gathered line) result (buffer_at out.old at) out.new }
{
    let bytes = line.bytes;
    let n = line.len;
    report_entry::report_line(k, &bytes[..n], out, at)
}

// internal: reports the lines that end in a block, from a place on and as far as out has room.
pub fn report_block(g: Progress, s: &[u8], from: usize, out: &mut [u8]) -> Report
    requires { Bounded g.line }
    ensures { Advances g s.now from result out.new }
{
    let mut line = g.line;
    let mut tally = g.tally;
    let mut at = from;
    let mut used = 0;
    // Stays: a turn takes a line and lays its report, so neither place moves by a step that is known before.
    while used + LINE_ROOM <= out.len() {
        let f = line.fill(s, at);
        let l = f.line;
        line = l;
        at = f.at;
        if !f.done {
            let progress = Progress { line, tally };
            return Report { at, used, progress };
        }
        let r = tell(line, tally.number, out, used);
        used = r.at;
        tally = count(tally, r.accepted);
        line.len = 0;
    }
    let progress = Progress { line, tally };
    Report { at, used, progress }
}

// internal: the end of the report: the unfinished last line, if it has a byte, and the totals.
pub fn finish(g: Progress, out: &mut [u8], at: usize) -> usize
    requires { Bounded g.line }
    ensures { Wrote (remaining g []) (buffer_at out.old at) (buffer_at out.new result) }
{
    let tally = g.tally;
    let line = g.line;
    if line.len == 0 {
        return output::totals(out, at, tally.accepted, tally.refused);
    }
    let r = tell(line, tally.number, out, at);
    let t = count(tally, r.accepted);
    output::totals(out, r.at, t.accepted, t.refused)
}
