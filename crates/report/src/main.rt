// The report of standard input to standard output, in blocks. No contract can say what is read or written: what the calls lay is
// the report of the whole input, however it comes in blocks (crate report_blocks, proofs/Run.antt). After a failed read or
// write the rest is left out, the totals with it, and standard error says so.
#![tactic(auto)]

ghost use Rattle.std.specs.Prelude.{IfOk};
ghost use Rattle.report_lines.specs.Cut.{Bounded};
ghost use Rattle.report.specs.Turned.{Turned, Stepped};

use report_blocks::Progress;
use report_lines::output;
use std::io::Read;

// The bytes of a block, and of the room for its report.
const BLOCK: usize = 65536;

// A read or a write failed, and standard error says so.
#[derive(Clone, Copy)]
pub struct Failed;

// After a turn: the place in the block, and how far the report is.
#[derive(Clone, Copy)]
pub struct Turn {
    pub at: usize,
    pub progress: Progress,
}

// How far the report is after a block: there may be more, or the input is at its end.
#[derive(Clone, Copy)]
pub enum Step {
    More(Progress),
    End(Progress),
}

// Writes bytes to standard output.
fn write_out(rt: &(impl Print + Eprint), s: &[u8]) -> Result<(), Failed> {
    if rt.write_all(s).is_ok() {
        return Ok(());
    }
    let _ = rt.eprintln("report: the output could not be written");
    Err(Failed)
}

// Reports what one buffer holds of the lines from a place of a block.
fn report_turn(
    rt: &(impl Print + Eprint),
    g: Progress,
    s: &[u8],
    from: usize,
) -> Result<Turn, Failed>
    requires { Bounded g.line }
    ensures { IfOk result (Turned s.now from) }
{
    let mut out = [0u8; BLOCK];
    let r = report_blocks::report_block(g, s, from, &mut out);
    let used = r.used;
    write_out(rt, &out[..used])?;
    let progress = r.progress;
    Ok(Turn { at: r.at, progress })
}

// Reports the lines that end in a block.
fn block(rt: &(impl Print + Eprint), g: Progress, s: &[u8]) -> Result<Progress, Failed>
    requires { Bounded g.line }
    ensures { IfOk result (λ p. Bounded p.line) }
{
    let mut progress = g;
    let mut at = 0;
    // Stays: a turn takes as much of the block as fits its buffer, so no iterator knows where the next begins.
    while at < s.len() {
        let turn = report_turn(rt, progress, s, at)?;
        let p = turn.progress;
        progress = p;
        at = turn.at;
    }
    Ok(progress)
}

// Reads a block and reports its lines.
fn read_block(rt: &(impl Input + Print + Eprint), g: Progress) -> Result<Step, Failed>
    requires { Bounded g.line }
    ensures { IfOk result Stepped }
{
    let mut buf = [0u8; BLOCK];
    match rt.reader().read(&mut buf) {
        Ok(0) => Ok(Step::End(g)),
        Ok(n) => {
            let progress = block(rt, g, &buf[..n])?;
            Ok(Step::More(progress))
        }
        Err(_) => {
            let _ = rt.eprintln("report: the input could not be read");
            Err(Failed)
        }
    }
}

// Reads to the end. Nothing says that the input ends, so there are only as many turns as no input has blocks.
fn read_all(rt: &(impl Input + Print + Eprint)) -> Result<Progress, Failed>
    ensures { IfOk result (λ p. Bounded p.line) }
{
    let mut progress = report_blocks::begin();
    for _ in 0..u64::MAX {
        match read_block(rt, progress)? {
            Step::More(p) => progress = p,
            Step::End(p) => return Ok(p),
        }
    }
    Err(Failed)
}

// Writes the report's first line.
fn write_header(rt: &(impl Print + Eprint)) -> Result<(), Failed> {
    let mut out = [0u8; 4096];
    let used = output::header(&mut out, 0);
    write_out(rt, &out[..used])
}

// Writes the end of the report: the unfinished last line and the totals.
fn write_end(rt: &(impl Print + Eprint), g: Progress) -> Result<(), Failed>
    requires { Bounded g.line }
{
    let mut out = [0u8; BLOCK];
    let used = report_blocks::finish(g, &mut out, 0);
    write_out(rt, &out[..used])
}

// The whole report, as far as nothing fails.
fn write_report(rt: &(impl Input + Print + Eprint)) -> Result<(), Failed> {
    write_header(rt)?;
    let g = read_all(rt)?;
    write_end(rt, g)
}

fn main(rt: HostRuntime) {
    let _ = write_report(&rt);
}
