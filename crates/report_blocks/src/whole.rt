// The report of a whole input in memory.
ghost use Rattle.std.specs.Prelude.{◌≡◌, length};
ghost use Rattle.buffer.specs.Buffer.{capped, buffer_at, Wrote};
ghost use Rattle.report_blocks.specs.Report.{report_of};
ghost use Rattle.report_blocks.specs.Reply.{printed, reply_of};

use crate::{Tally, count};
use refusal::Refusal;
use report_lines::input::line_end;
use report_lines::output;

// The report, laid as far as the output has room. The place after it.
fn lay(input: &[u8], out: &mut [u8]) -> usize
    ensures { Wrote (report_of input.now) (buffer_at out.old 0) (buffer_at out.new result) }
{
    let mut at = output::header(out, 0);
    let mut tally = Tally {
        number: 1,
        accepted: 0,
        refused: 0,
    };
    let mut from = 0;
    // Stays: a split gives an empty piece more after a last newline, which is no line of the report, or leaves the newlines in.
    while from < input.len() {
        let end = line_end(input, from);
        let r = report_entry::report_line(tally.number, &input[from..end], out, at);
        tally = count(tally, r.accepted);
        at = r.at;
        from = end + 1;
    }
    output::totals(out, at, tally.accepted, tally.refused)
}

// How many bytes the report of an input has; the largest number stands for all that are larger.
pub fn report_length(input: &[u8]) -> usize
    ensures { result ≡ capped (length (report_of input.now)) }
{
    let mut none = [0u8; 0];
    lay(input, &mut none)
}

// The report of an input, and zeros after it: the number of its bytes. 1 where it does not fit, and nothing changes.
pub fn report(input: &[u8], out: &mut [u8]) -> Result<usize, Refusal>
    ensures { printed result out.new ≡ reply_of input.now out.old }
{
    let size = report_length(input);
    if out.len() < size {
        return Err(Refusal::Short);
    }
    lay(input, out);
    buffer::clear_from(out, size);
    Ok(size)
}
