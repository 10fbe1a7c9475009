// The report as calls for C and Rust.
ghost use Rattle.std.specs.Prelude.{◌≡◌, List, ℕ, length};
ghost use Rattle.buffer.specs.Buffer.{capped};
ghost use Rattle.report_blocks.specs.Report.{report_of};
ghost use Rattle.report_blocks.specs.Reply.{printed, reply_of};
ghost use Rattle.balsa.specs.Reporting.{report_out};

use refusal::Refusal;

// What the report hands back: code 0 with the number of bytes, or code 1 with length 0.
#[repr(C)]
#[derive(Clone, Copy)]
pub struct ReportReply {
    pub code: u32,
    pub length: usize,
}

// An answer of the report in plain numbers.
impl From<Result<usize, Refusal>> for ReportReply {
    ghost from_gives = { λ p r. (out : List ℕ) → report_out r out ≡ printed p out };

    fn from(p: Result<usize, Refusal>) -> ReportReply {
        match p {
            Ok(n) => ReportReply { code: 0, length: n },
            Err(r) => ReportReply {
                code: refusal::code(r) as u32,
                length: 0,
            },
        }
    }
}

// The report of an input, and zeros after it: 0 with its length; or 1 where it does not fit, and nothing changes.
#[unsafe(no_mangle)]
pub extern "C" fn balsa_report(input: &[u8], out: &mut [u8]) -> ReportReply
    ensures { report_out result out.new ≡ reply_of input.now out.old }
{
    ReportReply::from(report_blocks::whole::report(input, out))
}

// How many bytes the report of an input has; the largest number stands for all that are larger.
#[unsafe(no_mangle)]
pub extern "C" fn balsa_report_length(input: &[u8]) -> usize
    ensures { result ≡ capped (length (report_of input.now)) }
{
    report_blocks::whole::report_length(input)
}
