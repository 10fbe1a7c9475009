// The withdrawal check's calls for C and Rust.
ghost use Rattle.std.specs.Prelude.{◌≡◌};
ghost use Rattle.withdrawal.specs.Withdrawal.{withdrew, withdraw_of, Answered};
ghost use Rattle.withdrawal.specs.Answer.{out_of};
ghost use Rattle.balsa.specs.Withdrawals.{withdrawn_out};

use withdrawal::WithdrawError;
use withdrawal::walk::Withdrawn;

// What withdrawing hands back: 0, or the refusal's code with its place.
#[repr(C)]
#[derive(Clone, Copy)]
pub struct WithdrawReply {
    pub code: u32,
    pub place: usize,
}

// Withdraws a text: 0, 1, reading's refusal with its place, 17 or 18.
#[unsafe(no_mangle)]
pub extern "C" fn balsa_withdraw(reg: &mut [u8], tag: u16, text: &[u8]) -> WithdrawReply
    ensures { withdrew result.code result.place reg.new ≡ withdraw_of reg.old tag text.now }
{
    match withdrawal::withdraw(reg, tag, text) {
        Ok(()) => WithdrawReply { code: 0, place: 0 },
        Err(e) => WithdrawReply {
            code: u32::from(e),
            place: e.place(),
        },
    }
}

// What is said of a text: code 0 with answer 0 (clear), 1 (withdrawn, with the tag and place of the entry) or 2 (undecided, with the place of the entry); or the refusal's code with its place.
#[repr(C)]
#[derive(Clone, Copy)]
pub struct WithdrawnReply {
    pub code: u32,
    pub place: usize,
    pub answer: u32,
    pub tag: u16,
    pub entry: usize,
}

// An answer in plain numbers.
impl From<Result<Withdrawn, WithdrawError>> for WithdrawnReply {
    ghost from_gives = { λ answer r. withdrawn_out r ≡ out_of answer };

    fn from(answer: Result<Withdrawn, WithdrawError>) -> WithdrawnReply {
        match answer {
            Err(e) => WithdrawnReply {
                code: u32::from(e),
                place: e.place(),
                answer: 0,
                tag: 0,
                entry: 0,
            },
            Ok(Withdrawn::Clear) => WithdrawnReply {
                code: 0,
                place: 0,
                answer: 0,
                tag: 0,
                entry: 0,
            },
            Ok(Withdrawn::Listed { tag, entry }) => WithdrawnReply {
                code: 0,
                place: 0,
                answer: 1,
                tag,
                entry,
            },
            Ok(Withdrawn::Undecided { entry }) => WithdrawnReply {
                code: 0,
                place: 0,
                answer: 2,
                tag: 0,
                entry,
            },
        }
    }
}

// Whether the compound of a text is withdrawn, in any drawing: 1, 17, reading's refusal with its place, or the answer.
#[unsafe(no_mangle)]
pub extern "C" fn balsa_withdrawn(reg: &[u8], text: &[u8]) -> WithdrawnReply
    ensures { Answered reg.now text.now (withdrawn_out result) }
{
    WithdrawnReply::from(withdrawal::withdrawn(reg, text))
}
