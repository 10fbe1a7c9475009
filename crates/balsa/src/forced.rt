// The calls of the second engine (02, P9) for C and Rust.
ghost use Rattle.std.specs.Prelude.{◌≡◌};
ghost use Rattle.matching.specs.declared.Call.TheVariants.{Next};
ghost use Rattle.kekule.specs.Kekule.{call_reply, call_on};
ghost use Rattle.kekule_forced.specs.Forced.{forced_call_reply, first_forced_on};

use kekule_answers::found_code;
use table::Tables;

// What the call for the first hands back: code 0 with how many pairs are forced, or the refusal's code with 0.
#[repr(C)]
#[derive(Clone, Copy)]
pub struct ForcedReply {
    pub code: u32,
    pub forced: usize,
}

// The first matching, into the row, and the pairs forced before any choice, into the list: 0, 1, 13 or 11.
#[unsafe(no_mangle)]
pub extern "C" fn balsa_first_forced(
    atoms: &[i32],
    bonds: &[i32],
    n: usize,
    m: usize,
    row: &mut [u8],
    pairs: &mut [u16],
) -> ForcedReply
    ensures { forced_call_reply result.code row.new result.forced pairs.new ≡ first_forced_on atoms.now bonds.now n m row.old pairs.old }
{
    let first = kekule_forced::first_forced(Tables { atoms, bonds, n, m }, row, pairs);
    let found = first.found;
    ForcedReply {
        code: found_code(found) as u32,
        forced: first.count,
    }
}

// The next matching, into the row: 0, 255 for the end, 1, 13 or 12.
#[unsafe(no_mangle)]
pub extern "C" fn balsa_next_forced(
    atoms: &[i32],
    bonds: &[i32],
    n: usize,
    m: usize,
    row: &mut [u8],
) -> u32
    ensures { call_reply result row.new ≡ call_on Next atoms.now bonds.now n m row.old }
{
    found_code(kekule_forced::next_forced(Tables { atoms, bonds, n, m }, row)) as u32
}
