// The public calls for C and Rust: slices, counts and numbers in, codes out.
#![tactic(auto)]

ghost use Rattle.std.specs.Prelude.{◌≡◌};
ghost use Rattle.matching.specs.declared.Call.TheVariants.{First, Next};
ghost use Rattle.kekule.specs.Kekule.{call_reply, call_on, asked_of, kekulize_reply, kekulized_of};
ghost use Rattle.conformation.specs.Sides.{sides_reply, sides_of};
ghost use Rattle.kekule.specs.Calls.{replay_out, replayed_of};
ghost use Rattle.table.specs.Sound.{check_of};
ghost use Rattle.table.specs.Valid.{check_code};
ghost use Rattle.reading.specs.Read.{read_of};
ghost use Rattle.writing.specs.Write.{write_of};
ghost use Rattle.balsa.specs.Replies.{read_reply_of, read_out, write_reply_of, write_out};

use kekule_answers::found_code;
use matching::Call;
use reader::answer::{Counts, TextRefusal};
use refusal::Refusal;
use table::Tables;

pub mod forced;
mod key_call;
mod lease_calls;
mod pieces_call;
mod register_calls;
pub mod reporting;
mod same_call;
mod standard_call;
pub mod symbol;
mod withdrawal_calls;

// What reading hands back: code 0 with the counts of atoms, of bonds and of over-full atoms outside brackets, or the refusal's code
// with its offset and counts of 0.
#[repr(C)]
#[derive(Clone, Copy)]
pub struct ReadReply {
    pub code: u32,
    pub place: usize,
    pub atoms: usize,
    pub bonds: usize,
    pub overfull: usize,
}

// An answer of the reader in plain numbers.
impl From<Result<Counts, TextRefusal>> for ReadReply {
    ghost from_gives = { λ a r. r ≡ read_reply_of a };

    fn from(a: Result<Counts, TextRefusal>) -> ReadReply {
        match a {
            Ok(t) => ReadReply {
                code: 0,
                place: 0,
                atoms: t.atoms,
                bonds: t.bonds,
                overfull: t.overfull,
            },
            Err(e) => ReadReply {
                code: refusal::code(e.refusal) as u32,
                place: e.at,
                atoms: 0,
                bonds: 0,
                overfull: 0,
            },
        }
    }
}

// Reads a text into the tables: 0 with the counts, or 1 to 11 or 20 to 22 with the offset.
#[unsafe(no_mangle)]
pub extern "C" fn balsa_read(text: &[u8], atoms: &mut [i32], bonds: &mut [i32]) -> ReadReply
    ensures { read_out result atoms.new bonds.new ≡ read_of text.now atoms.old bonds.old }
{
    ReadReply::from(reader::read(text, atoms, bonds))
}

// What writing hands back: code 0 with the length of the text, or the refusal's code.
#[repr(C)]
#[derive(Clone, Copy)]
pub struct WriteReply {
    pub code: u32,
    pub length: usize,
}

// An answer of the writer in plain numbers.
impl From<Result<usize, Refusal>> for WriteReply {
    ghost from_gives = { λ w r. r ≡ write_reply_of w };

    fn from(w: Result<usize, Refusal>) -> WriteReply {
        match w {
            Ok(k) => WriteReply { code: 0, length: k },
            Err(r) => WriteReply {
                code: refusal::code(r) as u32,
                length: 0,
            },
        }
    }
}

// Writes the molecule of the tables: 0 with the length, or 1, 13, 14, 15, 16.
#[unsafe(no_mangle)]
pub extern "C" fn balsa_write(
    atoms: &[i32],
    bonds: &[i32],
    n: usize,
    m: usize,
    out: &mut [u8],
    ren: &mut [u16],
) -> WriteReply
    ensures { write_out result out.new ren.new ≡ write_of atoms.now bonds.now n m out.old ren.old }
{
    WriteReply::from(writer::write(Tables { atoms, bonds, n, m }, out, ren))
}

// The code of a check: 0, or the refusal's.
fn check_code(c: Result<(), Refusal>) -> u32
    ensures { result ≡ check_code c }
{
    match c {
        Ok(()) => 0,
        Err(r) => refusal::code(r) as u32,
    }
}

// Whether the tables can be worked with: 0, 1 or 13.
#[unsafe(no_mangle)]
pub extern "C" fn balsa_check(atoms: &[i32], bonds: &[i32], n: usize, m: usize) -> u32
    ensures { result ≡ check_of atoms.now bonds.now n m }
{
    check_code(table_validity::check_tables(Tables { atoms, bonds, n, m }))
}

// One of the two calls for a matching, its answer as a code.
fn ask(c: Call, atoms: &[i32], bonds: &[i32], n: usize, m: usize, row: &mut [u8]) -> u32
    ensures { call_reply result row.new ≡ call_on c atoms.now bonds.now n m row.old }
{
    // Stays: which call it is, is a value that definitions take (`row_call`), and a list of calls is a list of them.
    match c {
        Call::First => found_code(kekule::first(Tables { atoms, bonds, n, m }, row)) as u32,
        Call::Next => found_code(kekule::next(Tables { atoms, bonds, n, m }, row)) as u32,
    }
}

// The first matching, into the row: 0, 1, 13 or 11.
#[unsafe(no_mangle)]
pub extern "C" fn balsa_first(
    atoms: &[i32],
    bonds: &[i32],
    n: usize,
    m: usize,
    row: &mut [u8],
) -> u32
    ensures { call_reply result row.new ≡ call_on First atoms.now bonds.now n m row.old }
{
    ask(Call::First, atoms, bonds, n, m, row)
}

// The next matching, into the row: 0, 255 for the end, 1, 13 or 12.
#[unsafe(no_mangle)]
pub extern "C" fn balsa_next(
    atoms: &[i32],
    bonds: &[i32],
    n: usize,
    m: usize,
    row: &mut [u8],
) -> u32
    ensures { call_reply result row.new ≡ call_on Next atoms.now bonds.now n m row.old }
{
    ask(Call::Next, atoms, bonds, n, m, row)
}

// Whether the row is a matching: 0, 1, 13, or 12 if it is none.
#[unsafe(no_mangle)]
pub extern "C" fn balsa_is_matching(
    atoms: &[i32],
    bonds: &[i32],
    n: usize,
    m: usize,
    row: &[u8],
) -> u32
    ensures { result ≡ asked_of atoms.now bonds.now n m row.now }
{
    check_code(kekule::is_matching(Tables { atoms, bonds, n, m }, row))
}

// Kekulizes the tables by the row: 0, 1, 13, 12 or 20.
#[unsafe(no_mangle)]
pub extern "C" fn balsa_kekulize(
    atoms: &mut [i32],
    bonds: &mut [i32],
    n: usize,
    m: usize,
    row: &[u8],
) -> u32
    ensures { kekulize_reply result atoms.new bonds.new ≡ kekulized_of atoms.old bonds.old n m row.now }
{
    check_code(kekule::kekulize(atoms, bonds, n, m, row))
}

// The row of sides, into the row: 0, 1 or 13.
#[unsafe(no_mangle)]
pub extern "C" fn balsa_sides(
    atoms: &[i32],
    bonds: &[i32],
    n: usize,
    m: usize,
    row: &mut [u8],
) -> u32
    ensures { sides_reply result row.new ≡ sides_of atoms.now bonds.now n m row.old }
{
    check_code(conformation::sides(Tables { atoms, bonds, n, m }, row))
}

// A list of calls on one row, 0 for the first matching and any other byte for the next; the code of each answer: 0, or 1 where
// codes is shorter than calls.
#[unsafe(no_mangle)]
pub extern "C" fn balsa_replay(
    calls: &[u8],
    atoms: &[i32],
    bonds: &[i32],
    n: usize,
    m: usize,
    row: &mut [u8],
    codes: &mut [u8],
) -> u32
    ensures { replay_out result row.new codes.new ≡ replayed_of calls.now atoms.now bonds.now n m row.old codes.old }
{
    check_code(kekule::replay(calls, Tables { atoms, bonds, n, m }, row, codes))
}
