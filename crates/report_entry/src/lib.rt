// The line of the report for a text, by the functions behind the call from text to text.
#![tactic(auto)]

ghost use Rattle.std.specs.Prelude.{◌≤◌, length, replicate};
ghost use Rattle.refusal.specs.Code.{code_of};
ghost use Rattle.table.specs.Limits.{max_atoms};
ghost use Rattle.ids.specs.Limits.{max_text};
ghost use Rattle.writing.specs.Write.{write_of};
ghost use Rattle.standard.specs.Standing.{Writable, Standing};
ghost use Rattle.buffer.specs.Buffer.{buffer_at};
ghost use Rattle.report_entry.specs.Entry.{refused_as, of_written, of_molecule};
ghost use Rattle.report_entry.specs.Laid.{Says, Reports};

use ids::MAX_TEXT;
use refusal::Refusal;
use report_lines::output;
use table::{ATOM_CELLS, BOND_CELLS, MAX_ATOMS, MAX_BONDS, Tables};

// Room that is enough for a line: numbers and marks take 91 bytes at most, beside the row and the text.
pub const LINE_ROOM: usize = 91 + (MAX_BONDS + MAX_TEXT);

// Whether the text was accepted, and the place after its line.
// Stays: a refused text has a line too, so the place is told either way, and both answers would hold the same number.
#[derive(Clone, Copy)]
pub struct Reported {
    pub accepted: bool,
    pub at: usize,
}

// The line of a refused text.
fn refuse(k: usize, r: Refusal, p: usize, out: &mut [u8], at: usize) -> Reported
    ensures { Says k (refused_as (code_of r) p) result (buffer_at out.old at) out.new }
{
    let at = output::refused(out, at, k, refusal::code(r), p);
    Reported {
        accepted: false,
        at,
    }
}

// The line of a kekulized molecule: the row that it was kekulized by, and its text.
fn report_kekulized(
    k: usize,
    tables: Tables,
    overfull: usize,
    row: &[u8],
    out: &mut [u8],
    at: usize,
) -> Reported
    requires { (tables.m ≤ length row.now) × Writable tables.atoms.now tables.bonds.now tables.n tables.m }
    ensures { Says k (of_written tables.entry.n tables.entry.m overfull row.now (write_of tables.entry.atoms.now tables.entry.bonds.now tables.entry.n tables.entry.m (replicate max_text 0) (replicate max_atoms 0))) result (buffer_at out.old at) out.new }
{
    let Tables { n, m, .. } = tables;
    let mut text = [0u8; MAX_TEXT];
    let mut numbers = [0u16; MAX_ATOMS];
    match writer::write_valid(tables, &mut text, &mut numbers) {
        Ok(size) => {
            let at = output::accepted(out, at, k, n, m, overfull, &row[..m], &text[..size]);
            Reported { accepted: true, at }
        }
        Err(r) => refuse(k, r, 0, out, at),
    }
}

// The line of a molecule that was read: its first matching and the text kekulized by it.
fn report_molecule(
    k: usize,
    atoms: &mut [i32],
    bonds: &mut [i32],
    n: usize,
    m: usize,
    overfull: usize,
    out: &mut [u8],
    at: usize,
) -> Reported
    requires { Standing atoms.old bonds.old n m }
    ensures { Says k (of_molecule atoms.old bonds.old n m overfull) result (buffer_at out.old at) out.new }
{
    let mut row = [0u8; MAX_BONDS];
    let c = standard::settle(atoms, bonds, n, m, &mut row);
    match c {
        Ok(()) => report_kekulized(k, Tables { atoms, bonds, n, m }, overfull, &row, out, at),
        Err(r) => refuse(k, r, 0, out, at),
    }
}

// internal: the line of the report for a text, whatever its bytes: laid into the buffer from a place on, as far as there is room.
pub fn report_line(k: usize, s: &[u8], out: &mut [u8], at: usize) -> Reported
    ensures { Reports k s.now result (buffer_at out.old at) out.new }
{
    let mut atoms = [0i32; ATOM_CELLS * MAX_ATOMS];
    let mut bonds = [0i32; BOND_CELLS * MAX_BONDS];
    let a = reader::read_zeroed(s, &mut atoms, &mut bonds);
    match a {
        Err(e) => refuse(k, e.refusal, e.at, out, at),
        Ok(t) => {
            report_molecule(
                k, &mut atoms, &mut bonds, t.atoms, t.bonds, t.overfull, out, at,
            )
        }
    }
}
