// One call from a text to the text kekulized: reading, the first matching, kekulizing and writing.
#![tactic(auto)]

ghost use Rattle.std.specs.Prelude.{◌≡◌, true, ◌≤◌, length, replicate};
ghost use Rattle.refusal.specs.Code.{code_of};
ghost use Rattle.table.specs.Limits.{max_atoms, max_bonds};
ghost use Rattle.ids.specs.Limits.{max_text};
ghost use Rattle.table.specs.Sound.{sound};
ghost use Rattle.writing.specs.Write.{write_valid};
ghost use Rattle.standard.specs.Standard.{told, zeroed, of_written, standard_of};
ghost use Rattle.standard.specs.Standing.{Standing, Settled, Readable, Held, HasFirst, KekulizedBy, molecule_of};

use ids::{MAX_TEXT, SMALL};
use matching::Call;
use reader::answer::{Counts, TextRefusal};
use refusal::Refusal;
use table::{ATOM_CELLS, BOND_CELLS, MAX_ATOMS, MAX_BONDS, Tables};

// A text that was written: the counts of its molecule, and its length.
#[derive(Clone, Copy)]
pub struct Written {
    pub counts: Counts,
    pub length: usize,
}

// A refusal; the output is zeroed.
fn refuse(refusal: Refusal, at: usize, out: &mut [u8]) -> Result<Written, TextRefusal>
    ensures { told result out.new ≡ zeroed (code_of refusal) at out.old }
{
    buffer::clear_from(out, 0);
    Err(TextRefusal { refusal, at })
}

// The text of a kekulized molecule.
fn write_kekulized(tables: Tables, overfull: usize, out: &mut [u8]) -> Result<Written, TextRefusal>
    requires m_value { sound tables.atoms.now tables.bonds.now tables.n tables.m ≡ true }
    requires max_text_in_bounds { max_text ≤ length out.old }
    ensures { told result out.new ≡ of_written tables.entry.n tables.entry.m overfull (write_valid tables.entry.atoms.now tables.entry.bonds.now tables.entry.n tables.entry.m out.old (replicate max_atoms 0)) }
{
    let Tables { n, m, .. } = tables;
    let mut numbers = [0u16; MAX_ATOMS];
    match writer::write_valid(tables, out, &mut numbers) {
        Ok(length) => {
            let counts = Counts {
                atoms: n,
                bonds: m,
                overfull,
            };
            Ok(Written { counts, length })
        }
        Err(refusal) => Err(TextRefusal { refusal, at: 0 }),
    }
}

// Kekulizes the tables of an accepted text by their first matching, which the row has; or 20, which changes neither table.
fn settle_by(
    atoms: &mut [i32],
    bonds: &mut [i32],
    n: usize,
    m: usize,
    row: &[u8],
) -> Result<(), Refusal>
    requires held { Held atoms.old bonds.old n m }
    requires has_first { HasFirst atoms.old bonds.old n m row.now }
    ensures { KekulizedBy atoms.old bonds.old n m row.now result atoms.new bonds.new }
{
    if !table_marks::none_crowded_by(bonds, m, row) {
        return Err(Refusal::CrowdedEnd);
    }
    kekule::kekulize_valid(atoms, bonds, n, m, row);
    Ok(())
}

// internal: kekulizes the tables of an accepted text by their first matching, which a zeroed row gets; or 20, which changes neither table.
pub fn settle(
    atoms: &mut [i32],
    bonds: &mut [i32],
    n: usize,
    m: usize,
    row: &mut [u8],
) -> Result<(), Refusal>
    requires standing { Standing atoms.old bonds.old n m }
    requires row_value { row.old ≡ replicate max_bonds 0 }
    ensures { Settled atoms.old bonds.old n m result atoms.new bonds.new row.new }
{
    let _ = kekule::call_valid(Call::First, Tables { atoms, bonds, n, m }, row);
    settle_by(atoms, bonds, n, m, row)
}

// A molecule that was read: kekulized by its first matching, which the row has, and its text.
fn kekulize_first(
    atoms: &mut [i32],
    bonds: &mut [i32],
    counts: Counts,
    row: &[u8],
    out: &mut [u8],
) -> Result<Written, TextRefusal>
    requires held { Held atoms.old bonds.old counts.atoms counts.bonds }
    requires has_first { HasFirst atoms.old bonds.old counts.atoms counts.bonds row.now }
    requires max_text_in_bounds { max_text ≤ length out.old }
    ensures { told result out.new ≡ molecule_of atoms.old bonds.old counts.atoms counts.bonds counts.overfull out.old }
{
    let Counts {
        atoms: n,
        bonds: m,
        overfull,
    } = counts;
    let c = settle_by(atoms, bonds, n, m, row);
    match c {
        Ok(()) => write_kekulized(Tables { atoms, bonds, n, m }, overfull, out),
        Err(r) => refuse(r, 0, out),
    }
}

// The text of a text, by way of zeroed tables that are long enough for it.
fn standardize_in(
    text: &[u8],
    atoms: &mut [i32],
    bonds: &mut [i32],
    out: &mut [u8],
) -> Result<Written, TextRefusal>
    requires readable { Readable text.now atoms.old bonds.old }
    requires max_text_in_bounds { max_text ≤ length out.old }
    ensures { told result out.new ≡ standard_of text.now out.old }
{
    let mut row = [0u8; MAX_BONDS];
    let a = reader::read_row(text, atoms, bonds, &mut row);
    match a {
        Err(e) => refuse(e.refusal, e.at, out),
        Ok(counts) => kekulize_first(atoms, bonds, counts, &row, out),
    }
}

// The same with tables that are long enough for any text.
fn standardize_long(text: &[u8], out: &mut [u8]) -> Result<Written, TextRefusal>
    requires { max_text ≤ length out.old }
    ensures { told result out.new ≡ standard_of text.now out.old }
{
    let mut atoms = [0i32; ATOM_CELLS * MAX_ATOMS];
    let mut bonds = [0i32; BOND_CELLS * MAX_BONDS];
    standardize_in(text, &mut atoms, &mut bonds, out)
}

// Reads a text, kekulizes it by its first matching and writes it: the counts of atoms, of bonds and of over-full atoms outside brackets, and the
// length of the text, whose bytes the output holds, and zeros after them; or the first refusal among these, with its place, which is 0 after reading.
// An output that is too short (1) stays as it was; every other refusal leaves it zeroed. A short text has no more atoms and bonds than bytes.
pub fn standardize(text: &[u8], out: &mut [u8]) -> Result<Written, TextRefusal>
    ensures { told result out.new ≡ standard_of text.now out.old }
{
    if out.len() < MAX_TEXT {
        return Err(TextRefusal {
            refusal: Refusal::Short,
            at: 0,
        });
    }
    if SMALL < text.len() {
        return standardize_long(text, out);
    }
    let mut atoms = [0i32; ATOM_CELLS * SMALL];
    let mut bonds = [0i32; BOND_CELLS * SMALL];
    standardize_in(text, &mut atoms, &mut bonds, out)
}
