// Reading a text into an atom table and a bond table.
#![tactic(auto)]

ghost use Rattle.std.specs.Prelude.{◌≡◌, true, List, ◌≤◌, length, replicate, ℤ};
ghost use Rattle.table.specs.Limits.{max_atoms, max_bonds};
ghost use Rattle.table.specs.Valid.{enough};
ghost use Rattle.ids.specs.Limits.{max_text, bridges};
ghost use Rattle.reading_state.specs.State.{key_count};
ghost use Rattle.reading.specs.Read.{zeros, read_of};
ghost use Rattle.reading_short.specs.Short.{read_into};
ghost use Rattle.reader.specs.Outcome.{outcome};
ghost use Rattle.reader.specs.Ending.{told, Ready, Blank, TextRead};
ghost use Rattle.reader.specs.Chosen.{Chosen};

use crate::answer::{Counts, TextRefusal};
use crate::piece::{Joint, Start};
use crate::sequence::{PartRead, sequence};
use ids::{BRIDGES, MAX_TEXT};
use reading_state::{KEYS, State};
use refusal::Refusal;
use table::{MAX_ATOMS, MAX_BONDS};
use table_edits::clear;

pub mod answer;
pub mod atom;
pub mod bridge;
pub mod ending;
pub mod piece;
pub mod sequence;

// The whole text, into zeroed tables, with zeroed arrays beside the state: empty, or one sequence.
fn read_text(
    text: &[u8],
    atoms: &mut [i32],
    bonds: &mut [i32],
    outsides: &mut [u8; MAX_ATOMS],
    offsets: &mut [u16; BRIDGES],
    keys: &mut [u16; KEYS],
) -> Result<PartRead, TextRefusal>
    requires text_len_bound { length text.now ≤ max_text }
    requires offsets_value { (offsets.old ≡ replicate bridges 0) × (outsides.old ≡ replicate max_atoms 0) × (keys.old ≡ replicate key_count 0) }
    ensures { TextRead text.now atoms.old bonds.old atoms.new bonds.new (outcome result offsets.new outsides.new keys.new) }
{
    let st = State::new();
    if text.len() == 0 {
        return Ok(PartRead { at: 0, st });
    }
    let joint = Joint::Elided;
    let start = Start { joint, at: 0 };
    let o = sequence(text, start, st, atoms, bonds, outsides, offsets, keys)?;
    if o.at < text.len() {
        return Err(TextRefusal {
            refusal: Refusal::Grammar,
            at: o.at,
        });
    }
    Ok(o)
}

// internal: reads a text into tables that are zeroed and long enough for it, for callers that know them so; the row gets the first matching of a molecule.
pub fn read_row(
    text: &[u8],
    atoms: &mut [i32],
    bonds: &mut [i32],
    row: &mut [u8],
) -> Result<Counts, TextRefusal>
    requires ready { Ready text.now atoms.old bonds.old }
    requires max_bonds_in_bounds { max_bonds ≤ length row.old }
    ensures bonds_after { (a b : List ℤ) → atoms.old ≡ zeros a → bonds.old ≡ zeros b → told result atoms.new bonds.new ≡ read_into text.now a b }
    ensures chosen { Chosen result atoms.new bonds.new row.old row.new }
{
    if MAX_TEXT < text.len() {
        return Err(TextRefusal {
            refusal: Refusal::LongText,
            at: MAX_TEXT,
        });
    }
    let mut outsides = [0u8; MAX_ATOMS];
    let mut offsets = [0u16; BRIDGES];
    let mut keys = [0u16; KEYS];
    match read_text(text, atoms, bonds, &mut outsides, &mut offsets, &mut keys) {
        Ok(o) => ending::end_row(o.st, &offsets, &outsides, &mut keys, atoms, bonds, row),
        Err(e) => {
            clear(atoms);
            clear(bonds);
            Err(e)
        }
    }
}

// internal: reads a text into tables that are zeroed and as long as they have to be; the first matching is dropped.
pub fn read_zeroed(text: &[u8], atoms: &mut [i32], bonds: &mut [i32]) -> Result<Counts, TextRefusal>
    requires { Blank atoms.old bonds.old }
    ensures { (a b : List ℤ) → atoms.old ≡ zeros a → bonds.old ≡ zeros b → enough a b ≡ true → told result atoms.new bonds.new ≡ read_of text.now a b }
{
    let mut row = [0u8; MAX_BONDS];
    read_row(text, atoms, bonds, &mut row)
}

// Reads a text: the counts of atoms, of bonds and of over-full atoms outside brackets, the tables holding their rows and zeros after them; or the refusal with its offset,
// 1 to 11 in 01's order, the late checks 20 to 23 before 11. A table that is too short (1) leaves both as they were; every other refusal leaves both zeroed.
pub fn read(text: &[u8], atoms: &mut [i32], bonds: &mut [i32]) -> Result<Counts, TextRefusal>
    ensures { told result atoms.new bonds.new ≡ read_of text.now atoms.old bonds.old }
{
    if !table_validity::enough(atoms, bonds) {
        return Err(TextRefusal {
            refusal: Refusal::Short,
            at: 0,
        });
    }
    clear(atoms);
    clear(bonds);
    read_zeroed(text, atoms, bonds)
}
