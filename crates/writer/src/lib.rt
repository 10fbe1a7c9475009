// Writing: the public call, and the bytes of a walk.
#![tactic(auto)]

ghost use Rattle.std.specs.Prelude.{◌≡◌, true, List, ◌++◌, ◌+◌, ℕ, ◌-◌, ◌<◌, ◌≤◌, length, get_or, take, drop, replicate, ℤ};
ghost use Rattle.loops.specs.Loop.{up_to};
ghost use Rattle.table.specs.Limits.{max_atoms, max_bonds};
ghost use Rattle.ids.specs.Limits.{max_text};
ghost use Rattle.ids.specs.Small.{small};
ghost use Rattle.writing_bridges.specs.Unused.{BondRoom};
ghost use Rattle.writing.specs.Write.{write_valid, write_of};
ghost use Rattle.table.specs.Valid.{Valid};
ghost use Rattle.table.specs.Sound.{none_unfit};
ghost use Rattle.buffer.specs.Buffer.{buffer_at};
ghost use Rattle.writer.specs.Told.{Held, Counted, Drawn, told};

use ids::{MAX_TEXT, SMALL};
use refusal::Refusal;
use table::{MAX_ATOMS, MAX_BONDS, Tables};
use writing_bridges::unused::UnusedBonds;
use writing_visit::{Trail, Wiring};

pub mod emit;
pub mod nest;

// Room for a number for each atom of a small molecule, and one more; and of any.
const SMALL_ROOM: usize = SMALL + 1;

const ROOM: usize = MAX_ATOMS + 1;

// The text of a walk that stands in arrays, into a buffer from its start: its length; or 14 or 15. Five arrays are for the bonds that the walk does not use and the last child of each atom.
fn draw(
    atoms: &[i32],
    n: usize,
    m: usize,
    trail: Trail,
    wiring: Wiring,
    sums: &[u16],
    written: &[u8],
    los: &mut [u16],
    his: &mut [u16],
    kinds: &mut [u8],
    marks: &mut [u16],
    last: &mut [u16],
    out: &mut [u8],
) -> Result<usize, Refusal>
    requires bond_room { BondRoom m los.old his.old kinds.old }
    requires marks_value { (marks.old ≡ replicate (length marks.old) 0) × (n ≤ length marks.old) }
    requires n_in_bounds { n < length last.old }
    requires held { (bonds : List ℤ) × Held atoms.now bonds n m trail.order.now trail.number.now trail.up.now trail.kind.now wiring.first.now wiring.second.now wiring.kinds.now sums.now written.now }
    ensures { (bonds : List ℤ) → Held atoms.now bonds n m trail.entry.order.now trail.entry.number.now trail.entry.up.now trail.entry.kind.now wiring.entry.first.now wiring.entry.second.now wiring.entry.kinds.now sums.now written.now → Drawn atoms.now bonds n m result (buffer_at out.old 0) out.new }
{
    let up = trail.up;
    let count = writing_bridges::unused::unused(wiring, n, m, trail, los, his, kinds, marks);
    nest::last_children(up, n, last);
    let bonds = UnusedBonds {
        los,
        his,
        kinds,
        marks,
        count,
    };
    let Some(end) = emit::emit(atoms, n, trail, last, sums, written, bonds, out) else {
        return Err(Refusal::ManyBridges);
    };
    if !nest::is_shallow(up, last, n) {
        return Err(Refusal::DeepWriting);
    }
    Ok(end)
}

// The text of a molecule with fewer than N atoms and no more than M bonds, into a buffer from its start, and each atom's walk number plus 1: its length; or 14 or 15.
#[inline(never)]
fn text_sized<const N: usize, const M: usize>(
    tables: Tables,
    number: &mut [u16],
    out: &mut [u8],
) -> Result<usize, Refusal>
    requires valid { Valid tables.atoms.now tables.bonds.now tables.n tables.m }
    requires m_value { none_unfit tables.atoms.now tables.bonds.now tables.n tables.m ≡ true }
    requires number_value { (number.old ≡ replicate (length number.old) 0) × (tables.n ≤ length number.old) }
    requires room { (tables.n < N) × (tables.m ≤ M) }
    requires sizes { (N ≤ max_atoms + 1) × (M ≤ max_bonds) }
    ensures said { Drawn tables.entry.atoms.now tables.entry.bonds.now tables.entry.n tables.entry.m result (buffer_at out.old 0) out.new }
    ensures counted { Counted tables.entry.bonds.now tables.entry.n tables.entry.m number.new }
{
    let Tables { atoms, bonds, n, m } = tables;
    let mut order = [0u16; N];
    let mut up = [0u16; N];
    let mut kind = [0u8; N];
    let mut ea = [0u16; M];
    let mut eb = [0u16; M];
    let mut ks = [0u8; M];
    let mut sums = [0u16; N];
    let mut head = [m as u16; N];
    let mut after = [0u16; M];
    let mut behind = [0u16; M];
    writing_visit::walk(
        bonds,
        n,
        m,
        &mut order,
        number,
        &mut up,
        &mut kind,
        &mut ea,
        &mut eb,
        &mut ks,
        &mut sums,
        &mut head,
        &mut after,
        &mut behind,
    );
    let trail = Trail {
        order: &order,
        number,
        up: &up,
        kind: &kind,
    };
    let mut written = [0u8; N];
    writing_marks::turn(tables, trail, &mut written);
    let wiring = Wiring {
        first: &ea,
        second: &eb,
        kinds: &ks,
    };
    let mut los = [0u16; M];
    let mut his = [0u16; M];
    let mut kinds = [0u8; M];
    let mut marks = [0u16; N];
    let mut last = [0u16; N];
    draw(
        atoms, n, m, trail, wiring, &sums, &written, &mut los, &mut his, &mut kinds, &mut marks,
        &mut last, out,
    )
}

// The text of a molecule, into a buffer from its start, and each atom's walk number plus 1: its length; or 14 or 15.
fn text(tables: Tables, number: &mut [u16], out: &mut [u8]) -> Result<usize, Refusal>
    requires valid { Valid tables.atoms.now tables.bonds.now tables.n tables.m }
    requires m_value { none_unfit tables.atoms.now tables.bonds.now tables.n tables.m ≡ true }
    requires number_value { (number.old ≡ replicate (length number.old) 0) × (tables.n ≤ length number.old) }
    ensures said { Drawn tables.entry.atoms.now tables.entry.bonds.now tables.entry.n tables.entry.m result (buffer_at out.old 0) out.new }
    ensures counted { Counted tables.entry.bonds.now tables.entry.n tables.entry.m number.new }
{
    if tables.n <= SMALL && tables.m <= SMALL {
        return text_sized::<SMALL_ROOM, SMALL>(tables, number, out);
    }
    text_sized::<ROOM, MAX_BONDS>(tables, number, out)
}

// Zeros in a renumbering from a place on.
fn clear_numbers(ren: &mut [u16], from: usize)
    requires { from ≤ length ren.old }
    ensures { ren.new ≡ take from ren.old ++ replicate (length ren.old - from) 0 }
{
    ren[from..].fill(0);
}

// The walk numbers of n atoms, from the numbers plus 1.
fn fill_numbers(number: &[u16], n: usize, ren: &mut [u16])
    requires n_in_bounds { (n ≤ length number.now) × (n ≤ length ren.old) }
    requires by_index { (a : ℕ) → a < n → 0 < get_or number.now a 0 }
    ensures { ren.new ≡ up_to (λ a. get_or number.now a 0 - 1) 0 n ++ drop n ren.old }
{
    for a in 0..n {
        ren[a] = number[a] - 1;
    }
}

// The walk numbers of n atoms, and zeros after them.
fn renumber(number: &[u16], n: usize, ren: &mut [u16])
    requires n_in_bounds { (n ≤ length number.now) × (n ≤ length ren.old) }
    requires by_index { (a : ℕ) → a < n → 0 < get_or number.now a 0 }
    ensures { ren.new ≡ up_to (λ a. get_or number.now a 0 - 1) 0 n ++ replicate (length ren.old - n) 0 }
{
    fill_numbers(number, n, ren);
    clear_numbers(ren, n);
}

// Zeros everywhere.
fn clear_all(out: &mut [u8], ren: &mut [u16])
    ensures out_after { out.new ≡ replicate (length out.old) 0 }
    ensures ren_after { ren.new ≡ replicate (length ren.old) 0 }
{
    buffer::clear_from(out, 0);
    clear_numbers(ren, 0);
}

// internal: writes a molecule whose tables are valid: 14, 15 or 16 zero the output and the renumbering.
pub fn write_valid(tables: Tables, out: &mut [u8], ren: &mut [u16]) -> Result<usize, Refusal>
    requires valid { Valid tables.atoms.now tables.bonds.now tables.n tables.m }
    requires m_value { none_unfit tables.atoms.now tables.bonds.now tables.n tables.m ≡ true }
    requires max_text_in_bounds { (max_text ≤ length out.old) × (max_atoms ≤ length ren.old) }
    ensures { told result out.new ren.new ≡ write_valid tables.entry.atoms.now tables.entry.bonds.now tables.entry.n tables.entry.m out.old ren.old }
{
    let mut number = [0u16; MAX_ATOMS];
    let at = match text(tables, &mut number, &mut out[..MAX_TEXT]) {
        Ok(size) => size,
        Err(refusal) => {
            clear_all(out, ren);
            return Err(refusal);
        }
    };
    if MAX_TEXT < at {
        clear_all(out, ren);
        return Err(Refusal::LongWriting);
    }
    buffer::clear_from(out, at);
    renumber(&number, tables.n, ren);
    Ok(at)
}

// Writes a molecule as text, with the walk number of each atom. 1 changes nothing; 13, 14, 15 and 16 zero the output and the renumbering; the text's length otherwise, and zeros after the text and the numbers.
pub fn write(tables: Tables, out: &mut [u8], ren: &mut [u16]) -> Result<usize, Refusal>
    ensures { told result out.new ren.new ≡ write_of tables.entry.atoms.now tables.entry.bonds.now tables.entry.n tables.entry.m out.old ren.old }
{
    let Tables { atoms, bonds, .. } = tables;
    if !table_validity::enough(atoms, bonds) {
        return Err(Refusal::Short);
    }
    if out.len() < MAX_TEXT {
        return Err(Refusal::Short);
    }
    if ren.len() < MAX_ATOMS {
        return Err(Refusal::Short);
    }
    if !table_validity::sound(tables) {
        clear_all(out, ren);
        return Err(Refusal::Invalid);
    }
    write_valid(tables, out, ren)
}
