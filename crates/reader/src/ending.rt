// After the last byte: open bridges, hydrogens, the late checks, whether a matching exists, and the marks.
ghost use Rattle.std.specs.Prelude.{◌≡◌, true, not, eqb, length, get_or, replicate, ℕ, ◌≤◌, ◌<◌};
ghost use Rattle.ids.specs.Limits.{bridges, max_text};
ghost use Rattle.loops.specs.Loop.{each};
ghost use Rattle.table_graph.specs.Built.{Room};
ghost use Rattle.table.specs.Limits.{max_atoms, max_bonds};
ghost use Rattle.table.specs.Cells.{mark};
ghost use Rattle.table.specs.Valid.{Valid};
ghost use Rattle.table.specs.Sound.{none_unfit};
ghost use Rattle.table.specs.Orders.{turn_marks};
ghost use Rattle.valence.specs.Valence.{values_of};
ghost use Rattle.reading_state.specs.State.{steering};
ghost use Rattle.refusal.specs.Code.{code_of};
ghost use Rattle.reading.specs.Read.{refused, earlier, leftmost, hydrogenated, text_rank};
ghost use Rattle.reader.specs.Ranks.{first_rank, second_rank, rank_bonds, Rankable};
ghost use Rattle.reader.specs.Filled.{AtomFilled, AtomsFilled, Completed, placed_by};
ghost use Rattle.reader.specs.Ending.{told, ended_of};
ghost use Rattle.reader.specs.Chosen.{Chosen};

use crate::answer::{Counts, TextRefusal};
use ids::{AtomId, BRIDGES, BondId, MAX_TEXT, SMALL};
use reading_state::{KEYS, State};
use refusal::Refusal;
use table::{ELEMENT, HYDROGENS, MARK, MAX_ATOMS, MAX_BONDS, SECOND, SELECTED, Tables, cell};
use table_edits::clear;
use valence::Reached;

// The lower of two offsets of openings; the second counts if its opener is not 0.
fn earlier(p: usize, opener: u16, offset: u16) -> usize
    ensures { result ≡ earlier p opener offset }
{
    if opener == 0 {
        return p;
    }
    let q = offset as usize;
    if q < p {
        return q;
    }
    p
}

// Whether no bridge is open.
fn all_closed(openers: &[u16; BRIDGES]) -> bool
    ensures { result ≡ true → (i : ℕ) → i < bridges → get_or openers.now i 0 ≡ 0 }
{
    let mut closed = true;
    for i in 0..BRIDGES {
        closed = closed & (openers[i] == 0);
    }
    closed
}

// The offset of the leftmost opening; MAX_TEXT where no bridge is open.
fn leftmost(openers: &[u16; BRIDGES], offsets: &[u16; BRIDGES]) -> usize
    ensures { result ≡ leftmost openers.now offsets.now }
{
    if all_closed(openers) {
        return MAX_TEXT;
    }
    let mut p = MAX_TEXT;
    for i in 0..BRIDGES {
        p = earlier(p, openers[i], offsets[i]);
    }
    p
}

// 1 for a bond sum above all targets.
fn overfull(reached: Reached) -> usize
    ensures { result ≡ (values_of reached).overfull }
{
    match reached {
        Reached::Target(_) => 0,
        Reached::NoTarget => 0,
        Reached::AboveAll => 1,
    }
}

// Writes the hydrogens of an atom that stood outside brackets (outside is 1), from its bond sum; answers 1 if it is over-full.
fn hydrogenate_atom(atoms: &mut [i32], a: AtomId, outside: u8, sum: u16) -> usize
    requires { a.0 < max_atoms }
    ensures { AtomFilled outside sum a.0 atoms.old atoms.new result }
{
    if outside != 1 {
        return 0;
    }
    let e = cell::atom_number(atoms, a, ELEMENT);
    let s = cell::atom_number(atoms, a, SELECTED);
    let h = valence::implied(e, s, sum as usize);
    let count = h.count;
    cell::put_atom_cell(atoms, a, HYDROGENS, count as i32);
    let reached = h.reached;
    overfull(reached)
}

// Writes the hydrogens of every atom that stood outside brackets, from the bond sums; answers the number of over-full ones.
fn hydrogenate(n: usize, outsides: &[u8; MAX_ATOMS], sums: &[u16], atoms: &mut [i32]) -> usize
    requires { (n ≤ max_atoms) × (n ≤ length sums.now) }
    ensures { AtomsFilled outsides.now sums.now n atoms.old atoms.new result }
{
    let mut overfull = 0;
    for i in 0..n {
        overfull += hydrogenate_atom(atoms, AtomId(i), outsides[i], sums[i]);
    }
    overfull
}

// Writes the hydrogens, and counts the over-full atoms where a matching exists, in one pass over the bonds, in buffers.
fn complete_in(
    n: usize,
    m: usize,
    outsides: &[u8; MAX_ATOMS],
    atoms: &mut [i32],
    bonds: &[i32],
    flags: &mut [u8],
    ea: &mut [u16],
    eb: &mut [u16],
    el: &mut [u8],
    sums: &mut [u16],
    row: &mut [u8],
) -> Option<usize>
    requires valid { Valid (hydrogenated outsides.now bonds.now m n atoms.old) bonds.now n m }
    requires room { Room n m flags.old ea.old eb.old el.old sums.old }
    requires sums_value { (sums.old ≡ replicate (length sums.old) 0) × (m ≤ length row.old) }
    ensures { Completed outsides.now atoms.old bonds.now n m row.old result atoms.new row.new }
{
    table_graph::wire(bonds, m, ea, eb, el, sums);
    let overfull = hydrogenate(n, outsides, sums, atoms);
    let matchable = kekule::first_wired(atoms, n, m, sums, ea, eb, el, flags, row);
    if matchable {
        return Some(overfull);
    }
    None
}

// The same with buffers for N atoms and M bonds.
fn complete_sized<const N: usize, const M: usize>(
    n: usize,
    m: usize,
    outsides: &[u8; MAX_ATOMS],
    atoms: &mut [i32],
    bonds: &[i32],
    row: &mut [u8],
) -> Option<usize>
    requires valid { Valid (hydrogenated outsides.now bonds.now m n atoms.old) bonds.now n m }
    requires room { (n ≤ N) × (m ≤ M) × (m ≤ length row.old) }
    requires sizes { (N ≤ max_atoms) × (M ≤ max_bonds) }
    ensures { Completed outsides.now atoms.old bonds.now n m row.old result atoms.new row.new }
{
    let mut flags = [0u8; N];
    let mut ea = [0u16; M];
    let mut eb = [0u16; M];
    let mut el = [0u8; M];
    let mut sums = [0u16; N];
    complete_in(
        n, m, outsides, atoms, bonds, &mut flags, &mut ea, &mut eb, &mut el, &mut sums, row,
    )
}

// The same with buffers that are large enough.
fn complete(
    n: usize,
    m: usize,
    outsides: &[u8; MAX_ATOMS],
    atoms: &mut [i32],
    bonds: &[i32],
    row: &mut [u8],
) -> Option<usize>
    requires valid { Valid (hydrogenated outsides.now bonds.now m n atoms.old) bonds.now n m }
    requires m_in_bounds { m ≤ length row.old }
    ensures { Completed outsides.now atoms.old bonds.now n m row.old result atoms.new row.new }
{
    if n <= SMALL && m <= SMALL {
        complete_sized::<SMALL, SMALL>(n, m, outsides, atoms, bonds, row)
    } else {
        complete_sized::<MAX_ATOMS, MAX_BONDS>(n, m, outsides, atoms, bonds, row)
    }
}

// A refusal with its offset; both tables are zeroed.
fn refuse_whole(
    r: Refusal,
    p: usize,
    atoms: &mut [i32],
    bonds: &mut [i32],
) -> Result<Counts, TextRefusal>
    ensures { told result atoms.new bonds.new ≡ refused (code_of r) p atoms.old bonds.old }
{
    clear(atoms);
    clear(bonds);
    Err(TextRefusal { refusal: r, at: p })
}

// Whether one of n atoms is marked.
fn some_marked(atoms: &[i32], n: usize) -> bool
    requires { n ≤ max_atoms }
    ensures { result ≡ not (each (λ a. eqb (mark atoms.now a) 0) 0 n) }
{
    for i in 0..n {
        if cell::atom_number(atoms, AtomId(i), MARK) != 0 {
            return true;
        }
    }
    false
}

// The rank of a bond at its first end, by its key there and its second end.
fn first_rank(key: u16, second: usize) -> u16
    requires { (key ≤ max_text) × (second < max_atoms) }
    ensures { result ≡ first_rank key second }
{
    if key == 0 {
        return (MAX_TEXT + 2 + second) as u16;
    }
    key + 1
}

// The rank of a bond at its second end, by its key there.
fn second_rank(key: u16) -> u16
    requires { key ≤ max_text }
    ensures { result ≡ second_rank key }
{
    if 0 < key {
        return key + 1;
    }
    0
}

// The ranks of m bonds in the text, in place of their keys.
fn rank_bonds(bonds: &[i32], m: usize, keys: &mut [u16; KEYS])
    requires { Rankable bonds.now m keys.old }
    ensures { keys.new ≡ rank_bonds bonds.now m keys.old }
{
    for i in 0..m {
        let p = 2 * i;
        let second = cell::bond_number(bonds, BondId(i), SECOND);
        keys[p] = first_rank(keys[p], second);
        keys[p + 1] = second_rank(keys[p + 1]);
    }
}

// The marks of n atoms as they are stored, from the keys of m bonds, which are used up.
fn store_marks(n: usize, m: usize, keys: &mut [u16; KEYS], atoms: &mut [i32], bonds: &[i32])
    requires valid { Valid atoms.old bonds.now n m }
    requires m_value { (none_unfit atoms.old bonds.now n m ≡ true) × Rankable bonds.now m keys.old }
    ensures { atoms.new ≡ turn_marks (text_rank keys.old bonds.now) bonds.now m n atoms.old }
{
    if !some_marked(atoms, n) {
        return;
    }
    rank_bonds(bonds, m, keys);
    table_orders::turn_marks(atoms, bonds, n, m, keys);
}

// The molecule with its marks as they are stored, or 11 where it has no matching.
fn place(
    overfull: Option<usize>,
    n: usize,
    m: usize,
    keys: &mut [u16; KEYS],
    atoms: &mut [i32],
    bonds: &mut [i32],
) -> Result<Counts, TextRefusal>
    requires valid { Valid atoms.old bonds.old n m }
    requires m_value { (none_unfit atoms.old bonds.old n m ≡ true) × Rankable bonds.old m keys.old }
    ensures { told result atoms.new bonds.new ≡ placed_by overfull (turn_marks (text_rank keys.old bonds.old) bonds.old m n atoms.old) bonds.old n m }
{
    let Some(overfull) = overfull else {
        return refuse_whole(Refusal::Unmatchable, 0, atoms, bonds);
    };
    store_marks(n, m, keys, atoms, bonds);
    Ok(Counts {
        atoms: n,
        bonds: m,
        overfull,
    })
}

// internal: what a text that was read whole answers: 10, a late check's refusal, 11 or the molecule, whose first matching the row gets.
pub fn end_row(
    st: State,
    offsets: &[u16; BRIDGES],
    outsides: &[u8; MAX_ATOMS],
    keys: &mut [u16; KEYS],
    atoms: &mut [i32],
    bonds: &mut [i32],
    row: &mut [u8],
) -> Result<Counts, TextRefusal>
    requires atoms_le_max_atoms { (st.atoms ≤ max_atoms) × (st.bonds ≤ max_bonds) }
    requires valid { Valid (hydrogenated outsides.now bonds.old st.bonds st.atoms atoms.old) bonds.old st.atoms st.bonds }
    requires rankable { Rankable bonds.old st.bonds keys.old }
    requires bonds_in_bounds { st.bonds ≤ length row.old }
    ensures bonds_after { told result atoms.new bonds.new ≡ ended_of (steering st offsets.now outsides.now keys.old) atoms.old bonds.old }
    ensures chosen { Chosen result atoms.new bonds.new row.old row.new }
{
    let openers = st.openers;
    let p = leftmost(&openers, offsets);
    if p < MAX_TEXT {
        return refuse_whole(Refusal::OpenBridge, p, atoms, bonds);
    }
    let n = st.atoms;
    let m = st.bonds;
    let overfull = complete(n, m, outsides, atoms, bonds, row);
    match table_validity::late::late_check(Tables { atoms, bonds, n, m }) {
        Ok(()) => place(overfull, n, m, keys, atoms, bonds),
        Err(r) => refuse_whole(r, 0, atoms, bonds),
    }
}

// internal: the same, and the first matching is dropped.
pub fn end(
    st: State,
    offsets: &[u16; BRIDGES],
    outsides: &[u8; MAX_ATOMS],
    keys: &mut [u16; KEYS],
    atoms: &mut [i32],
    bonds: &mut [i32],
) -> Result<Counts, TextRefusal>
    requires atoms_le_max_atoms { (st.atoms ≤ max_atoms) × (st.bonds ≤ max_bonds) }
    requires valid { Valid (hydrogenated outsides.now bonds.old st.bonds st.atoms atoms.old) bonds.old st.atoms st.bonds }
    requires rankable { Rankable bonds.old st.bonds keys.old }
    ensures { told result atoms.new bonds.new ≡ ended_of (steering st offsets.now outsides.now keys.old) atoms.old bonds.old }
{
    let mut row = [0u8; MAX_BONDS];
    end_row(st, offsets, outsides, keys, atoms, bonds, &mut row)
}
