// Whether two molecules are the same compound, drawn differently (02, P4).
#![tactic(auto)]

ghost use Rattle.std.specs.Prelude.{◌≡◌, ◌≤◌, ltb, length, take, replicate, get_or};
ghost use Rattle.loops.specs.Loop.{pick};
ghost use Rattle.matching.specs.Enumeration.{fill};
ghost use Rattle.same_model.specs.Same.{max_same, molecule, same_of, roomy_both};
ghost use Rattle.same_keys.specs.Keys.{keys_of};
ghost use Rattle.same.specs.Answer.{sameness_code, same_out};
ghost use Rattle.same.specs.Ready.{Ready, Decided};

use ids::BondId;
use refusal::Refusal;
use same_decide::{Drawn, Pair};
use same_place::{CELLS, SIDE};
use table::{MAX_ATOMS, MAX_BONDS, Tables};

// What the call answers.
// Stays: a Result would need a second enum for its two kinds of refusal, and a bool for Same and Different.
#[derive(Clone, Copy)]
pub enum Sameness {
    // Both rows and the renumbering are handed out.
    Same,
    Different,
    // A molecule has more atoms than are compared.
    ManyAtoms,
    Refused(Refusal),
}

// The code of an answer: 0 for the same, 254 for different, 19 for too many atoms, else the refusal's.
pub fn sameness_code(a: Sameness) -> u8
    ensures { result ≡ sameness_code a }
{
    match a {
        Sameness::Same => 0,
        Sameness::Different => 254,
        Sameness::ManyAtoms => 19,
        Sameness::Refused(r) => refusal::code(r),
    }
}

// The tables, rows and renumbering of both molecules are as long as they have to be.
fn roomy(tables1: Tables, tables2: Tables, row1: &[u8], row2: &[u8], ren: &[u16]) -> bool
    ensures { result ≡ roomy_both (molecule tables1.entry.atoms.now tables1.entry.bonds.now 0 0) (molecule tables2.entry.atoms.now tables2.entry.bonds.now 0 0) row1.now row2.now ren.now }
{
    let first = (MAX_BONDS <= row1.len()) & table_validity::enough(tables1.atoms, tables1.bonds);
    let second = (MAX_BONDS <= row2.len()) & table_validity::enough(tables2.atoms, tables2.bonds);
    first & second & (MAX_ATOMS <= ren.len())
}

// The number at a place of the renumbering that was found; 0 past its end.
fn found_at(found: &[u8; SIDE], n: usize, i: usize) -> u16
    requires { n ≤ max_same }
    ensures { result ≡ pick (ltb i n) (get_or found.now i 0) 0 }
{
    if i < n {
        return found[i] as u16;
    }
    0
}

// The renumbering that was found, into the buffer; the rest of it is zeroed.
fn hand_out(found: &[u8; SIDE], n: usize, ren: &mut [u16])
    requires { (n ≤ max_same) × (n ≤ length ren.old) × (n ≤ length found.now) }
    ensures { ren.new ≡ fill (length ren.old) (take n found.now) }
{
    for i in 0..ren.len() {
        ren[i] = found_at(found, n, i);
    }
}

// Whether two molecules of as many atoms as the first, with the keys of their atoms, are the same.
fn decide_keyed(
    keys1: &[u64; SIDE],
    tables1: Tables,
    keys2: &[u64; SIDE],
    tables2: Tables,
    row1: &mut [u8],
    row2: &mut [u8],
    ren: &mut [u16],
) -> bool
    requires ready { Ready (molecule tables1.atoms.now tables1.bonds.now tables1.n tables1.m) row1.old }
    requires ready_2 { Ready (molecule tables2.atoms.now tables2.bonds.now tables1.n tables2.m) row2.old }
    requires keys1_value { (keys1.now ≡ keys_of (molecule tables1.atoms.now tables1.bonds.now tables1.n tables1.m)) × (keys2.now ≡ keys_of (molecule tables2.atoms.now tables2.bonds.now tables1.n tables2.m)) }
    requires n_in_bounds { tables1.n ≤ length ren.old }
    ensures { Decided (molecule tables1.entry.atoms.now tables1.entry.bonds.now tables1.entry.n tables1.entry.m) (molecule tables2.entry.atoms.now tables2.entry.bonds.now tables1.entry.n tables2.entry.m) row1.old row2.old ren.old result row1.new row2.new ren.new }
{
    let n = tables1.n;
    let on = same_keys::scattered(tables1.bonds, n, tables1.m);
    let mut base1 = [0u16; CELLS];
    same_keys::fill_pairs(on, tables1, keys1, &mut base1);
    let mut base2 = [0u16; CELLS];
    same_keys::fill_pairs(on, Tables { n, ..tables2 }, keys2, &mut base2);
    let mut ok = [0u8; CELLS];
    same_drawing::fill_matches(tables1.atoms, keys1, tables2.atoms, keys2, n, &mut ok);
    let pair = Pair {
        first: Drawn {
            base: &base1,
            keys: keys1,
            atoms: tables1.atoms,
            bonds: tables1.bonds,
            m: tables1.m,
        },
        second: Drawn {
            base: &base2,
            keys: keys2,
            atoms: tables2.atoms,
            bonds: tables2.bonds,
            m: tables2.m,
        },
        ok: &ok,
        n,
    };
    let mut found = [0u8; SIDE];
    let yes = same_decide::first_row(pair, row1, row2, &mut found);
    hand_out(&found, n, ren);
    yes
}

// Whether two molecules of as many atoms as the first are the same: not where the keys of their atoms have unequal sums.
fn decide_equal(
    tables1: Tables,
    tables2: Tables,
    row1: &mut [u8],
    row2: &mut [u8],
    ren: &mut [u16],
) -> bool
    requires ready { Ready (molecule tables1.atoms.now tables1.bonds.now tables1.n tables1.m) row1.old }
    requires ready_2 { Ready (molecule tables2.atoms.now tables2.bonds.now tables1.n tables2.m) row2.old }
    requires n_in_bounds { tables1.n ≤ length ren.old }
    ensures { Decided (molecule tables1.entry.atoms.now tables1.entry.bonds.now tables1.entry.n tables1.entry.m) (molecule tables2.entry.atoms.now tables2.entry.bonds.now tables1.entry.n tables2.entry.m) row1.old row2.old ren.old result row1.new row2.new ren.new }
{
    let n = tables1.n;
    let mut keys1 = [0u64; SIDE];
    same_keys::fill_keys(tables1, &mut keys1);
    let mut keys2 = [0u64; SIDE];
    same_keys::fill_keys(Tables { n, ..tables2 }, &mut keys2);
    let sum1 = same_keys::key_sum(&keys1, n);
    let sum2 = same_keys::key_sum(&keys2, n);
    if sum1 != sum2 {
        return false;
    }
    decide_keyed(&keys1, tables1, &keys2, tables2, row1, row2, ren)
}

// Zeros in both rows and in the renumbering.
fn clear_all(row1: &mut [u8], row2: &mut [u8], ren: &mut [u16])
    ensures row1_after { row1.new ≡ replicate (length row1.old) 0 }
    ensures row2_after { row2.new ≡ replicate (length row2.old) 0 }
    ensures ren_after { ren.new ≡ replicate (length ren.old) 0 }
{
    matching_search::clear(row1, BondId(0));
    matching_search::clear(row2, BondId(0));
    let none = [0u8; SIDE];
    hand_out(&none, 0, ren);
}

// Whether two molecules are the same compound, drawn differently: some matching of one and some of the other kekulize to the
// same molecule under some renumbering. Same: the first such row of the first molecule, then of the second, and the smallest
// renumbering, first to second, are handed out; the rest of each is zeroed. Different, ManyAtoms (over 64 atoms in either) and
// 13 (either is not valid) zero all three. 1: a table, a row or the renumbering is too short, and nothing changes.
pub fn same(
    tables1: Tables,
    tables2: Tables,
    row1: &mut [u8],
    row2: &mut [u8],
    ren: &mut [u16],
) -> Sameness
    ensures { same_out result row1.new row2.new ren.new ≡ same_of (molecule tables1.entry.atoms.now tables1.entry.bonds.now tables1.entry.n tables1.entry.m) (molecule tables2.entry.atoms.now tables2.entry.bonds.now tables2.entry.n tables2.entry.m) row1.old row2.old ren.old }
{
    let n1 = tables1.n;
    let n2 = tables2.n;
    if !roomy(tables1, tables2, row1, row2, ren) {
        return Sameness::Refused(Refusal::Short);
    }
    let first = table_validity::sound(tables1);
    let second = table_validity::sound(tables2);
    if !(first & second) {
        clear_all(row1, row2, ren);
        return Sameness::Refused(Refusal::Invalid);
    }
    if !((n1 <= SIDE) & (n2 <= SIDE)) {
        clear_all(row1, row2, ren);
        return Sameness::ManyAtoms;
    }
    if n1 != n2 {
        clear_all(row1, row2, ren);
        return Sameness::Different;
    }
    if decide_equal(tables1, tables2, row1, row2, ren) {
        return Sameness::Same;
    }
    clear_all(row1, row2, ren);
    Sameness::Different
}
