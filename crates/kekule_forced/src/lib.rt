// The public calls of the second engine (02, P9) on tables: the first matching with the pairs forced before any choice, and the next one.
#![tactic(auto)]

ghost use Rattle.std.specs.Prelude.{◌≡◌, ◌≤◌, length};
ghost use Rattle.table.specs.Limits.{max_bonds};
ghost use Rattle.table.specs.Valid.{Valid};
ghost use Rattle.matching.specs.Enumeration.{row_call};
ghost use Rattle.matching.specs.Model.{reply};
ghost use Rattle.table_graph.specs.Graph.{matching_of};
ghost use Rattle.kekule_answers.specs.Answers.{found_of, found_code};
ghost use Rattle.kekule.specs.Kekule.{out, call_on};
ghost use Rattle.kekule_forced.specs.Forced.{forced_of, forced_call_reply, with_list, roomy_list, first_forced_on};

use ids::BondId;
use kekule_answers::{Handed, found_of};
use matching::{Call, EndTables, MatchingAnswer};
use matching_forced::ForcedAnswer;
use refusal::Refusal;
use table::{MAX_ATOMS, MAX_BONDS, Tables};

// What the call for the first answers, and how many pairs are forced.
// Stays: the count is handed back with a refusal too, where it is 0.
#[derive(Clone, Copy)]
pub struct ForcedFound {
    pub found: Result<Handed, Refusal>,
    pub count: usize,
}

// The tables, a row and a list of these lengths are as long as they have to be.
fn roomy(atoms: &[i32], bonds: &[i32], len: usize, listed: usize) -> bool
    ensures { result ≡ roomy_list atoms.now bonds.now len listed }
{
    (MAX_BONDS <= len) & table_validity::enough(atoms, bonds) & (MAX_BONDS <= listed)
}

// The first matching of valid tables, and the forced list.
fn first_valid(tables: Tables, row: &mut [u8], pairs: &mut [u16]) -> ForcedAnswer
    requires valid { Valid tables.atoms.now tables.bonds.now tables.n tables.m }
    requires m_in_bounds { (tables.m ≤ length row.old) × (max_bonds ≤ length pairs.old) }
    ensures { forced_call_reply (found_code (found_of result.answer)) row.new result.count pairs.new ≡ with_list (row_call (matching_of tables.entry.atoms.now tables.entry.bonds.now tables.entry.n tables.entry.m) tables.entry.m Call.First row.old) (forced_of tables.entry.atoms.now tables.entry.bonds.now tables.entry.n tables.entry.m) (length pairs.old) }
{
    let Tables { n, m, .. } = tables;
    let mut flags = [0u8; MAX_ATOMS];
    let mut ea = [0u16; MAX_BONDS];
    let mut eb = [0u16; MAX_BONDS];
    let mut el = [0u8; MAX_BONDS];
    let mut sums = [0u16; MAX_ATOMS];
    table_graph::build(tables, &mut flags, &mut ea, &mut eb, &mut el, &mut sums);
    matching_forced::first_forced(
        EndTables {
            first: &ea[..m],
            second: &eb[..m],
        },
        &mut el[..m],
        &mut flags[..n],
        row,
        pairs,
    )
}

// The matching after the row, on valid tables.
// Stays: beside `first_valid`, whose buffers are the same: a function lent the five buffers would only move their declaration, and
// what each does with them differs in its arguments, answer and contract.
fn next_valid(tables: Tables, row: &mut [u8]) -> MatchingAnswer
    requires valid { Valid tables.atoms.now tables.bonds.now tables.n tables.m }
    requires m_in_bounds { tables.m ≤ length row.old }
    ensures { reply result row.new ≡ row_call (matching_of tables.entry.atoms.now tables.entry.bonds.now tables.entry.n tables.entry.m) tables.entry.m Call.Next row.old }
{
    let Tables { n, m, .. } = tables;
    let mut flags = [0u8; MAX_ATOMS];
    let mut ea = [0u16; MAX_BONDS];
    let mut eb = [0u16; MAX_BONDS];
    let mut el = [0u8; MAX_BONDS];
    let mut pairs = [0u16; MAX_BONDS];
    let mut sums = [0u16; MAX_ATOMS];
    table_graph::build(tables, &mut flags, &mut ea, &mut eb, &mut el, &mut sums);
    matching_forced::next_forced(
        EndTables {
            first: &ea[..m],
            second: &eb[..m],
        },
        &mut el[..m],
        &mut flags[..n],
        row,
        &mut pairs,
    )
}

// The first matching of a molecule, as `kekule::first` gives it, and the pairs that are forced before any choice: their bond numbers
// in turn, into the list, whose rest is zeroed, and how many they are. 1: a table, the row or the list is too short, and nothing
// changes. 13: the tables are not valid, 11: there is no matching, and the row and the list are zeroed. The number is 0 for each refusal.
pub fn first_forced(tables: Tables, row: &mut [u8], pairs: &mut [u16]) -> ForcedFound
    ensures { forced_call_reply (found_code result.found) row.new result.count pairs.new ≡ first_forced_on tables.entry.atoms.now tables.entry.bonds.now tables.entry.n tables.entry.m row.old pairs.old }
{
    let Tables { atoms, bonds, .. } = tables;
    let listed = pairs.len();
    if !roomy(atoms, bonds, row.len(), listed) {
        return ForcedFound {
            found: Err(Refusal::Short),
            count: 0,
        };
    }
    if !table_validity::sound(tables) {
        matching_search::clear(row, BondId(0));
        matching_forced::clear_pairs(pairs, 0);
        return ForcedFound {
            found: Err(Refusal::Invalid),
            count: 0,
        };
    }
    let first = first_valid(tables, row, pairs);
    let answer = first.answer;
    ForcedFound {
        found: found_of(answer),
        count: first.count,
    }
}

// The matching after the one that the row holds up to the last bond, as `kekule::next` gives it, into the row; the rest of the row is
// zeroed. 1: a table or the row is too short, and nothing changes. 13: the tables are not valid, 12: the row is no matching, or End:
// none follows, and the row is zeroed.
pub fn next_forced(tables: Tables, row: &mut [u8]) -> Result<Handed, Refusal>
    ensures { out result row.new ≡ call_on Call.Next tables.entry.atoms.now tables.entry.bonds.now tables.entry.n tables.entry.m row.old }
{
    kekule::admit(tables, row)?;
    found_of(next_valid(tables, row))
}
