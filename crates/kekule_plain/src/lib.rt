// The two calls for matchings by the plain engine, exported for measuring: what the other engines are compared with. Their answers are
// those of `kekule::first` and `next`, but the time may grow exponentially.
#![tactic(auto)]

ghost use Rattle.std.specs.Prelude.{◌≡◌, ◌≤◌, length};
ghost use Rattle.table.specs.Valid.{Valid};
ghost use Rattle.matching.specs.Enumeration.{row_call};
ghost use Rattle.matching.specs.Model.{reply};
ghost use Rattle.table_graph.specs.Graph.{matching_of};
ghost use Rattle.kekule.specs.Kekule.{call_reply, out, call_on};

use kekule_answers::{Handed, found_code, found_of};
use matching::{Call, EndTables, Links, MatchingAnswer};
use refusal::Refusal;
use table::{MAX_ATOMS, MAX_BONDS, Tables};

// The search for one of the two calls, on the graph of valid tables.
// Stays: beside the like function of `kekule`, which takes smaller buffers for small molecules and another engine: what both share is the
// call that builds the graph.
fn search_graph(c: Call, tables: Tables, row: &mut [u8]) -> MatchingAnswer
    requires valid { Valid tables.atoms.now tables.bonds.now tables.n tables.m }
    requires m_in_bounds { tables.m ≤ length row.old }
    ensures { reply result row.new ≡ row_call (matching_of tables.entry.atoms.now tables.entry.bonds.now tables.entry.n tables.entry.m) tables.entry.m c row.old }
{
    let Tables { n, m, .. } = tables;
    let mut flags = [0u8; MAX_ATOMS];
    let mut ea = [0u16; MAX_BONDS];
    let mut eb = [0u16; MAX_BONDS];
    let mut el = [0u8; MAX_BONDS];
    let mut sums = [0u16; MAX_ATOMS];
    table_graph::build(tables, &mut flags, &mut ea, &mut eb, &mut el, &mut sums);
    let links = Links {
        ends: EndTables {
            first: &ea[..m],
            second: &eb[..m],
        },
        elided: &el[..m],
    };
    // Stays: which call it is, is a value that definitions take (`row_call`), and a list of calls is a list of them.
    match c {
        Call::First => matching_search::first(links, &mut flags[..n], row),
        Call::Next => matching_search::next(links, &mut flags[..n], row),
    }
}

// One of the two calls: refusals 1 and 13, then the search.
fn call(c: Call, tables: Tables, row: &mut [u8]) -> Result<Handed, Refusal>
    ensures { out result row.new ≡ call_on c tables.entry.atoms.now tables.entry.bonds.now tables.entry.n tables.entry.m row.old }
{
    kekule::admit(tables, row)?;
    found_of(search_graph(c, tables, row))
}

// One of the two calls, answered by its code.
fn ask(c: Call, tables: Tables, row: &mut [u8]) -> u32
    ensures { call_reply result row.new ≡ call_on c tables.entry.atoms.now tables.entry.bonds.now tables.entry.n tables.entry.m row.old }
{
    found_code(call(c, tables, row)) as u32
}

// internal: the first matching, into the row: 0, 1, 13 or 11.
#[unsafe(no_mangle)]
pub extern "C" fn balsa_plain_first(
    atoms: &[i32],
    bonds: &[i32],
    n: usize,
    m: usize,
    row: &mut [u8],
) -> u32
    ensures { call_reply result row.new ≡ call_on Call.First atoms.now bonds.now n m row.old }
{
    ask(Call::First, Tables { atoms, bonds, n, m }, row)
}

// internal: the next matching, into the row: 0, 255 for the end, 1, 13 or 12.
#[unsafe(no_mangle)]
pub extern "C" fn balsa_plain_next(
    atoms: &[i32],
    bonds: &[i32],
    n: usize,
    m: usize,
    row: &mut [u8],
) -> u32
    ensures { call_reply result row.new ≡ call_on Call.Next atoms.now bonds.now n m row.old }
{
    ask(Call::Next, Tables { atoms, bonds, n, m }, row)
}
