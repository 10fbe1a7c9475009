// The public calls on tables: the first matching, the next one, whether a row is a matching, kekulizing by a row, and a list of calls.
#![tactic(auto)]

ghost use Rattle.std.specs.Prelude.{◌≡◌, ◌≤◌, List, length, replicate, ℤ, Ok};
ghost use Rattle.table.specs.Limits.{max_atoms, max_bonds};
ghost use Rattle.table.specs.Valid.{Valid, check_code};
ghost use Rattle.matching.specs.Enumeration.{row_call, zeroed};
ghost use Rattle.matching.specs.Model.{reply};
ghost use Rattle.table_graph.specs.Graph.{matching_of};
ghost use Rattle.table_graph.specs.Built.{Prepared, Room};
ghost use Rattle.kekule.specs.First.{FirstIn};
ghost use Rattle.kekule.specs.Kekule.{Admitted, out, call_reply_of, roomy, call_on, all_zero, is_matching_of, asked_of, tables, kekulized, kekulized_of, Counted};
ghost use Rattle.kekule.specs.Calls.{calls_state, ran_of, replayed, Replays};

use ids::{BondId, SMALL};
use kekule_answers::{Handed, call_of, found_code, found_of, is_given};
use matching::{Call, EndTables, Links, MatchingAnswer};
use refusal::Refusal;
use table::{MAX_ATOMS, MAX_BONDS, Tables};

// The tables and a row of a length are as long as they have to be.
fn roomy(atoms: &[i32], bonds: &[i32], len: usize) -> bool
    ensures { result ≡ roomy atoms.now bonds.now len }
{
    (MAX_BONDS <= len) & table_validity::enough(atoms, bonds)
}

// The search for one of the two calls, on the graph of valid tables with at most N atoms and M bonds.
fn search_sized<const N: usize, const M: usize>(
    c: Call,
    tables: Tables,
    row: &mut [u8],
) -> MatchingAnswer
    requires valid { Valid tables.atoms.now tables.bonds.now tables.n tables.m }
    requires m_in_bounds { tables.m ≤ length row.old }
    requires sized { ((tables.n ≤ N) × (tables.m ≤ M)) × ((N ≤ max_atoms) × (M ≤ max_bonds)) }
    ensures { reply result row.new ≡ row_call (matching_of tables.entry.atoms.now tables.entry.bonds.now tables.entry.n tables.entry.m) tables.entry.m c row.old }
{
    let mut flags = [0u8; N];
    let mut first = [0u16; M];
    let mut second = [0u16; M];
    let mut elided = [0u8; M];
    let mut sums = [0u16; N];
    table_graph::build(
        tables,
        &mut flags,
        &mut first,
        &mut second,
        &mut elided,
        &mut sums,
    );
    let Tables { n, m, .. } = tables;
    let links = Links {
        ends: EndTables {
            first: &first[..m],
            second: &second[..m],
        },
        elided: &elided[..m],
    };
    // Stays: which call it is, is a value that definitions take (`row_call`), and a list of calls is a list of them.
    match c {
        Call::First => matching_engine::first(links, &mut flags[..n], row),
        Call::Next => matching_engine::next(links, &mut flags[..n], row),
    }
}

// The search for one of the two calls, on the graph of valid tables.
fn search_graph(c: Call, tables: Tables, row: &mut [u8]) -> MatchingAnswer
    requires valid { Valid tables.atoms.now tables.bonds.now tables.n tables.m }
    requires m_in_bounds { tables.m ≤ length row.old }
    ensures { reply result row.new ≡ row_call (matching_of tables.entry.atoms.now tables.entry.bonds.now tables.entry.n tables.entry.m) tables.entry.m c row.old }
{
    if tables.n <= SMALL && tables.m <= SMALL {
        return search_sized::<SMALL, SMALL>(c, tables, row);
    }
    search_sized::<MAX_ATOMS, MAX_BONDS>(c, tables, row)
}

// A zeroed row, which is the matching asked for.
fn give_zeros(row: &mut [u8]) -> MatchingAnswer
    ensures { reply result row.new ≡ zeroed (length row.old) MatchingAnswer.Given }
{
    matching_search::clear(row, BondId(0));
    MatchingAnswer::Given
}

// The first matching of valid tables: zeros where no atom is selected, and there no graph is built.
fn ask_first(tables: Tables, row: &mut [u8]) -> MatchingAnswer
    requires valid { Valid tables.atoms.now tables.bonds.now tables.n tables.m }
    requires m_in_bounds { tables.m ≤ length row.old }
    ensures { reply result row.new ≡ row_call (matching_of tables.entry.atoms.now tables.entry.bonds.now tables.entry.n tables.entry.m) tables.entry.m Call.First row.old }
{
    let Tables { atoms, n, .. } = tables;
    if table_graph::none_selected(atoms, n) {
        return give_zeros(row);
    }
    search_graph(Call::First, tables, row)
}

// One of the two calls, on valid tables.
fn ask(c: Call, tables: Tables, row: &mut [u8]) -> MatchingAnswer
    requires valid { Valid tables.atoms.now tables.bonds.now tables.n tables.m }
    requires m_in_bounds { tables.m ≤ length row.old }
    ensures { reply result row.new ≡ row_call (matching_of tables.entry.atoms.now tables.entry.bonds.now tables.entry.n tables.entry.m) tables.entry.m c row.old }
{
    // Stays: which call it is, is a value that definitions take (`row_call`), and a list of calls is a list of them.
    match c {
        Call::First => ask_first(tables, row),
        Call::Next => search_graph(Call::Next, tables, row),
    }
}

// internal: one of the two calls on valid tables, for callers that know them valid.
pub fn call_valid(c: Call, tables: Tables, row: &mut [u8]) -> Result<Handed, Refusal>
    requires valid { Valid tables.atoms.now tables.bonds.now tables.n tables.m }
    requires m_in_bounds { tables.m ≤ length row.old }
    ensures { out result row.new ≡ call_reply_of (row_call (matching_of tables.entry.atoms.now tables.entry.bonds.now tables.entry.n tables.entry.m) tables.entry.m c row.old) }
{
    found_of(ask(c, tables, row))
}

// The first matching of valid tables, from what one pass over their bonds left, with a buffer for the flags.
fn search_wired(
    atoms: &[i32],
    n: usize,
    m: usize,
    sums: &[u16],
    ea: &[u16],
    eb: &[u16],
    el: &[u8],
    flags: &mut [u8],
    row: &mut [u8],
) -> MatchingAnswer
    requires n_in_bounds { (n ≤ length flags.old) × (m ≤ length row.old) }
    requires prepared { (bonds : List ℤ) × Prepared atoms.now bonds n m sums.now ea.now eb.now el.now }
    ensures { (bonds : List ℤ) → Prepared atoms.now bonds n m sums.now ea.now eb.now el.now → reply result row.new ≡ row_call (matching_of atoms.now bonds n m) m Call.First row.old }
{
    if table_graph::none_selected(atoms, n) {
        return give_zeros(row);
    }
    table_graph::fill_flags(atoms, sums, n, flags);
    matching_engine::first(
        Links {
            ends: EndTables {
                first: &ea[..m],
                second: &eb[..m],
            },
            elided: &el[..m],
        },
        &mut flags[..n],
        row,
    )
}

// internal: whether valid tables have a matching, from what one pass over their bonds left; the row gets the first. A buffer is lent for the flags.
pub fn first_wired(
    atoms: &[i32],
    n: usize,
    m: usize,
    sums: &[u16],
    ea: &[u16],
    eb: &[u16],
    el: &[u8],
    flags: &mut [u8],
    row: &mut [u8],
) -> bool
    requires n_in_bounds { (n ≤ length flags.old) × (m ≤ length row.old) }
    requires prepared { (bonds : List ℤ) × Prepared atoms.now bonds n m sums.now ea.now eb.now el.now }
    ensures { (bonds : List ℤ) → Prepared atoms.now bonds n m sums.now ea.now eb.now el.now → FirstIn atoms.now bonds n m row.old result row.new }
{
    let answer = search_wired(atoms, n, m, sums, ea, eb, el, flags, row);
    is_given(found_of(answer))
}

// internal: the refusals 1 and 13 of a call for a matching, whichever engine searches: where neither is due, nothing changes.
pub fn admit(tables: Tables, row: &mut [u8]) -> Result<(), Refusal>
    ensures { Admitted tables.entry.atoms.now tables.entry.bonds.now tables.entry.n tables.entry.m row.old result row.new }
{
    let Tables { atoms, bonds, .. } = tables;
    if !roomy(atoms, bonds, row.len()) {
        return Err(Refusal::Short);
    }
    if !table_validity::sound(tables) {
        matching_search::clear(row, BondId(0));
        return Err(Refusal::Invalid);
    }
    Ok(())
}

// One of the two calls: refusals 1 and 13, then the search.
fn call(c: Call, tables: Tables, row: &mut [u8]) -> Result<Handed, Refusal>
    ensures { out result row.new ≡ call_on c tables.entry.atoms.now tables.entry.bonds.now tables.entry.n tables.entry.m row.old }
{
    admit(tables, row)?;
    call_valid(c, tables, row)
}

// The first matching of a molecule, into the row up to the last bond; the rest of the row is zeroed. 1: a table or the row is
// too short, and nothing changes. 13: the tables are not valid, 11: there is no matching, and the row is zeroed.
pub fn first(tables: Tables, row: &mut [u8]) -> Result<Handed, Refusal>
    ensures { out result row.new ≡ call_on Call.First tables.entry.atoms.now tables.entry.bonds.now tables.entry.n tables.entry.m row.old }
{
    call(Call::First, tables, row)
}

// The matching after the one that the row holds up to the last bond, into the row; the rest of the row is zeroed. 1: a table or
// the row is too short, and nothing changes. 13: the tables are not valid, 12: the row is no matching, or End: none follows,
// and the row is zeroed.
pub fn next(tables: Tables, row: &mut [u8]) -> Result<Handed, Refusal>
    ensures { out result row.new ≡ call_on Call.Next tables.entry.atoms.now tables.entry.bonds.now tables.entry.n tables.entry.m row.old }
{
    call(Call::Next, tables, row)
}

// Whether the first m cells of a row are 0.
fn all_zero(row: &[u8], m: usize) -> bool
    requires { m ≤ length row.now }
    ensures { result ≡ all_zero m row.now }
{
    for i in 0..m {
        if row[i] != 0 {
            return false;
        }
    }
    true
}

// Whether the row is a matching of valid tables with at most N atoms and M bonds.
fn fits_sized<const N: usize, const M: usize>(tables: Tables, row: &[u8]) -> bool
    requires valid { Valid tables.atoms.now tables.bonds.now tables.n tables.m }
    requires m_in_bounds { tables.m ≤ length row.now }
    requires sized { ((tables.n ≤ N) × (tables.m ≤ M)) × ((N ≤ max_atoms) × (M ≤ max_bonds)) }
    ensures { result ≡ is_matching_of tables.entry.atoms.now tables.entry.bonds.now tables.entry.n tables.entry.m row.now }
{
    let mut flags = [0u8; N];
    let mut first = [0u16; M];
    let mut second = [0u16; M];
    let mut elided = [0u8; M];
    let mut sums = [0u16; N];
    table_graph::build(
        tables,
        &mut flags,
        &mut first,
        &mut second,
        &mut elided,
        &mut sums,
    );
    let Tables { n, m, .. } = tables;
    let links = Links {
        ends: EndTables {
            first: &first[..m],
            second: &second[..m],
        },
        elided: &elided[..m],
    };
    matching_search::fits(links, &mut flags[..n], row)
}

// internal: whether the row is a matching of valid tables, for callers that know them valid.
pub fn is_matching_valid(tables: Tables, row: &[u8]) -> bool
    requires valid { Valid tables.atoms.now tables.bonds.now tables.n tables.m }
    requires m_in_bounds { tables.m ≤ length row.now }
    ensures { result ≡ is_matching_of tables.entry.atoms.now tables.entry.bonds.now tables.entry.n tables.entry.m row.now }
{
    let Tables { atoms, n, m, .. } = tables;
    if table_graph::none_selected(atoms, n) {
        return all_zero(row, m);
    }
    if n <= SMALL && m <= SMALL {
        return fits_sized::<SMALL, SMALL>(tables, row);
    }
    fits_sized::<MAX_ATOMS, MAX_BONDS>(tables, row)
}

// Whether the row, up to the last bond, is a matching of the molecule; nothing changes. 1: a table or the row is too short,
// 13: the tables are not valid, 12: the row is no matching.
pub fn is_matching(tables: Tables, row: &[u8]) -> Result<(), Refusal>
    ensures { check_code result ≡ asked_of tables.entry.atoms.now tables.entry.bonds.now tables.entry.n tables.entry.m row.now }
{
    let Tables { atoms, bonds, .. } = tables;
    if !roomy(atoms, bonds, row.len()) {
        return Err(Refusal::Short);
    }
    if !table_validity::sound(tables) {
        return Err(Refusal::Invalid);
    }
    if is_matching_valid(tables, row) {
        return Ok(());
    }
    Err(Refusal::NotMatching)
}

// internal: kekulizes valid tables by a row known to be a matching.
pub fn kekulize_valid(atoms: &mut [i32], bonds: &mut [i32], n: usize, m: usize, row: &[u8])
    requires { Counted n m row.now }
    ensures { tables (Ok tt) atoms.new bonds.new ≡ kekulized atoms.old bonds.old n m row.now }
{
    table_edits::kekulize::unselect_atoms(atoms, n);
    table_edits::kekulize::double_bonds(bonds, m, row);
}

// Kekulizes a molecule in its tables by a row: the row's bonds become kind 2 and every selected cell 0. 1: a table or the row
// is too short, 13: the tables are not sound, 12: the row is no matching, 20: marks would place two neighbours of an end of a
// new double bond on the same side; a refusal changes nothing.
pub fn kekulize(
    atoms: &mut [i32],
    bonds: &mut [i32],
    n: usize,
    m: usize,
    row: &[u8],
) -> Result<(), Refusal>
    ensures { tables result atoms.new bonds.new ≡ kekulized_of atoms.old bonds.old n m row.now }
{
    if !roomy(atoms, bonds, row.len()) {
        return Err(Refusal::Short);
    }
    let tables = Tables { atoms, bonds, n, m };
    if !table_validity::sound(tables) {
        return Err(Refusal::Invalid);
    }
    if !is_matching_valid(tables, row) {
        return Err(Refusal::NotMatching);
    }
    if !table_marks::none_crowded_by(bonds, m, row) {
        return Err(Refusal::CrowdedEnd);
    }
    kekulize_valid(atoms, bonds, n, m, row);
    Ok(())
}

// Makes the calls one after the other on a row, and stores the code of each answer.
fn run_calls(calls: &[u8], tables: Tables, row: &mut [u8], codes: &mut [u8])
    requires { length calls.now ≤ length codes.old }
    ensures { calls_state row.new codes.new ≡ ran_of calls.now tables.entry.atoms.now tables.entry.bonds.now tables.entry.n tables.entry.m row.old codes.old }
{
    for i in 0..calls.len() {
        let c = call_of(calls[i]);
        codes[i] = found_code(call(c, tables, row));
    }
}

// Makes a list of calls on a row, 0 for the first matching and any other byte for the next. Every answer, and the row after
// every call, are those of the molecule's enumeration; handed back are the codes of the answers and the row after the last.
// Where a table or the row is too short each code is 1 and the row stays. 1: there is no cell for each code, and nothing
// changes; the cells past the codes are zeroed.
pub fn replay(calls: &[u8], tables: Tables, row: &mut [u8], codes: &mut [u8]) -> Result<(), Refusal>
    ensures { Replays calls.now tables.entry.atoms.now tables.entry.bonds.now tables.entry.n tables.entry.m row.old codes.old (replayed result row.new codes.new) }
{
    if codes.len() < calls.len() {
        return Err(Refusal::Short);
    }
    run_calls(calls, tables, row, codes);
    buffer::clear_from(codes, calls.len());
    Ok(())
}
