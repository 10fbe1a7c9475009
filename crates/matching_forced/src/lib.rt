// Pairs that are forced before any choice, and the engine that forces at every turn (02, P9): "none" where an unpaired atom has no
// free bond; else, while one has exactly one, the lowest of them is paired; only what is left is searched, under a budget, and where
// that is spent the certified search answers. Every function here is internal: the calls on molecules check what is asked of the tables.
#![tactic(auto)]

ghost use Rattle.std.specs.Prelude.{◌≡◌, true, false, [], ◌++◌, ℕ, ◌-◌, ◌<◌, ◌≤◌, length, take, replicate, get_or};
ghost use Rattle.matching.specs.Enumeration.{row_next};
ghost use Rattle.matching.specs.Graph.{is_matching};
ghost use Rattle.matching.specs.Limits.{max_atoms, max_bonds};
ghost use Rattle.matching.specs.Model.{BondTables, Ends, Shape, Searched, bonds_of, reply};
ghost use Rattle.matching_engine.specs.Tried.{Tried};
ghost use Rattle.matching_forced.specs.Forced.{free_of, free_bond, lowest};
ghost use Rattle.matching_forced.specs.Steps.{bumped, raised, with_count, Counts, LowestAtom, LowestBond, ForcedBond, Turned, Roomy, Filled, ones, zeros, undone, Ones, lowest_free, Chosen, off, all_of, taken_of, left_of, later_of, later_with, is_of, FirstReply};

use ids::{AtomId, BondId, MAX_ATOMS};
use matching::{EndTables, Links, MatchingAnswer};
use matching_engine::GaveUp;

// How many pairs the search may make before it gives up.
const BUDGET: usize = 2000;

// What a turn of the rule gives.
// Stays: three ways, each with its name; a Result of an Option says no more and hides which is which.
#[derive(Clone, Copy)]
pub enum Turn {
    // An unpaired atom has no free bond: there is no matching.
    Stuck,
    // No unpaired atom has exactly one: nothing is forced.
    Rests,
    // The only free bond of the lowest atom that has exactly one.
    Pair(BondId),
}

// The pairs that were forced: how many, and whether an atom is stuck after them.
// Stays: the count is told in both cases, to take the pairs back.
#[derive(Clone, Copy)]
pub struct Forcing {
    pub count: usize,
    pub stuck: bool,
}

// What the call for the first answers, and how many pairs are forced.
// Stays: the count is told with each answer.
#[derive(Clone, Copy)]
pub struct ForcedAnswer {
    pub answer: MatchingAnswer,
    pub count: usize,
}

// One more at the atom v.
fn raise(counts: &mut [u16], v: AtomId)
    requires { (v.0 < length counts.old) × (get_or counts.old v.0 0 < 65535) }
    ensures { counts.new ≡ bumped counts.old v.0 }
{
    let at = v.0;
    counts[at] = counts[at] + 1;
}

// One more at each end of the bond k; at the one atom, where both are the same.
fn raise_ends(ends: EndTables, counts: &mut [u16], k: BondId)
    requires ends { Ends ends.first.now ends.second.now counts.old k.0 }
    requires by_index { (v : ℕ) → get_or counts.old v 0 < 65535 }
    ensures { counts.new ≡ raised (get_or ends.entry.first.now k.0 0) (get_or ends.entry.second.now k.0 0) counts.old }
{
    let first = matching_search::end_of(ends.first, k);
    let second = matching_search::end_of(ends.second, k);
    raise(counts, first);
    let a = first.0;
    let b = second.0;
    if a != b {
        raise(counts, second);
    }
}

// How many free bonds each atom has, counted into zeros.
fn fill_counts(links: Links, need: &[u8], counts: &mut [u16])
    requires bond_tables { BondTables links.ends.first.now links.ends.second.now links.elided.now need.now 0 }
    requires need_in_bounds { (length need.now ≤ length counts.old) × (length links.ends.first.now ≤ max_bonds) }
    requires by_index { (v : ℕ) → get_or counts.old v 0 ≡ 0 }
    ensures { Counts (bonds_of links.entry.ends.first.now links.entry.ends.second.now links.entry.elided.now) need.now counts.new }
{
    for i in 0..links.ends.first.len() {
        if matching_search::choosable(links, need, BondId(i)) {
            raise_ends(links.ends, counts, BondId(i));
        }
    }
}

// The lowest unpaired atom with the count d.
fn lowest_with(need: &[u8], counts: &[u16], d: u16) -> Option<AtomId>
    requires { length need.now ≤ length counts.now }
    ensures { LowestAtom (lowest (with_count need.now counts.now d) 0 (length need.now)) (length need.now) result }
{
    for v in 0..need.len() {
        if matching_search::unpaired(need, AtomId(v)) & (counts[v] == d) {
            return Some(AtomId(v));
        }
    }
    None
}

// The bond k is free and has the atom v as an end.
fn free_of(links: Links, need: &[u8], v: AtomId, k: BondId) -> bool
    requires bond_tables { BondTables links.ends.first.now links.ends.second.now links.elided.now need.now 0 }
    requires k_in_bounds { k.0 < length links.ends.first.now }
    ensures { result ≡ free_of (bonds_of links.entry.ends.first.now links.entry.ends.second.now links.entry.elided.now) need.now v.0 k.0 }
{
    let first = matching_search::end_of(links.ends.first, k);
    let second = matching_search::end_of(links.ends.second, k);
    let a = first.0;
    let b = second.0;
    let at = v.0;
    matching_search::choosable(links, need, k) & ((a == at) | (b == at))
}

// The first free bond of the atom v.
fn free_bond(links: Links, need: &[u8], v: AtomId) -> Option<BondId>
    requires { BondTables links.ends.first.now links.ends.second.now links.elided.now need.now 0 }
    ensures { LowestBond (free_bond (bonds_of links.entry.ends.first.now links.entry.ends.second.now links.entry.elided.now) need.now v.0) (length links.entry.ends.first.now) result }
{
    for i in 0..links.ends.first.len() {
        if free_of(links, need, v, BondId(i)) {
            return Some(BondId(i));
        }
    }
    None
}

// The only free bond of the lowest atom that has exactly one.
fn forced_bond(links: Links, need: &[u8], counts: &[u16]) -> Option<BondId>
    requires bond_tables { BondTables links.ends.first.now links.ends.second.now links.elided.now need.now 0 }
    requires counted { Counts (bonds_of links.ends.first.now links.ends.second.now links.elided.now) need.now counts.now × (length need.now ≤ length counts.now) }
    ensures { ForcedBond (bonds_of links.entry.ends.first.now links.entry.ends.second.now links.entry.elided.now) need.now result }
{
    let v = lowest_with(need, counts, 1)?;
    free_bond(links, need, v)
}

// One turn of the rule.
fn take_turn(links: Links, need: &[u8]) -> Turn
    requires bond_tables { BondTables links.ends.first.now links.ends.second.now links.elided.now need.now 0 }
    requires need_len_bound { (length need.now ≤ max_atoms) × (length links.ends.first.now ≤ max_bonds) }
    ensures { Turned (bonds_of links.entry.ends.first.now links.entry.ends.second.now links.entry.elided.now) need.now result }
{
    let mut counts = [0u16; MAX_ATOMS];
    fill_counts(links, need, &mut counts);
    if lowest_with(need, &counts, 0).is_some() {
        return Turn::Stuck;
    }
    match forced_bond(links, need, &counts) {
        Some(bond) => Turn::Pair(bond),
        None => Turn::Rests,
    }
}

// internal: the forced list, filled into pairs from its start; need is left with the flags of the atoms that stay unpaired.
pub fn force(ends: &EndTables, elided: &[u8], need: &mut [u8], pairs: &mut [u16]) -> Forcing
    requires bond_tables { BondTables ends.now.first.now ends.now.second.now elided.now need.old 0 }
    requires roomy { Roomy ends.now.first.now ends.now.second.now elided.now need.old pairs.old }
    ensures { Filled (bonds_of ends.now.first.now ends.now.second.now elided.now) need.old pairs.old result.count result.stuck need.new pairs.new }
{
    let mut n = 0;
    loop {
        let turn = take_turn(
            Links {
                ends: *ends,
                elided,
            },
            need,
        );
        match turn {
            Turn::Stuck => return Forcing {
                count: n,
                stuck: true,
            },
            Turn::Rests => return Forcing {
                count: n,
                stuck: false,
            },
            Turn::Pair(bond) => {
                pairs[n] = bond.0 as u16;
                matching_search::mark(*ends, need, bond, 0);
                n += 1;
            }
        }
    }
}

// The row gets 1 at the first n bonds of pairs.
fn set_ones(row: &mut [u8], pairs: &[u16], n: usize)
    requires { Ones row.old pairs.now n }
    ensures { row.new ≡ ones (take n pairs.now) row.old }
{
    for i in (0..n).rev() {
        let k = pairs[i] as usize;
        row[k] = 1;
    }
}

// The row gets 0 at the first n bonds of pairs.
fn set_zeros(row: &mut [u8], pairs: &[u16], n: usize)
    requires { Ones row.old pairs.now n }
    ensures { row.new ≡ zeros (take n pairs.now) row.old }
{
    for i in 0..n {
        let k = pairs[i] as usize;
        row[k] = 0;
    }
}

// Takes the first n pairs back, the last first: their atoms are unpaired again.
fn undo(ends: &EndTables, need: &mut [u8], pairs: &[u16], n: usize)
    requires ones { Ones ends.now.first.now pairs.now n }
    requires by_index { (k : ℕ) → k < length ends.now.first.now → Ends ends.now.first.now ends.now.second.now need.old k }
    ensures { need.new ≡ undone ends.now.first.now ends.now.second.now (take n pairs.now) need.old }
{
    for i in (0..n).rev() {
        let k = pairs[i] as usize;
        matching_search::mark(*ends, need, BondId(k), 1);
    }
}

// The lowest free bond.
fn lowest_free(links: Links, need: &[u8]) -> Option<BondId>
    requires { BondTables links.ends.first.now links.ends.second.now links.elided.now need.now 0 }
    ensures { LowestBond (lowest_free (bonds_of links.entry.ends.first.now links.entry.ends.second.now links.entry.elided.now) need.now) (length links.entry.ends.first.now) result }
{
    for i in 0..links.ends.first.len() {
        if matching_search::choosable(links, need, BondId(i)) {
            return Some(BondId(i));
        }
    }
    None
}

// The first matching with the free bond b.
#[cycle(choose_seek_with_bond_without_bond)]
fn with_bond(
    ends: &EndTables,
    el: &mut [u8],
    need: &mut [u8],
    row: &mut [u8],
    pairs: &mut [u16],
    b: BondId,
    budget: &mut usize,
) -> Result<bool, GaveUp>
    requires shape { Shape ends.now.first.now ends.now.second.now el.old need.old row.old 0 }
    requires roomy { Roomy ends.now.first.now ends.now.second.now el.old need.old pairs.old × Chosen ends.now.first.now ends.now.second.now el.old need.old b.0 }
    ensures tried { Tried need.old row.old 0 (length ends.now.first.now) (taken_of (bonds_of ends.now.first.now ends.now.second.now el.old) need.old b.0) result need.new row.new }
    ensures el_unchanged { el.new ≡ el.old }
{
    matching_search::mark(*ends, need, b, 0);
    let got = seek(ends, el, need, row, pairs, budget);
    matching_search::mark(*ends, need, b, 1);
    let found = got?;
    if found {
        row[b.0] = 1;
    }
    Ok(found)
}

// The first matching without the free bond b.
#[cycle(choose_seek_with_bond_without_bond)]
fn without_bond(
    ends: &EndTables,
    el: &mut [u8],
    need: &mut [u8],
    row: &mut [u8],
    pairs: &mut [u16],
    b: BondId,
    budget: &mut usize,
) -> Result<bool, GaveUp>
    requires shape { Shape ends.now.first.now ends.now.second.now el.old need.old row.old 0 }
    requires roomy { Roomy ends.now.first.now ends.now.second.now el.old need.old pairs.old × Chosen ends.now.first.now ends.now.second.now el.old need.old b.0 }
    ensures tried { Tried need.old row.old 0 (length ends.now.first.now) (left_of (bonds_of ends.now.first.now ends.now.second.now el.old) need.old b.0) result need.new row.new }
    ensures el_unchanged { el.new ≡ el.old }
{
    let at = b.0;
    el[at] = 0;
    let got = seek(ends, el, need, row, pairs, budget);
    el[at] = 1;
    got
}

// The search on what is left after the forced pairs: none where an atom is stuck; else the lowest free bond is chosen, and then left.
#[cycle(choose_seek_with_bond_without_bond)]
fn choose(
    ends: &EndTables,
    el: &mut [u8],
    need: &mut [u8],
    row: &mut [u8],
    pairs: &mut [u16],
    stuck: bool,
    budget: &mut usize,
) -> Result<bool, GaveUp>
    requires shape { Shape ends.now.first.now ends.now.second.now el.old need.old row.old 0 }
    requires roomy { Roomy ends.now.first.now ends.now.second.now el.old need.old pairs.old }
    requires need_value { stuck ≡ true → all_of (bonds_of ends.now.first.now ends.now.second.now el.old) need.old ≡ [] }
    ensures tried { Tried need.old row.old 0 (length ends.now.first.now) (all_of (bonds_of ends.now.first.now ends.now.second.now el.old) need.old) result need.new row.new }
    ensures el_unchanged { el.new ≡ el.old }
{
    if stuck {
        return Ok(false);
    }
    let Some(b) = lowest_free(
        Links {
            ends: *ends,
            elided: el,
        },
        need,
    ) else {
        matching_search::blank(row, BondId(0), BondId(ends.first.len()));
        return Ok(matching_search::all_paired(need));
    };
    if *budget == 0 {
        return Err(GaveUp);
    }
    let found = with_bond(ends, el, need, row, pairs, b, budget)?;
    if found {
        return Ok(true);
    }
    without_bond(ends, el, need, row, pairs, b, budget)
}

// The first matching, under a budget: the forced pairs, then what is left.
#[cycle(choose_seek_with_bond_without_bond)]
fn seek(
    ends: &EndTables,
    el: &mut [u8],
    need: &mut [u8],
    row: &mut [u8],
    pairs: &mut [u16],
    budget: &mut usize,
) -> Result<bool, GaveUp>
    requires shape { Shape ends.now.first.now ends.now.second.now el.old need.old row.old 0 }
    requires roomy { Roomy ends.now.first.now ends.now.second.now el.old need.old pairs.old }
    ensures tried { Tried need.old row.old 0 (length ends.now.first.now) (all_of (bonds_of ends.now.first.now ends.now.second.now el.old) need.old) result need.new row.new }
    ensures el_unchanged { el.new ≡ el.old }
{
    let forcing = force(ends, el, need, pairs);
    let n = forcing.count;
    *budget = budget.saturating_sub(n).saturating_sub(1);
    let got = choose(ends, el, need, row, &mut pairs[n..], forcing.stuck, budget);
    undo(ends, need, pairs, n);
    let found = got?;
    if found {
        set_ones(row, pairs, n);
    }
    Ok(found)
}

// The first matching, written to the row up to the last bond; zeros where there is none. Where the budget is spent, the certified search answers.
fn seek_any(
    ends: &EndTables,
    el: &mut [u8],
    need: &mut [u8],
    row: &mut [u8],
    pairs: &mut [u16],
) -> bool
    requires shape { Shape ends.now.first.now ends.now.second.now el.old need.old row.old 0 }
    requires roomy { Roomy ends.now.first.now ends.now.second.now el.old need.old pairs.old }
    ensures searched { Searched need.old row.old 0 (length ends.now.first.now) (all_of (bonds_of ends.now.first.now ends.now.second.now el.old) need.old) result need.new row.new }
    ensures el_unchanged { el.new ≡ el.old }
{
    let mut budget = BUDGET;
    let got = seek(ends, el, need, row, pairs, &mut budget);
    match got {
        Ok(true) => true,
        Ok(false) => {
            matching_search::blank(row, BondId(0), BondId(ends.first.len()));
            false
        }
        Err(GaveUp) => matching_certified::seek(
            Links {
                ends: *ends,
                elided: el,
            },
            need,
            row,
            BondId(0),
        ),
    }
}

// internal: zeros from the cell `from` on.
pub fn clear_pairs(pairs: &mut [u16], from: usize)
    requires { from ≤ length pairs.old }
    ensures { pairs.new ≡ take from pairs.old ++ replicate (length pairs.old - from) 0 }
{
    pairs[from..].fill(0);
}

// internal: the first matching, and the forced list with its number, zeroed where there is no matching. The flags are used up.
pub fn first_forced(
    ends: EndTables,
    el: &mut [u8],
    need: &mut [u8],
    row: &mut [u8],
    pairs: &mut [u16],
) -> ForcedAnswer
    requires shape { Shape ends.first.now ends.second.now el.old need.old row.old 0 }
    requires roomy { Roomy ends.first.now ends.second.now el.old need.old pairs.old × (length ends.first.now ≤ length pairs.old) }
    ensures { FirstReply (bonds_of ends.entry.first.now ends.entry.second.now el.old) need.old row.old pairs.old result.answer result.count row.new pairs.new }
{
    let m = ends.first.len();
    let forcing = force(&ends, el, need, pairs);
    let n = forcing.count;
    let found = seek_any(&ends, el, need, row, &mut pairs[n..]);
    matching_search::clear(row, BondId(m));
    if found {
        set_ones(row, pairs, n);
        clear_pairs(pairs, n);
        return ForcedAnswer {
            answer: MatchingAnswer::Given,
            count: n,
        };
    }
    clear_pairs(pairs, 0);
    ForcedAnswer {
        answer: MatchingAnswer::Absent,
        count: 0,
    }
}

// The first matching after the row that has the free bond b, as the row has it.
#[cycle(later_later_left_later_with_later_without)]
fn later_with(
    ends: &EndTables,
    el: &mut [u8],
    need: &mut [u8],
    row: &mut [u8],
    pairs: &mut [u16],
    b: BondId,
) -> bool
    requires shape { Shape ends.now.first.now ends.now.second.now el.old need.old row.old 0 }
    requires roomy { Roomy ends.now.first.now ends.now.second.now el.old need.old pairs.old × Chosen ends.now.first.now ends.now.second.now el.old need.old b.0 }
    requires row_value { (is_of (bonds_of ends.now.first.now ends.now.second.now el.old) need.old (take (length ends.now.first.now) row.old) ≡ true) × (get_or row.old b.0 0 ≡ 1) }
    ensures searched { Searched need.old row.old 0 (length ends.now.first.now) (later_with (bonds_of ends.now.first.now ends.now.second.now el.old) need.old (take (length ends.now.first.now) row.old) b.0) result need.new row.new }
    ensures el_unchanged { el.new ≡ el.old }
{
    let at = b.0;
    row[at] = 0;
    matching_search::mark(*ends, need, b, 0);
    let found = later(ends, el, need, row, pairs);
    matching_search::mark(*ends, need, b, 1);
    if found {
        row[at] = 1;
    }
    found
}

// The first matching after the row without the free bond b, as the row is without it.
#[cycle(later_later_left_later_with_later_without)]
fn later_without(
    ends: &EndTables,
    el: &mut [u8],
    need: &mut [u8],
    row: &mut [u8],
    pairs: &mut [u16],
    b: BondId,
) -> bool
    requires shape { Shape ends.now.first.now ends.now.second.now el.old need.old row.old 0 }
    requires roomy { Roomy ends.now.first.now ends.now.second.now el.old need.old pairs.old × Chosen ends.now.first.now ends.now.second.now el.old need.old b.0 }
    requires row_value { (is_of (bonds_of ends.now.first.now ends.now.second.now el.old) need.old (take (length ends.now.first.now) row.old) ≡ true) × (get_or row.old b.0 0 ≡ 0) }
    ensures searched { Searched need.old row.old 0 (length ends.now.first.now) (later_of (off (bonds_of ends.now.first.now ends.now.second.now el.old) b.0) need.old (take (length ends.now.first.now) row.old)) result need.new row.new }
    ensures el_unchanged { el.new ≡ el.old }
{
    let at = b.0;
    el[at] = 0;
    let found = later(ends, el, need, row, pairs);
    el[at] = 1;
    found
}

// The first matching of all without the free bond b.
// Stays: beside `without_bond` and `later_without`, which differ in the search that they call: a function lent for it would take all
// these parameters again, and two of the three searches call themselves through it.
fn first_without(
    ends: &EndTables,
    el: &mut [u8],
    need: &mut [u8],
    row: &mut [u8],
    pairs: &mut [u16],
    b: BondId,
) -> bool
    requires shape { Shape ends.now.first.now ends.now.second.now el.old need.old row.old 0 }
    requires roomy { Roomy ends.now.first.now ends.now.second.now el.old need.old pairs.old × Chosen ends.now.first.now ends.now.second.now el.old need.old b.0 }
    ensures searched { Searched need.old row.old 0 (length ends.now.first.now) (left_of (bonds_of ends.now.first.now ends.now.second.now el.old) need.old b.0) result need.new row.new }
    ensures el_unchanged { el.new ≡ el.old }
{
    let at = b.0;
    el[at] = 0;
    let found = seek_any(ends, el, need, row, pairs);
    el[at] = 1;
    found
}

// What is left after the forced pairs, from a row that is a matching: the lowest free bond is kept as the row has it, and then left.
#[cycle(later_later_left_later_with_later_without)]
fn later_left(
    ends: &EndTables,
    el: &mut [u8],
    need: &mut [u8],
    row: &mut [u8],
    pairs: &mut [u16],
) -> bool
    requires shape { Shape ends.now.first.now ends.now.second.now el.old need.old row.old 0 }
    requires roomy { Roomy ends.now.first.now ends.now.second.now el.old need.old pairs.old }
    requires row_value { is_of (bonds_of ends.now.first.now ends.now.second.now el.old) need.old (take (length ends.now.first.now) row.old) ≡ true }
    ensures searched { Searched need.old row.old 0 (length ends.now.first.now) (later_of (bonds_of ends.now.first.now ends.now.second.now el.old) need.old (take (length ends.now.first.now) row.old)) result need.new row.new }
    ensures el_unchanged { el.new ≡ el.old }
{
    let Some(b) = lowest_free(
        Links {
            ends: *ends,
            elided: el,
        },
        need,
    ) else {
        return false;
    };
    if row[b.0] == 1 {
        if later_with(ends, el, need, row, pairs, b) {
            return true;
        }
        return first_without(ends, el, need, row, pairs, b);
    }
    later_without(ends, el, need, row, pairs, b)
}

// The first matching that comes after the row, which is one, written over it; zeros where there is none.
#[cycle(later_later_left_later_with_later_without)]
fn later(
    ends: &EndTables,
    el: &mut [u8],
    need: &mut [u8],
    row: &mut [u8],
    pairs: &mut [u16],
) -> bool
    requires shape { Shape ends.now.first.now ends.now.second.now el.old need.old row.old 0 }
    requires roomy { Roomy ends.now.first.now ends.now.second.now el.old need.old pairs.old }
    requires row_value { is_of (bonds_of ends.now.first.now ends.now.second.now el.old) need.old (take (length ends.now.first.now) row.old) ≡ true }
    ensures searched { Searched need.old row.old 0 (length ends.now.first.now) (later_of (bonds_of ends.now.first.now ends.now.second.now el.old) need.old (take (length ends.now.first.now) row.old)) result need.new row.new }
    ensures el_unchanged { el.new ≡ el.old }
{
    let forcing = force(ends, el, need, pairs);
    let n = forcing.count;
    set_zeros(row, pairs, n);
    let found = later_left(ends, el, need, row, &mut pairs[n..]);
    undo(ends, need, pairs, n);
    if found {
        set_ones(row, pairs, n);
    }
    found
}

// internal: the first matching that comes after the row. What pairs holds afterwards is left open: it is scratch.
pub fn next_forced(
    ends: EndTables,
    el: &mut [u8],
    need: &mut [u8],
    row: &mut [u8],
    pairs: &mut [u16],
) -> MatchingAnswer
    requires shape { Shape ends.first.now ends.second.now el.old need.old row.old 0 }
    requires roomy { Roomy ends.first.now ends.second.now el.old need.old pairs.old }
    ensures { reply result row.new ≡ row_next (is_matching need.old (bonds_of ends.entry.first.now ends.entry.second.now el.old)) (length ends.entry.first.now) (length row.old) (take (length ends.entry.first.now) row.old) }
{
    if !matching_search::is_matching(&Links { ends, elided: el }, need, row, BondId(0)) {
        matching_search::clear(row, BondId(0));
        return MatchingAnswer::Refused;
    }
    let found = later(&ends, el, need, row, pairs);
    matching_search::clear(row, BondId(ends.first.len()));
    if found {
        MatchingAnswer::Given
    } else {
        MatchingAnswer::Ended
    }
}
