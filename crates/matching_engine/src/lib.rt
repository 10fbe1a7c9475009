// The search that the calls on molecules use: first each bond in turn, with no way back; then a plain search under a budget,
// which leaves a branch at once when an atom without a partner has no bond left; where it gives up, the certified one. Its
// contracts are those of `matching_search`.
#![tactic(auto)]

ghost use Rattle.std.specs.Prelude.{◌≡◌, true, [], ℕ, ◌+◌, ◌<◌, ◌≤◌, length, take, set};
ghost use Rattle.ids.specs.Limits.{max_atoms};
ghost use Rattle.ids.specs.Small.{small};
ghost use Rattle.matching.specs.Enumeration.{row_first, row_next};
ghost use Rattle.matching.specs.Graph.{is_matching};
ghost use Rattle.matching.specs.Model.{Shape, BondTables, Searched, Ends, all_from, later_from, matching_from, part, bonds_of, reply};
ghost use Rattle.matching_engine.specs.Tried.{Tried, paired_bond, Lasts, noted, Stranded, Taken};

use ids::{AtomId, BondId, MAX_ATOMS, SMALL};
use matching::{Links, MatchingAnswer};

// How many bonds the plain search may choose before it gives up.
const BUDGET: usize = 400;

// A search under a budget gave up.
#[derive(Clone, Copy)]
pub struct GaveUp;

// The atom v gets the number of the bond k.
fn note(last: &mut [usize], v: AtomId, k: BondId)
    ensures { last.new ≡ set last.old v.0 k.0 }
{
    let at = v.0;
    if at < last.len() {
        last[at] = k.0;
    }
}

// Both ends of the bond k get the number of the bond after it, if it can be chosen.
fn note_bond(links: Links, need: &[u8], last: &mut [usize], k: BondId)
    requires ends { Ends links.ends.first.now links.ends.second.now need.now k.0 }
    requires k_in_bounds { k.0 < length links.elided.now }
    ensures { last.new ≡ noted links.entry.ends.first.now links.entry.ends.second.now links.entry.elided.now need.now k.0 last.old }
{
    if matching_search::choosable(links, need, k) {
        let next = k.0 + 1;
        note(
            last,
            matching_search::end_of(links.ends.first, k),
            BondId(next),
        );
        note(
            last,
            matching_search::end_of(links.ends.second, k),
            BondId(next),
        );
    }
}

// At each atom, the number of the bond after the last one that can be chosen there.
fn fill_lasts(links: Links, need: &[u8], last: &mut [usize])
    requires { BondTables links.ends.first.now links.ends.second.now links.elided.now need.now 0 }
    ensures { Lasts links.entry.ends.first.now links.entry.ends.second.now links.entry.elided.now need.now last.new }
{
    for j in 0..links.ends.first.len() {
        note_bond(links, need, last, BondId(j));
    }
}

// The atom v has no partner, and no bond from `from` on that can be chosen.
fn stranded(need: &[u8], last: &[usize], v: AtomId, from: BondId) -> bool
    requires { v.0 < length need.now }
    ensures { result ≡ true → Stranded need.now last.now v.0 from.0 }
{
    let at = v.0;
    let k = from.0;
    if at < last.len() {
        return matching_search::unpaired(need, v) & (last[at] <= k);
    }
    false
}

// An end of the bond k is stranded behind it.
fn dead_end(links: Links, need: &[u8], last: &[usize], k: BondId) -> bool
    requires bond_tables { BondTables links.ends.first.now links.ends.second.now links.elided.now need.now (k.0 + 1) }
    requires lasts { Lasts links.ends.first.now links.ends.second.now links.elided.now need.now last.now }
    ensures { result ≡ true → all_from links.entry.ends.first.now links.entry.ends.second.now links.entry.elided.now need.now (k.0 + 1) ≡ [] }
{
    let next = k.0 + 1;
    if stranded(
        need,
        last,
        matching_search::end_of(links.ends.first, k),
        BondId(next),
    ) {
        return true;
    }
    stranded(
        need,
        last,
        matching_search::end_of(links.ends.second, k),
        BondId(next),
    )
}

// Takes 1 from the budget; false if it is spent.
fn spend(budget: &mut usize) -> bool {
    let left = *budget;
    if left == 0 {
        return false;
    }
    *budget = left - 1;
    true
}

// The first matching of the bonds from k on that chooses the bond k, if it can be chosen: whether there is one.
#[cycle(choose_seek)]
fn choose(
    links: &Links,
    need: &mut [u8],
    row: &mut [u8],
    last: &[usize],
    k: BondId,
    budget: &mut usize,
) -> Result<bool, GaveUp>
    requires shape { Shape links.now.ends.first.now links.now.ends.second.now links.now.elided.now need.old row.old k.0 }
    requires k_in_bounds { (k.0 < length links.now.ends.first.now) × Lasts links.now.ends.first.now links.now.ends.second.now links.now.elided.now need.old last.now }
    ensures { Tried need.old row.old k.0 (length links.now.ends.first.now) (paired_bond links.now.ends.first.now links.now.ends.second.now links.now.elided.now need.old k.0) result need.new row.new }
{
    if !matching_search::choosable(*links, need, k) {
        return Ok(false);
    }
    if !spend(budget) {
        return Err(GaveUp);
    }
    let at = k.0;
    let next = at + 1;
    matching_search::mark(links.ends, need, k, 0);
    row[at] = 1;
    let got = seek(links, need, row, last, BondId(next), budget);
    matching_search::mark(links.ends, need, k, 1);
    got
}

// The first matching of the bonds from k on, under a budget.
#[cycle(choose_seek)]
fn seek(
    links: &Links,
    need: &mut [u8],
    row: &mut [u8],
    last: &[usize],
    k: BondId,
    budget: &mut usize,
) -> Result<bool, GaveUp>
    requires shape { Shape links.now.ends.first.now links.now.ends.second.now links.now.elided.now need.old row.old k.0 }
    requires lasts { Lasts links.now.ends.first.now links.now.ends.second.now links.now.elided.now need.old last.now }
    ensures { Tried need.old row.old k.0 (length links.now.ends.first.now) (all_from links.now.ends.first.now links.now.ends.second.now links.now.elided.now need.old k.0) result need.new row.new }
{
    for at in k.0..links.ends.first.len() {
        let found = choose(links, need, row, last, BondId(at), budget)?;
        if found {
            return Ok(true);
        }
        row[at] = 0;
        if dead_end(*links, need, last, BondId(at)) {
            return Ok(false);
        }
    }
    Ok(matching_search::all_paired(need))
}

// The first matching of the bonds from k on, written to the row from k on; zeros where there is none.
fn seek_any(links: Links, need: &mut [u8], row: &mut [u8], last: &[usize], k: BondId) -> bool
    requires shape { Shape links.ends.first.now links.ends.second.now links.elided.now need.old row.old k.0 }
    requires lasts { Lasts links.ends.first.now links.ends.second.now links.elided.now need.old last.now }
    ensures { Searched need.old row.old k.0 (length links.entry.ends.first.now) (all_from links.entry.ends.first.now links.entry.ends.second.now links.entry.elided.now need.old k.0) result need.new row.new }
{
    let mut budget = BUDGET;
    let got = seek(&links, need, row, last, k, &mut budget);
    match got {
        Ok(true) => true,
        Ok(false) => {
            matching_search::blank(row, k, BondId(links.ends.first.len()));
            false
        }
        Err(GaveUp) => matching_certified::seek(links, need, row, k),
    }
}

// internal: the same, with no numbers known.
pub fn seek_from(links: Links, need: &mut [u8], row: &mut [u8], k: BondId) -> bool
    requires { Shape links.ends.first.now links.ends.second.now links.elided.now need.old row.old k.0 }
    ensures { Searched need.old row.old k.0 (length links.entry.ends.first.now) (all_from links.entry.ends.first.now links.entry.ends.second.now links.entry.elided.now need.old k.0) result need.new row.new }
{
    let mut last = [0usize; MAX_ATOMS];
    fill_lasts(links, need, &mut last);
    seek_any(links, need, row, &last, k)
}

// The first matching of the bonds from k on that comes after the row, written over it; zeros where there is none.
fn later(links: &Links, need: &mut [u8], row: &mut [u8], last: &[usize], k: BondId) -> bool
    requires shape { Shape links.now.ends.first.now links.now.ends.second.now links.now.elided.now need.old row.old k.0 }
    requires k_value { (matching_from links.now.ends.first.now links.now.ends.second.now links.now.elided.now need.old (part (length links.now.ends.first.now) row.old k.0) k.0 ≡ true) × Lasts links.now.ends.first.now links.now.ends.second.now links.now.elided.now need.old last.now }
    ensures { Searched need.old row.old k.0 (length links.now.ends.first.now) (later_from links.now.ends.first.now links.now.ends.second.now links.now.elided.now need.old (part (length links.now.ends.first.now) row.old k.0) k.0) result need.new row.new }
{
    let at = k.0;
    if at == links.ends.first.len() {
        return false;
    }
    let next = at + 1;
    if row[at] == 1 {
        matching_search::mark(links.ends, need, k, 0);
        let found = later(links, need, row, last, BondId(next));
        matching_search::mark(links.ends, need, k, 1);
        if found {
            return true;
        }
        row[at] = 0;
        return seek_any(*links, need, row, last, BondId(next));
    }
    later(links, need, row, last, BondId(next))
}

// Takes the bond k if it can be chosen: its digit in the row.
fn take_bond(links: Links, need: &mut [u8], k: BondId) -> u8
    requires ends { Ends links.ends.first.now links.ends.second.now need.old k.0 }
    requires k_in_bounds { k.0 < length links.elided.now }
    ensures { Taken links.entry.ends.first.now links.entry.ends.second.now links.entry.elided.now need.old k.0 result need.new }
{
    if !matching_search::choosable(links, need, k) {
        return 0;
    }
    matching_search::mark(links.ends, need, k, 0);
    1
}

// Takes each bond that can be chosen, in order: true if every atom has its partner then. The flags are used up.
fn greedy(links: Links, need: &mut [u8], row: &mut [u8]) -> bool
    requires { Shape links.ends.first.now links.ends.second.now links.elided.now need.old row.old 0 }
    ensures { result ≡ true → Searched need.old row.old 0 (length links.entry.ends.first.now) (all_from links.entry.ends.first.now links.entry.ends.second.now links.entry.elided.now need.old 0) true need.old row.new }
{
    for at in 0..links.ends.first.len() {
        row[at] = take_bond(links, need, BondId(at));
    }
    matching_search::all_paired(need)
}

// The same on a copy of the flags, of at most N atoms.
fn greedy_sized<const N: usize>(links: Links, need: &[u8], row: &mut [u8]) -> bool
    requires shape { Shape links.ends.first.now links.ends.second.now links.elided.now need.now row.old 0 }
    requires need_len_bound { (length need.now ≤ N) × (N ≤ max_atoms) }
    ensures { result ≡ true → Searched need.now row.old 0 (length links.entry.ends.first.now) (all_from links.entry.ends.first.now links.entry.ends.second.now links.entry.elided.now need.now 0) true need.now row.new }
{
    let mut flags = [0u8; N];
    let used = &mut flags[..need.len()];
    used.copy_from_slice(need);
    greedy(links, used, row)
}

// The same on a copy of the flags: true if the row is the first matching, false says nothing.
fn try_greedy(links: Links, need: &[u8], row: &mut [u8]) -> bool
    requires { Shape links.ends.first.now links.ends.second.now links.elided.now need.now row.old 0 }
    ensures { result ≡ true → Searched need.now row.old 0 (length links.entry.ends.first.now) (all_from links.entry.ends.first.now links.entry.ends.second.now links.entry.elided.now need.now 0) true need.now row.new }
{
    match need.len() {
        n if n <= SMALL => greedy_sized::<SMALL>(links, need, row),
        n if n <= MAX_ATOMS => greedy_sized::<MAX_ATOMS>(links, need, row),
        _ => false,
    }
}

// internal: the first matching.
// Stays: beside `matching_search::first` and `next`, since a trait over both would share only the last lines: this one tries greedily
// first, and lends its searches a table of last bonds.
pub fn first(links: Links, need: &mut [u8], row: &mut [u8]) -> MatchingAnswer
    requires { Shape links.ends.first.now links.ends.second.now links.elided.now need.old row.old 0 }
    ensures need_unchanged { need.new ≡ need.old }
    ensures row_after { reply result row.new ≡ row_first (is_matching need.old (bonds_of links.entry.ends.first.now links.entry.ends.second.now links.entry.elided.now)) (length links.entry.ends.first.now) (length row.old) }
{
    if try_greedy(links, need, row) {
        matching_search::clear(row, BondId(links.ends.first.len()));
        return MatchingAnswer::Given;
    }
    let mut last = [0usize; MAX_ATOMS];
    fill_lasts(links, need, &mut last);
    let found = seek_any(links, need, row, &last, BondId(0));
    matching_search::clear(row, BondId(links.ends.first.len()));
    if found {
        MatchingAnswer::Given
    } else {
        MatchingAnswer::Absent
    }
}

// internal: the first matching that comes after the row.
pub fn next(links: Links, need: &mut [u8], row: &mut [u8]) -> MatchingAnswer
    requires { Shape links.ends.first.now links.ends.second.now links.elided.now need.old row.old 0 }
    ensures need_unchanged { need.new ≡ need.old }
    ensures row_after { reply result row.new ≡ row_next (is_matching need.old (bonds_of links.entry.ends.first.now links.entry.ends.second.now links.entry.elided.now)) (length links.entry.ends.first.now) (length row.old) (take (length links.entry.ends.first.now) row.old) }
{
    if !matching_search::is_matching(&links, need, row, BondId(0)) {
        matching_search::clear(row, BondId(0));
        return MatchingAnswer::Refused;
    }
    let mut last = [0usize; MAX_ATOMS];
    fill_lasts(links, need, &mut last);
    let found = later(&links, need, row, &last, BondId(0));
    matching_search::clear(row, BondId(links.ends.first.len()));
    if found {
        MatchingAnswer::Given
    } else {
        MatchingAnswer::Ended
    }
}
