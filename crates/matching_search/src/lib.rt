// A plain backtracking search for matchings, over tables that the caller lends: the engine that others are compared with.
// Every function here is internal: the calls on molecules check what is asked of the tables.
#![tactic(auto)]

ghost use Rattle.std.specs.Prelude.{◌≡◌, true, ◌++◌, ℕ, ◌-◌, ◌<◌, ◌≤◌, length, take, drop, replicate, get_or};
ghost use Rattle.matching.specs.Enumeration.{row_first, row_next};
ghost use Rattle.matching.specs.Graph.{flagged, none_flagged, is_matching};
ghost use Rattle.matching.specs.Model.{Shape, Searched, Ends, all_from, later_from, matching_from, part, free_at, mark_at, bonds_of, reply};

use ids::{AtomId, BondId};
use matching::{EndTables, Links, MatchingAnswer};

// internal: every atom has its partner.
pub fn all_paired(need: &[u8]) -> bool
    ensures { result ≡ none_flagged need.now }
{
    !need.contains(&1)
}

// internal: the end of the bond k in a table of ends.
pub fn end_of(ends: &[u16], k: BondId) -> AtomId
    requires { k.0 < length ends.now }
    ensures { result.0 ≡ get_or ends.now k.0 0 }
{
    AtomId(usize::from(ends[k.0]))
}

// internal: the flag of the atom v is 1: it has no partner.
pub fn unpaired(need: &[u8], v: AtomId) -> bool
    requires { v.0 < length need.now }
    ensures { result ≡ flagged need.now v.0 }
{
    need[v.0] == 1
}

// internal: the bond k can be chosen.
pub fn choosable(links: Links, need: &[u8], k: BondId) -> bool
    requires ends { Ends links.ends.first.now links.ends.second.now need.now k.0 }
    requires k_in_bounds { k.0 < length links.elided.now }
    ensures { result ≡ free_at links.entry.ends.first.now links.entry.ends.second.now links.entry.elided.now need.now k.0 }
{
    (links.elided[k.0] == 1)
        & unpaired(need, end_of(links.ends.first, k))
        & unpaired(need, end_of(links.ends.second, k))
}

// internal: both ends of the bond k get x.
pub fn mark(ends: EndTables, need: &mut [u8], k: BondId, x: u8)
    requires { Ends ends.first.now ends.second.now need.old k.0 }
    ensures { need.new ≡ mark_at ends.entry.first.now ends.entry.second.now need.old k.0 x }
{
    let AtomId(a) = end_of(ends.first, k);
    let AtomId(b) = end_of(ends.second, k);
    need[a] = x;
    need[b] = x;
}

// internal: the first matching of the bonds from k on, written to the row from k on; zeros where there is none.
pub fn seek(links: &Links, need: &mut [u8], row: &mut [u8], k: BondId) -> bool
    requires { Shape links.now.ends.first.now links.now.ends.second.now links.now.elided.now need.old row.old k.0 }
    ensures { Searched need.old row.old k.0 (length links.now.ends.first.now) (all_from links.now.ends.first.now links.now.ends.second.now links.now.elided.now need.old k.0) result need.new row.new }
{
    let at = k.0;
    if at == links.ends.first.len() {
        return all_paired(need);
    }
    let next = at + 1;
    if choosable(*links, need, k) {
        mark(links.ends, need, k, 0);
        row[at] = 1;
        let found = seek(links, need, row, BondId(next));
        mark(links.ends, need, k, 1);
        if found {
            return true;
        }
        row[at] = 0;
        return seek(links, need, row, BondId(next));
    }
    row[at] = 0;
    seek(links, need, row, BondId(next))
}

// internal: the row from k on is a matching of the bonds from k on.
pub fn is_matching(links: &Links, need: &mut [u8], row: &[u8], k: BondId) -> bool
    requires { Shape links.now.ends.first.now links.now.ends.second.now links.now.elided.now need.old row.now k.0 }
    ensures { (result ≡ matching_from links.now.ends.first.now links.now.ends.second.now links.now.elided.now need.old (part (length links.now.ends.first.now) row.now k.0) k.0) × (need.new ≡ need.old) }
{
    let at = k.0;
    if at == links.ends.first.len() {
        return all_paired(need);
    }
    let next = at + 1;
    let x = row[at];
    if x == 0 {
        return is_matching(links, need, row, BondId(next));
    }
    if x != 1 {
        return false;
    }
    if !choosable(*links, need, k) {
        return false;
    }
    mark(links.ends, need, k, 0);
    let rest = is_matching(links, need, row, BondId(next));
    mark(links.ends, need, k, 1);
    rest
}

// internal: whether the row is a matching; the flags are not put back.
pub fn fits(links: Links, need: &mut [u8], row: &[u8]) -> bool
    requires { Shape links.ends.first.now links.ends.second.now links.elided.now need.old row.now 0 }
    ensures { result ≡ matching_from links.entry.ends.first.now links.entry.ends.second.now links.entry.elided.now need.old (part (length links.entry.ends.first.now) row.now 0) 0 }
{
    for i in 0..links.ends.first.len() {
        let x = row[i];
        if x != 0 {
            if x != 1 {
                return false;
            }
            if !choosable(links, need, BondId(i)) {
                return false;
            }
            mark(links.ends, need, BondId(i), 0);
        }
    }
    all_paired(need)
}

// internal: the first matching of the bonds from k on that comes after the row, written over it; zeros where there is none.
pub fn later(links: &Links, need: &mut [u8], row: &mut [u8], k: BondId) -> bool
    requires shape { Shape links.now.ends.first.now links.now.ends.second.now links.now.elided.now need.old row.old k.0 }
    requires k_value { matching_from links.now.ends.first.now links.now.ends.second.now links.now.elided.now need.old (part (length links.now.ends.first.now) row.old k.0) k.0 ≡ true }
    ensures { Searched need.old row.old k.0 (length links.now.ends.first.now) (later_from links.now.ends.first.now links.now.ends.second.now links.now.elided.now need.old (part (length links.now.ends.first.now) row.old k.0) k.0) result need.new row.new }
{
    let at = k.0;
    if at == links.ends.first.len() {
        return false;
    }
    let next = at + 1;
    if row[at] == 1 {
        mark(links.ends, need, k, 0);
        let found = later(links, need, row, BondId(next));
        mark(links.ends, need, k, 1);
        if found {
            return true;
        }
        row[at] = 0;
        return seek(links, need, row, BondId(next));
    }
    later(links, need, row, BondId(next))
}

// internal: zeros from the cell of the bond `from` up to that of the bond `to`.
pub fn blank(row: &mut [u8], from: BondId, to: BondId)
    requires { (from.0 ≤ to.0) × (to.0 ≤ length row.old) }
    ensures { row.new ≡ take from.0 row.old ++ (replicate (to.0 - from.0) 0 ++ drop to.0 row.old) }
{
    row[from.0..to.0].fill(0);
}

// internal: zeros from the cell of the bond `from` on.
pub fn clear(row: &mut [u8], from: BondId)
    requires { from.0 ≤ length row.old }
    ensures { row.new ≡ take from.0 row.old ++ replicate (length row.old - from.0) 0 }
{
    let to = row.len();
    blank(row, from, BondId(to));
}

// internal: the first matching.
pub fn first(links: Links, need: &mut [u8], row: &mut [u8]) -> MatchingAnswer
    requires { Shape links.ends.first.now links.ends.second.now links.elided.now need.old row.old 0 }
    ensures need_unchanged { need.new ≡ need.old }
    ensures row_after { reply result row.new ≡ row_first (is_matching need.old (bonds_of links.entry.ends.first.now links.entry.ends.second.now links.entry.elided.now)) (length links.entry.ends.first.now) (length row.old) }
{
    let found = seek(&links, need, row, BondId(0));
    clear(row, BondId(links.ends.first.len()));
    if found {
        MatchingAnswer::Given
    } else {
        MatchingAnswer::Absent
    }
}

// internal: the first matching that comes after the row.
pub fn next(links: Links, need: &mut [u8], row: &mut [u8]) -> MatchingAnswer
    requires { Shape links.ends.first.now links.ends.second.now links.elided.now need.old row.old 0 }
    ensures need_unchanged { need.new ≡ need.old }
    ensures row_after { reply result row.new ≡ row_next (is_matching need.old (bonds_of links.entry.ends.first.now links.entry.ends.second.now links.entry.elided.now)) (length links.entry.ends.first.now) (length row.old) (take (length links.entry.ends.first.now) row.old) }
{
    if !is_matching(&links, need, row, BondId(0)) {
        clear(row, BondId(0));
        return MatchingAnswer::Refused;
    }
    let found = later(&links, need, row, BondId(0));
    clear(row, BondId(links.ends.first.len()));
    if found {
        MatchingAnswer::Given
    } else {
        MatchingAnswer::Ended
    }
}
