// The next matching that differs from a row in its first bonds. Every function here is internal.
#![tactic(auto)]

ghost use Rattle.std.specs.Prelude.{◌≡◌, true, ◌&&◌, ◌≤◌, ◌-◌, length, take};
ghost use Rattle.matching.specs.Enumeration.{is_row};
ghost use Rattle.matching.specs.Graph.{is_matching};
ghost use Rattle.matching.specs.Model.{part, matching_from, bonds_of, later_from, Shape, Searched};
ghost use Rattle.matching_skip.specs.Skip.{later_than, Skipped};

use ids::BondId;
use matching::Links;

// The first matching of the bonds from k on that comes after the row and differs from it before `to`, written over it; zeros where there is none.
fn later(links: &Links, need: &mut [u8], row: &mut [u8], k: BondId, to: BondId) -> bool
    requires shape { Shape links.now.ends.first.now links.now.ends.second.now links.now.elided.now need.old row.old k.0 }
    requires k_value { (matching_from links.now.ends.first.now links.now.ends.second.now links.now.elided.now need.old (part (length links.now.ends.first.now) row.old k.0) k.0 ≡ true) × (k.0 ≤ to.0) × (to.0 ≤ length links.now.ends.first.now) }
    ensures { Searched need.old row.old k.0 (length links.now.ends.first.now) (later_from links.now.ends.first.now links.now.ends.second.now links.now.elided.now need.old (take (to.0 - k.0) (part (length links.now.ends.first.now) row.old k.0)) k.0) result need.new row.new }
{
    let at = k.0;
    if at == to.0 {
        matching_search::blank(row, k, BondId(links.ends.first.len()));
        return false;
    }
    let next = at + 1;
    if row[at] == 1 {
        matching_search::mark(links.ends, need, k, 0);
        let found = later(links, need, row, BondId(next), to);
        matching_search::mark(links.ends, need, k, 1);
        if found {
            return true;
        }
        row[at] = 0;
        return matching_engine::seek_from(*links, need, row, BondId(next));
    }
    later(links, need, row, BondId(next), to)
}

// internal: the first matching that comes after the row and differs from it before `to`; whether there is one.
pub fn skip(links: Links, need: &mut [u8], row: &mut [u8], to: BondId) -> bool
    requires shape { Shape links.ends.first.now links.ends.second.now links.elided.now need.old row.old 0 }
    requires to_in_bounds { (to.0 ≤ length links.ends.first.now) × ((is_row (length links.ends.first.now) (take (length links.ends.first.now) row.old) && is_matching need.old (bonds_of links.ends.first.now links.ends.second.now links.elided.now) (take (length links.ends.first.now) row.old)) ≡ true) }
    ensures need_unchanged { need.new ≡ need.old }
    ensures skipped { Skipped (later_than (is_matching need.old (bonds_of links.entry.ends.first.now links.entry.ends.second.now links.entry.elided.now)) (length links.entry.ends.first.now) to.0 row.old) (length row.old) result row.new }
{
    let found = later(&links, need, row, BondId(0), to);
    matching_search::clear(row, BondId(links.ends.first.len()));
    found
}
