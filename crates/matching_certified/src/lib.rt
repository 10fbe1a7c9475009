// A search for matchings that asks at every bond that can be chosen for a reason why nothing is left (`matching_blossom`), and
// checks it. It is never slow: a branch without a matching is left at the next such bond. Every function here is internal, for
// `matching_engine`.
#![tactic(auto)]

ghost use Rattle.std.specs.Prelude.{◌≡◌, Bool, true, false, ◌&&◌, ◌||◌, not, [], ◌++◌, ℕ, ◌+◌, ◌-◌, ◌<◌, ◌≤◌, eqb, length, take, drop, replicate, get_or};
ghost use Rattle.loops.specs.Loop.{run};
ghost use Rattle.matching.specs.Graph.{count_if};
ghost use Rattle.matching.specs.Limits.{max_atoms};
ghost use Rattle.matching.specs.Model.{Shape, BondTables, Searched, Ends, all_from, free_at, table_bond, bonds_from};
ghost use Rattle.matching.specs.Cut.{cnt, odds, fine, all_fine, flips, marks};

use ids::{AtomId, BondId, MAX_ATOMS};
use matching::{EndTables, Links};
use matching_blossom::{EMPTY, LABELS, OUTSIDE};

// 1 for an atom v without a partner in the cut, else 0.
fn in_cut(need: &[u8], lab: &[usize], v: AtomId) -> usize
    requires { (v.0 < length need.now) × (v.0 < length lab.now) }
    ensures { result ≡ count_if (eqb (get_or need.now v.0 0) 1 && eqb (get_or lab.now v.0 0) 0) 0 }
{
    let at = v.0;
    if need[at] != 1 {
        return 0;
    }
    if lab[at] != 0 {
        return 0;
    }
    1
}

// How many atoms without a partner are in the cut.
fn cut_size(need: &[u8], lab: &[usize]) -> usize
    requires { length need.now ≤ length lab.now }
    ensures { result ≡ cnt need.now lab.now 0 }
{
    let mut n: usize = 0;
    for v in 0..need.len() {
        let x = in_cut(need, lab, AtomId(v));
        n = n + x;
    }
    n
}

// Notes the atom v at its label: odd numbers of atoms are marked.
fn flip(need: &[u8], lab: &[usize], odd: &mut [bool], v: AtomId)
    requires { (v.0 < length need.now) × (v.0 < length lab.now) }
    ensures { odd.new ≡ flips need.now lab.now v.0 odd.old }
{
    let at = v.0;
    if need[at] == 1 {
        let l = lab[at];
        if l < odd.len() {
            odd[l] = !odd[l];
        }
    }
}

// Marks the labels with an odd number of atoms without a partner.
fn parities(need: &[u8], lab: &[usize], odd: &mut [bool])
    requires { length need.now ≤ length lab.now }
    ensures { odd.new ≡ run (flips need.now lab.now) 0 (length need.now) odd.old }
{
    for v in 0..need.len() {
        flip(need, lab, odd, AtomId(v));
    }
}

// How many of the labels other than 0 are marked.
fn odd_labels(odd: &[bool]) -> usize
    ensures { result ≡ marks odd.now (length odd.now - 1) }
{
    let mut n: usize = 0;
    for i in 1..odd.len() {
        n += usize::from(odd[i]);
    }
    n
}

// The bond k has an end in the cut, or joins two atoms of one label.
fn is_fine(ends: EndTables, lab: &[usize], k: BondId) -> bool
    requires { Ends ends.first.now ends.second.now lab.now k.0 }
    ensures { result ≡ fine lab.now (table_bond ends.entry.first.now ends.entry.second.now [] k.0) }
{
    let first = matching_search::end_of(ends.first, k);
    let second = matching_search::end_of(ends.second, k);
    let a = first.0;
    let b = second.0;
    let la = lab[a];
    let lb = lab[b];
    (la == 0) | (lb == 0) | ((la == lb) & (a != b))
}

// The bond k is fine, or cannot be chosen.
fn passes(links: Links, need: &[u8], lab: &[usize], k: BondId) -> bool
    requires ends { Ends links.ends.first.now links.ends.second.now need.now k.0 }
    requires k_in_bounds { (k.0 < length links.elided.now) × (length need.now ≤ length lab.now) }
    ensures { result ≡ (not (free_at links.entry.ends.first.now links.entry.ends.second.now links.entry.elided.now need.now k.0) || fine lab.now (table_bond links.entry.ends.first.now links.entry.ends.second.now links.entry.elided.now k.0)) }
{
    if matching_search::choosable(links, need, k) {
        return is_fine(links.ends, lab, k);
    }
    true
}

// All bonds from k on pass.
fn all_fine(links: Links, need: &[u8], lab: &[usize], k: BondId) -> bool
    requires bond_tables { BondTables links.ends.first.now links.ends.second.now links.elided.now need.now k.0 }
    requires need_in_bounds { length need.now ≤ length lab.now }
    ensures { result ≡ all_fine need.now lab.now (bonds_from links.entry.ends.first.now links.entry.ends.second.now links.entry.elided.now k.0) }
{
    for j in k.0..links.ends.first.len() {
        if !passes(links, need, lab, BondId(j)) {
            return false;
        }
    }
    true
}

// The labels show that the bonds from k on have no matching.
fn barred(links: Links, need: &[u8], lab: &[usize], k: BondId) -> bool
    requires { BondTables links.ends.first.now links.ends.second.now links.elided.now need.now k.0 }
    ensures { result ≡ true → all_from links.entry.ends.first.now links.entry.ends.second.now links.entry.elided.now need.now k.0 ≡ [] }
{
    if lab.len() < need.len() {
        return false;
    }
    if !all_fine(links, need, lab, k) {
        return false;
    }
    let mut odd = [false; LABELS];
    parities(need, lab, &mut odd);
    let inside = cut_size(need, lab);
    let odds = odd_labels(&odd);
    inside < odds
}

// The same of labels in an array.
fn barred_by(links: Links, need: &[u8], lab: &[usize; MAX_ATOMS], k: BondId) -> bool
    requires { BondTables links.ends.first.now links.ends.second.now links.elided.now need.now k.0 }
    ensures { result ≡ true → all_from links.entry.ends.first.now links.entry.ends.second.now links.entry.elided.now need.now k.0 ≡ [] }
{
    barred(links, need, lab, k)
}

// The bonds from k on have no matching, for a reason that was found and checked.
fn hopeless(links: &Links, need: &[u8], k: BondId, mate: &mut [u16; MAX_ATOMS]) -> bool
    requires { BondTables links.now.ends.first.now links.now.ends.second.now links.now.elided.now need.now k.0 }
    ensures { result ≡ true → all_from links.now.ends.first.now links.now.ends.second.now links.now.elided.now need.now k.0 ≡ [] }
{
    let mut lab = [OUTSIDE; MAX_ATOMS];
    if matching_blossom::propose(*links, need, k, mate, &mut lab) {
        return barred_by(*links, need, &lab, k);
    }
    false
}

// The first matching of the bonds from k on, written to the row from k on; zeros where there is none.
fn seek_from(
    links: &Links,
    need: &mut [u8],
    row: &mut [u8],
    k: BondId,
    mate: &mut [u16; MAX_ATOMS],
) -> bool
    requires { Shape links.now.ends.first.now links.now.ends.second.now links.now.elided.now need.old row.old k.0 }
    ensures { Searched need.old row.old k.0 (length links.now.ends.first.now) (all_from links.now.ends.first.now links.now.ends.second.now links.now.elided.now need.old k.0) result need.new row.new }
{
    for at in k.0..links.ends.first.len() {
        if matching_search::choosable(*links, need, BondId(at)) {
            if hopeless(links, need, BondId(at), mate) {
                matching_search::blank(row, BondId(at), BondId(links.ends.first.len()));
                return false;
            }
            matching_search::mark(links.ends, need, BondId(at), 0);
            row[at] = 1;
            let found = seek_from(links, need, row, BondId(at + 1), mate);
            matching_search::mark(links.ends, need, BondId(at), 1);
            if found {
                return true;
            }
        }
        row[at] = 0;
    }
    matching_search::all_paired(need)
}

// internal: the same, with no mates known.
pub fn seek(links: Links, need: &mut [u8], row: &mut [u8], k: BondId) -> bool
    requires { Shape links.ends.first.now links.ends.second.now links.elided.now need.old row.old k.0 }
    ensures { Searched need.old row.old k.0 (length links.entry.ends.first.now) (all_from links.entry.ends.first.now links.entry.ends.second.now links.entry.elided.now need.old k.0) result need.new row.new }
{
    let mut mate = [EMPTY; MAX_ATOMS];
    seek_from(&links, need, row, k, &mut mate)
}
