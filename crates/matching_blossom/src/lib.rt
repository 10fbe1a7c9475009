// A search for a reason why no matching is left: a matching of the bonds from k on is made larger by augmenting paths
// through blossoms (Edmonds) until an atom stays over; its tree gives the labels. Nothing is promised of what it finds, and
// `matching_certified` checks it: a wrong reason costs time and never an answer. Every function here is safe and ends.
//
// Tables hold atom numbers, or EMPTY. The free bonds are kept as halves: the half 2 j leads from the first end of the bond j
// to the second, and 2 j + 1 back. `head` has 1 more than the first half at each atom, `link` that of the next; 0 ends a list.
#![tactic(auto)]

use ids::{AtomId, BondId, MAX_ATOMS, MAX_BONDS};
use matching::Links;

// No atom.
const NONE: usize = MAX_ATOMS;
// internal: no atom, in a table.
pub const EMPTY: u16 = MAX_ATOMS as u16;
// internal: the label of the atoms outside the tree, the largest.
pub const OUTSIDE: usize = MAX_ATOMS + 1;
// internal: as many labels as there are.
pub const LABELS: usize = MAX_ATOMS + 2;
// internal: as many halves as bonds have ends.
pub const HALVES: usize = 2 * MAX_BONDS;

// What a table holds for the atom v, as an atom; none past its end.
fn get(table: &[u16], v: AtomId) -> AtomId {
    let at = v.0;
    if at < table.len() {
        AtomId(usize::from(table[at]))
    } else {
        AtomId(NONE)
    }
}

// Makes w what the table holds for the atom v.
fn put(table: &mut [u16], v: AtomId, w: AtomId) {
    let at = v.0;
    if at < table.len() {
        table[at] = (w.0 % 65536) as u16;
    }
}

// Marks the atom v with a number.
fn set(marks: &mut [u8], v: AtomId, x: u8) {
    let at = v.0;
    if at < marks.len() {
        marks[at] = x;
    }
}

// Whether the atom v is marked with 1.
fn marked(marks: &[u8], v: AtomId) -> bool {
    let at = v.0;
    at < marks.len() && marks[at] == 1
}

// The end of the bond k in a table of ends; none past its end.
fn end_of(ends: &[u16], k: BondId) -> AtomId {
    get(ends, AtomId(k.0))
}

// The bond k can be chosen.
fn usable(links: Links, need: &[u8], k: BondId) -> bool {
    let at = k.0;
    at < links.elided.len()
        && links.elided[at] == 1
        && marked(need, end_of(links.ends.first, k))
        && marked(need, end_of(links.ends.second, k))
}

// Puts the half h in front of the list of the atom v.
fn hang(head: &mut [u16; MAX_ATOMS], link: &mut [u16; HALVES], v: AtomId, h: usize) {
    let at = v.0;
    if at < MAX_ATOMS && h < HALVES {
        link[h] = head[at];
        head[at] = (h + 1) as u16;
    }
}

// Marks the ends of a bond whose ends are mates.
fn confirm(mate: &[u16], ok: &mut [u8], a: AtomId, b: AtomId) {
    let x = get(mate, a);
    let y = get(mate, b);
    if x.0 == b.0 && y.0 == a.0 {
        set(ok, a, 1);
        set(ok, b, 1);
    }
}

// Lists the bond k if it is usable, and marks its ends if they are mates.
fn gather_bond(
    links: Links,
    need: &[u8],
    k: BondId,
    mate: &[u16],
    ok: &mut [u8],
    head: &mut [u16; MAX_ATOMS],
    link: &mut [u16; HALVES],
) {
    let at = k.0;
    if at < MAX_BONDS && usable(links, need, k) {
        let a = end_of(links.ends.first, k);
        let b = end_of(links.ends.second, k);
        hang(head, link, a, 2 * at);
        hang(head, link, b, 2 * at + 1);
        confirm(mate, ok, a, b);
    }
}

// Forgets the mates of the atoms that are not marked.
fn tidy(mate: &mut [u16], ok: &[u8]) {
    let n = ok.len();
    for v in 0..n {
        if !marked(ok, AtomId(v)) {
            put(mate, AtomId(v), AtomId(NONE));
        }
    }
}

// Lists the usable bonds from k on, and forgets mates that none of them joins; `ok` comes with no mark.
fn gather(
    links: Links,
    need: &[u8],
    k: BondId,
    mate: &mut [u16],
    ok: &mut [u8],
    head: &mut [u16; MAX_ATOMS],
    link: &mut [u16; HALVES],
) {
    let from = k.0;
    let m = links.elided.len();
    for j in from..m {
        gather_bond(links, need, BondId(j), mate, ok, head, link);
    }
    tidy(mate, ok);
}

// One more than the first half at the atom v, or 0.
fn first_half(head: &[u16; MAX_ATOMS], v: AtomId) -> usize {
    let at = v.0;
    if at < MAX_ATOMS {
        usize::from(head[at])
    } else {
        0
    }
}

// One more than the half after h at its atom, or 0.
fn next_half(link: &[u16; HALVES], h: usize) -> usize {
    if h < HALVES { usize::from(link[h]) } else { 0 }
}

// The atom to which the half h leads.
fn far(links: Links, h: usize) -> AtomId {
    if h % 2 == 0 {
        end_of(links.ends.second, BondId(h / 2))
    } else {
        end_of(links.ends.first, BondId(h / 2))
    }
}

// Marks the bases on the way up from v.
fn climb(mate: &[u16], up: &[u16], base: &[u16], seen: &mut [u8], v: AtomId) {
    let mut a = v;
    for _ in 0..MAX_ATOMS {
        a = get(base, a);
        set(seen, a, 1);
        let m = get(mate, a);
        if m.0 == NONE {
            break;
        }
        a = get(up, m);
    }
}

// The base at which the ways up from v and w meet.
fn meet(mate: &[u16], up: &[u16], base: &[u16], v: AtomId, w: AtomId) -> AtomId {
    let mut seen = [0u8; MAX_ATOMS];
    climb(mate, up, base, &mut seen, v);
    let mut b = w;
    for _ in 0..MAX_ATOMS {
        b = get(base, b);
        if marked(&seen, b) {
            break;
        }
        let m = get(mate, b);
        b = get(up, m);
    }
    b
}

// Marks the bases on the way from v to the base r, and turns the way round.
fn shrink(
    mate: &[u16],
    up: &mut [u16],
    base: &[u16],
    inside: &mut [u8],
    v: AtomId,
    r: AtomId,
    child: AtomId,
) {
    let mut a = v;
    let mut below = child;
    for _ in 0..MAX_ATOMS {
        let b = get(base, a);
        if b.0 == r.0 || a.0 == NONE {
            break;
        }
        set(inside, b, 1);
        let m = get(mate, a);
        set(inside, get(base, m), 1);
        put(up, a, below);
        below = m;
        a = get(up, m);
    }
}

// Puts the atom v at the end of the queue of outer atoms, if it is not there.
fn push(outer: &mut [u8], queue: &mut [u16; MAX_ATOMS], count: &mut usize, v: AtomId) {
    let at = *count;
    if at < MAX_ATOMS && v.0 < outer.len() && !marked(outer, v) {
        set(outer, v, 1);
        put(queue, AtomId(at), v);
        *count = at + 1;
    }
}

// The atom v, if its base is marked, gets the base r and is outer.
fn rebase_atom(
    base: &mut [u16],
    inside: &[u8],
    r: AtomId,
    outer: &mut [u8],
    queue: &mut [u16; MAX_ATOMS],
    count: &mut usize,
    v: AtomId,
) {
    let b = get(base, v);
    if marked(inside, b) {
        put(base, v, r);
        push(outer, queue, count, v);
    }
}

// Every atom whose base is marked gets the base r and is outer.
fn rebase(
    base: &mut [u16],
    inside: &[u8],
    r: AtomId,
    outer: &mut [u8],
    queue: &mut [u16; MAX_ATOMS],
    count: &mut usize,
) {
    let n = base.len();
    for v in 0..n {
        rebase_atom(base, inside, r, outer, queue, count, AtomId(v));
    }
}

// The outer atoms v and w are joined: the odd circle through them becomes one base.
fn contract(
    mate: &[u16],
    up: &mut [u16],
    base: &mut [u16],
    outer: &mut [u8],
    queue: &mut [u16; MAX_ATOMS],
    count: &mut usize,
    v: AtomId,
    w: AtomId,
) {
    let r = meet(mate, up, base, v, w);
    let mut inside = [0u8; MAX_ATOMS];
    shrink(mate, up, base, &mut inside, v, r, w);
    shrink(mate, up, base, &mut inside, w, r, v);
    rebase(base, &inside, r, outer, queue, count);
}

// From the outer atom v along a bond to w: w if it ends an augmenting path, else none.
fn visit(
    mate: &[u16],
    up: &mut [u16],
    base: &mut [u16],
    outer: &mut [u8],
    queue: &mut [u16; MAX_ATOMS],
    count: &mut usize,
    v: AtomId,
    w: AtomId,
) -> AtomId {
    let bv = get(base, v);
    let bw = get(base, w);
    let mv = get(mate, v);
    if bv.0 == bw.0 || mv.0 == w.0 {
        return AtomId(NONE);
    }
    if marked(outer, w) {
        contract(mate, up, base, outer, queue, count, v, w);
        return AtomId(NONE);
    }
    let uw = get(up, w);
    if uw.0 == NONE {
        put(up, w, v);
        let mw = get(mate, w);
        if mw.0 == NONE {
            return w;
        }
        push(outer, queue, count, mw);
    }
    AtomId(NONE)
}

// All bonds of the outer atom v: the end of an augmenting path, or none.
fn spread(
    links: Links,
    head: &[u16; MAX_ATOMS],
    link: &[u16; HALVES],
    mate: &[u16],
    up: &mut [u16],
    base: &mut [u16],
    outer: &mut [u8],
    queue: &mut [u16; MAX_ATOMS],
    count: &mut usize,
    v: AtomId,
) -> AtomId {
    let mut h = first_half(head, v);
    for _ in 0..HALVES {
        if h == 0 {
            break;
        }
        let at = h - 1;
        let end = visit(mate, up, base, outer, queue, count, v, far(links, at));
        if end.0 != NONE {
            return end;
        }
        h = next_half(link, at);
    }
    AtomId(NONE)
}

// No atom is in the tree.
fn reset(up: &mut [u16], base: &mut [u16], outer: &mut [u8]) {
    let n = base.len();
    for v in 0..n {
        put(up, AtomId(v), AtomId(NONE));
        put(base, AtomId(v), AtomId(v));
        set(outer, AtomId(v), 0);
    }
}

// A tree from the atom root, which has no mate: the end of an augmenting path, or none.
fn grow(
    links: Links,
    head: &[u16; MAX_ATOMS],
    link: &[u16; HALVES],
    mate: &[u16],
    up: &mut [u16],
    base: &mut [u16],
    outer: &mut [u8],
    root: AtomId,
) -> AtomId {
    reset(up, base, outer);
    let mut queue = [0u16; MAX_ATOMS];
    let mut count: usize = 0;
    push(outer, &mut queue, &mut count, root);
    for at in 0..MAX_ATOMS {
        if count <= at {
            break;
        }
        let v = AtomId(usize::from(queue[at]));
        let end = spread(
            links, head, link, mate, up, base, outer, &mut queue, &mut count, v,
        );
        if end.0 != NONE {
            return end;
        }
    }
    AtomId(NONE)
}

// Pairs anew along the path that ends at v.
fn augment(mate: &mut [u16], up: &[u16], v: AtomId) {
    let mut a = v;
    for _ in 0..MAX_ATOMS {
        if a.0 == NONE {
            break;
        }
        let p = get(up, a);
        let next = get(mate, p);
        put(mate, a, p);
        put(mate, p, a);
        a = next;
    }
}

// The label of the atom v: 0 for an inner atom, 1 more than its base for an outer one, OUTSIDE for one outside the tree.
fn label_of(up: &[u16], base: &[u16], outer: &[u8], v: AtomId) -> usize {
    if marked(outer, v) {
        let b = get(base, v);
        return if b.0 < MAX_ATOMS { b.0 + 1 } else { OUTSIDE };
    }
    let u = get(up, v);
    if u.0 != NONE { 0 } else { OUTSIDE }
}

// The labels of the tree.
fn label(up: &[u16], base: &[u16], outer: &[u8], lab: &mut [usize; MAX_ATOMS]) {
    let n = base.len().min(MAX_ATOMS);
    for v in 0..n {
        lab[v] = label_of(up, base, outer, AtomId(v));
    }
}

// Gives the atom v a mate if it has none and needs one; false, with its tree, where it stays over.
fn pair(
    links: Links,
    need: &[u8],
    head: &[u16; MAX_ATOMS],
    link: &[u16; HALVES],
    mate: &mut [u16],
    up: &mut [u16],
    base: &mut [u16],
    outer: &mut [u8],
    v: AtomId,
) -> bool {
    let m = get(mate, v);
    if m.0 != NONE || !marked(need, v) {
        return true;
    }
    let end = grow(links, head, link, mate, up, base, outer, v);
    if end.0 == NONE {
        return false;
    }
    augment(mate, up, end);
    true
}

// Gives every atom that needs one a mate; false, with the labels of its tree, where an atom stays over.
fn pair_all(
    links: Links,
    need: &[u8],
    head: &[u16; MAX_ATOMS],
    link: &[u16; HALVES],
    mate: &mut [u16],
    up: &mut [u16],
    base: &mut [u16],
    outer: &mut [u8],
    lab: &mut [usize; MAX_ATOMS],
) -> bool {
    let n = base.len();
    for v in 0..n {
        if !pair(links, need, head, link, mate, up, base, outer, AtomId(v)) {
            label(up, base, outer, lab);
            return false;
        }
    }
    true
}

// internal: looks for a reason why the bonds from k on have no matching, and hands back whether the labels should be one.
// The mates are kept from call to call, so that a call after a small change is quick.
pub fn propose(
    links: Links,
    need: &[u8],
    k: BondId,
    mate: &mut [u16; MAX_ATOMS],
    lab: &mut [usize; MAX_ATOMS],
) -> bool {
    let n = need.len().min(MAX_ATOMS);
    let mut head = [0u16; MAX_ATOMS];
    let mut link = [0u16; HALVES];
    let mut ok = [0u8; MAX_ATOMS];
    gather(links, need, k, mate, &mut ok[..n], &mut head, &mut link);
    let mut up = [EMPTY; MAX_ATOMS];
    let mut base = [EMPTY; MAX_ATOMS];
    let mut outer = [0u8; MAX_ATOMS];
    !pair_all(
        links,
        need,
        &head,
        &link,
        mate,
        &mut up[..n],
        &mut base[..n],
        &mut outer[..n],
        lab,
    )
}
