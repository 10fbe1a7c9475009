// The walk of a molecule, depth first, into arrays by walk number.
#![tactic(auto)]

ghost use Rattle.std.specs.Prelude.{◌≡◌, ℕ, suc, ◌+◌, ◌*◌, ◌<◌, ◌≤◌, true, length, get_or, replicate, set, eqb};
ghost use Rattle.loops.specs.Loop.{pick, up_to};
ghost use Rattle.table.specs.Limits.{max_atoms, max_bonds};
ghost use Rattle.table.specs.Cells.{end1, end2, kind};
ghost use Rattle.kinds.specs.Kind.{max_kind, order, turned};
ghost use Rattle.table_graph.specs.Graph.{bond_sum};
ghost use Rattle.table_graph.specs.Built.{bump};
ghost use Rattle.writing.specs.Write.{walk_bond, bond_list};
ghost use Rattle.writing_visit.specs.Visit.{touching, grow, root_forest, BondsFit, Linked, Room, Kept, walk_arrays, Grown, Walked};
ghost use Rattle.writing_visit.specs.Wires.{wires, Wired, LinkRoom, Places, NoteRoom};
ghost use Rattle.writing_visit.specs.Straight.{Held, Nested, Passed, Cleared, InTurn};

use ids::{AtomId, BondId};

// The number of an atom in the walk, which is its number in the written text.
#[derive(Clone, Copy)]
pub struct WalkNumber(pub usize);

// The bonds of a molecule by number: their ends and their kinds.
#[derive(Clone, Copy)]
pub struct Wiring<'a> {
    pub first: &'a [u16],
    pub second: &'a [u16],
    pub kinds: &'a [u8],
}

// The bonds at each atom as lists: the first one of each atom, and behind each bond the next one at either end.
#[derive(Clone, Copy)]
struct Chains<'a> {
    head: &'a [u16],
    after: &'a [u16],
    behind: &'a [u16],
}

// The walk of a molecule: by walk number the atom, its parent's walk number plus 1 and the kind of the bond to it; and each atom's walk number plus 1.
#[derive(Clone, Copy)]
pub struct Trail<'a> {
    pub order: &'a [u16],
    pub number: &'a [u16],
    pub up: &'a [u16],
    pub kind: &'a [u8],
}

// A bond: its ends and its kind.
#[derive(Clone, Copy)]
struct Wire {
    first: AtomId,
    second: AtomId,
    kind: usize,
}

// A bond of the table.
fn read_bond(bonds: &[i32], b: BondId) -> Wire
    requires { b.0 < max_bonds }
    ensures first_value { (result.first.0 ≡ end1 bonds.now b.0) × (result.second.0 ≡ end2 bonds.now b.0) }
    ensures kind_value { result.kind ≡ kind bonds.now b.0 }
{
    let row = table::row::get_bond(bonds, b);
    Wire {
        first: AtomId(table::cell::number(row.first)),
        second: AtomId(table::cell::number(row.second)),
        kind: table::cell::number(row.kind),
    }
}

// Notes a bond: its ends, its kind, and its order at the bond sums of its ends.
fn note_bond(b: BondId, x: Wire, ea: &mut [u16], eb: &mut [u16], ks: &mut [u8], sums: &mut [u16])
    requires b_in_bounds { (b.0 < length ea.old) × (b.0 < length eb.old) }
    requires b_in_bounds_2 { (b.0 < length ks.old) × (x.second.0 < length sums.old) }
    requires first_lt_second { (x.first.0 < x.second.0) × (x.second.0 < max_atoms) }
    requires kind_le_max_kind { x.kind ≤ max_kind }
    requires by_index { (a : ℕ) → get_or sums.old a 0 ≤ 3 * max_bonds }
    ensures ea_after { ea.new ≡ set ea.old b.0 x.first.0 }
    ensures eb_after { eb.new ≡ set eb.old b.0 x.second.0 }
    ensures ks_after { ks.new ≡ set ks.old b.0 x.kind }
    ensures sums_after { sums.new ≡ bump (bump sums.old x.first.0 (order x.kind)) x.second.0 (order x.kind) }
{
    let i = b.0;
    let e = x.first.0;
    let f = x.second.0;
    ea[i] = e as u16;
    eb[i] = f as u16;
    ks[i] = x.kind as u8;
    let order = kinds::order(x.kind) as u16;
    sums[e] += order;
    sums[f] += order;
}

// The bonds in arrays, with the bond sums.
fn note(bonds: &[i32], m: usize, ea: &mut [u16], eb: &mut [u16], ks: &mut [u8], sums: &mut [u16])
    requires bonds_fit { BondsFit (walk_bond bonds.now) max_atoms m }
    requires sums_value { sums.old ≡ replicate (length sums.old) 0 }
    requires note_room { NoteRoom bonds.now m ea.old eb.old ks.old sums.old }
    ensures wired { Wired bonds.now m 0 ea.new eb.new ks.new }
    ensures sums_after { sums.new ≡ up_to (bond_sum bonds.now m) 0 (length sums.old) }
{
    for b in (0..m).rev() {
        let x = read_bond(bonds, BondId(b));
        note_bond(BondId(b), x, ea, eb, ks, sums);
    }
}

// Puts a bond in front of the lists of its two ends.
fn link_bond(b: BondId, x: Wire, head: &mut [u16], after: &mut [u16], behind: &mut [u16])
    requires b_lt_max_bonds { b.0 < max_bonds }
    requires b_in_bounds { (b.0 < length after.old) × (b.0 < length behind.old) }
    requires first_in_bounds { (x.first.0 < length head.old) × (x.second.0 < length head.old) }
    ensures head_after { head.new ≡ set (set head.old x.first.0 b.0) x.second.0 b.0 }
    ensures after_after { after.new ≡ set after.old b.0 (get_or head.old x.first.0 0) }
    ensures behind_after { behind.new ≡ set behind.old b.0 (get_or head.old x.second.0 0) }
{
    let i = b.0;
    let e = x.first.0;
    let f = x.second.0;
    after[i] = head[e];
    behind[i] = head[f];
    head[e] = i as u16;
    head[f] = i as u16;
}

// The bonds at each atom as lists, from heads that are all m.
fn link(bonds: &[i32], m: usize, head: &mut [u16], after: &mut [u16], behind: &mut [u16])
    requires bonds_fit { BondsFit (walk_bond bonds.now) max_atoms m }
    requires head_value { head.old ≡ replicate (length head.old) m }
    requires link_room { LinkRoom bonds.now m head.old after.old behind.old }
    ensures { Linked (walk_bond bonds.now) m 0 head.new after.new behind.new }
{
    for b in (0..m).rev() {
        let x = read_bond(bonds, BondId(b));
        link_bond(BondId(b), x, head, after, behind);
    }
}

// A bond as the walk sees it from an atom: the other end, the kind, and the next bond at the atom.
#[derive(Clone, Copy)]
struct Step {
    other: AtomId,
    kind: u8,
    next: BondId,
}

// The other end of a bond at an atom, its kind as seen from there, and the next bond at the atom behind it; m where there is none.
fn follow(wiring: &Wiring, chains: &Chains, b: BondId, v: AtomId) -> Step
    requires b_in_bounds { (b.0 < length wiring.now.first.now) × (b.0 < length wiring.now.second.now) }
    requires b_in_bounds_2 { (b.0 < length chains.now.after.now) × (b.0 < length chains.now.behind.now) }
    requires b_in_bounds_3 { b.0 < length wiring.now.kinds.now }
    requires b_bound { (get_or wiring.now.first.now b.0 0 < max_atoms) × (get_or wiring.now.second.now b.0 0 < max_atoms) }
    requires b_bound_2 { (get_or chains.now.after.now b.0 0 ≤ max_bonds) × (get_or chains.now.behind.now b.0 0 ≤ max_bonds) }
    ensures other_value { result.other.0 ≡ pick (eqb (get_or wiring.now.first.now b.0 0) v.0) (get_or wiring.now.second.now b.0 0) (get_or wiring.now.first.now b.0 0) }
    ensures kind_value { result.kind ≡ pick (eqb (get_or wiring.now.first.now b.0 0) v.0) (get_or wiring.now.kinds.now b.0 0) (turned (get_or wiring.now.kinds.now b.0 0)) }
    ensures next_value { result.next.0 ≡ pick (eqb (get_or wiring.now.first.now b.0 0) v.0) (get_or chains.now.after.now b.0 0) (get_or chains.now.behind.now b.0 0) }
{
    let Chains { after, behind, .. } = *chains;
    let i = b.0;
    let first = wiring.first[i] as usize;
    let kind = wiring.kinds[i];
    if first == v.0 {
        let second = wiring.second[i] as usize;
        let next = after[i] as usize;
        return Step {
            other: AtomId(second),
            kind,
            next: BondId(next),
        };
    }
    let next = behind[i] as usize;
    let turned = kinds::turned(kind);
    Step {
        other: AtomId(first),
        kind: turned,
        next: BondId(next),
    }
}

// One more atom is visited, with its parent's walk number plus 1 and the kind of the bond to it.
fn add(
    order: &mut [u16],
    number: &mut [u16],
    up: &mut [u16],
    kind: &mut [u8],
    v: AtomId,
    parent: usize,
    k: u8,
    count: usize,
)
    requires v_lt_max_atoms { (v.0 < max_atoms) × (count < max_atoms) }
    requires count_in_bounds { (count < length order.old) × (v.0 < length number.old) }
    requires count_in_bounds_2 { (count < length up.old) × (count < length kind.old) }
    requires parent_le_max_atoms { parent ≤ max_atoms }
    ensures order_after { order.new ≡ set order.old count v.0 }
    ensures number_after { number.new ≡ set number.old v.0 (count + 1) }
    ensures up_after { up.new ≡ set up.old count parent }
    ensures kind_after { kind.new ≡ set kind.old count k }
{
    let a = v.0;
    order[count] = a as u16;
    number[a] = (count + 1) as u16;
    up[count] = parent as u16;
    kind[count] = k;
}

// The part of the walk at an atom, from one of its bonds on (m for none): each atom not yet visited, with all that is reached from it first. The number of atoms visited then. Behind the last bond of an atom the walk goes on in the same turn, so that it calls itself only where it comes back.
fn visit(
    wiring: &Wiring,
    n: usize,
    m: usize,
    chains: &Chains,
    order: &mut [u16],
    number: &mut [u16],
    up: &mut [u16],
    kind: &mut [u8],
    v: AtomId,
    hub: WalkNumber,
    from: BondId,
    count: usize,
) -> usize
    requires bonds_fit { BondsFit (wires wiring.now.first.now wiring.now.second.now wiring.now.kinds.now) n m }
    requires places { Places n m chains.now.head.now chains.now.after.now chains.now.behind.now wiring.now.first.now wiring.now.second.now wiring.now.kinds.now }
    requires linked { Linked (wires wiring.now.first.now wiring.now.second.now wiring.now.kinds.now) m 0 chains.now.head.now chains.now.after.now chains.now.behind.now }
    requires room { Room n order.old number.old up.old kind.old }
    requires hub_lt_max_atoms { (hub.0 < max_atoms) × (from.0 ≤ m) }
    requires from_value { from.0 < m → touching (wires wiring.now.first.now wiring.now.second.now wiring.now.kinds.now) v.0 from.0 ≡ true }
    ensures grown { Grown n (suc hub.0) (grow (wires wiring.now.first.now wiring.now.second.now wiring.now.kinds.now) n m v.0 from.0) (walk_arrays order.old number.old up.old kind.old count) (walk_arrays order.new number.new up.new kind.new result) }
    ensures kept { Kept order.old number.old up.old kind.old order.new number.new up.new kind.new }
{
    let Chains { head, .. } = *chains;
    let mut here = v.0;
    let mut parent = hub.0;
    let mut b = from.0;
    let mut next = count;
    while b < m {
        let i = b;
        let seen = follow(wiring, chains, BondId(i), AtomId(here));
        let a = seen.other.0;
        b = seen.next.0;
        if number[a] != 0 {
            continue;
        }
        if n <= next {
            return next;
        }
        add(
            order,
            number,
            up,
            kind,
            AtomId(a),
            parent + 1,
            seen.kind,
            next,
        );
        let start = head[a] as usize;
        if m <= b {
            here = a;
            parent = next;
            b = start;
            next += 1;
            continue;
        }
        next = visit(
            wiring,
            n,
            m,
            chains,
            order,
            number,
            up,
            kind,
            AtomId(a),
            WalkNumber(next),
            BondId(start),
            next + 1,
        );
    }
    next
}

// A root of the walk, if the atom was not visited, with all that is reached from it. The number of atoms visited then.
fn root(
    wiring: &Wiring,
    n: usize,
    m: usize,
    chains: &Chains,
    order: &mut [u16],
    number: &mut [u16],
    up: &mut [u16],
    kind: &mut [u8],
    a: AtomId,
    count: usize,
) -> usize
    requires bonds_fit { BondsFit (wires wiring.now.first.now wiring.now.second.now wiring.now.kinds.now) n m }
    requires places { Places n m chains.now.head.now chains.now.after.now chains.now.behind.now wiring.now.first.now wiring.now.second.now wiring.now.kinds.now }
    requires linked { Linked (wires wiring.now.first.now wiring.now.second.now wiring.now.kinds.now) m 0 chains.now.head.now chains.now.after.now chains.now.behind.now }
    requires room { Room n order.old number.old up.old kind.old }
    requires a_lt_n { a.0 < n }
    ensures grown { Grown n 0 (root_forest (wires wiring.now.first.now wiring.now.second.now wiring.now.kinds.now) n m a.0) (walk_arrays order.old number.old up.old kind.old count) (walk_arrays order.new number.new up.new kind.new result) }
    ensures kept { Kept order.old number.old up.old kind.old order.new number.new up.new kind.new }
{
    let Chains { head, .. } = *chains;
    let v = a.0;
    if number[v] != 0 {
        return count;
    }
    if n <= count {
        return count;
    }
    add(order, number, up, kind, a, 0, 0, count);
    let start = head[v] as usize;
    visit(
        wiring,
        n,
        m,
        chains,
        order,
        number,
        up,
        kind,
        a,
        WalkNumber(count),
        BondId(start),
        count + 1,
    )
}

// Clears the cells of two arrays from one place on and before another.
fn clear(up: &mut [u16], kind: &mut [u8], from: usize, to: usize)
    requires { (to ≤ length up.old) × (to ≤ length kind.old) }
    ensures cleared { Cleared from to up.old up.new }
    ensures cleared_2 { Cleared from to kind.old kind.new }
{
    for a in from..to {
        up[a] = 0;
        kind[a] = 0;
    }
}

// The most steps up from an atom in search of another: rings that are longer are left to the walk by chains.
const REACH: usize = 64;

// Whether an atom is found on the way up from another; both are given by their numbers plus 1.
fn is_above(up: &[u16], from: usize, to: usize) -> bool
    requires from_in_bounds { from ≤ length up.now }
    requires nested { Nested up.now from }
    ensures { result ≡ true → Held up.now to from }
{
    let mut a = from;
    for _ in 0..REACH {
        if a <= to {
            break;
        }
        a = up[a - 1] as usize;
    }
    a == to
}

// One more bond of a straight walk, with the number of atoms that have their parents: that number then, 0 where the walk is not seen to be straight. A new atom is entered, those skipped are roots; a further bond of the last atom comes from above it.
fn pass(wiring: Wiring, b: BondId, next: usize, up: &mut [u16], kind: &mut [u8]) -> usize
    requires b_in_bounds { (b.0 < length wiring.first.now) × (b.0 < length wiring.second.now) }
    requires b_in_bounds_2 { b.0 < length wiring.kinds.now }
    requires b_bound { get_or wiring.first.now b.0 0 < get_or wiring.second.now b.0 0 }
    requires b_in_bounds_3 { (get_or wiring.second.now b.0 0 < length up.old) × (get_or wiring.second.now b.0 0 < length kind.old) }
    requires b_bound_2 { (get_or wiring.second.now b.0 0 < max_atoms) × (next ≤ length up.old) }
    requires nested { Nested up.old next }
    requires passed { Passed (wires wiring.first.now wiring.second.now wiring.kinds.now) b.0 next up.old kind.old }
    ensures passed_2 { 0 < result → Passed (wires wiring.entry.first.now wiring.entry.second.now wiring.entry.kinds.now) (suc b.0) result up.new kind.new }
    ensures by_index { (n : ℕ) → next ≤ n → get_or wiring.entry.second.now b.0 0 < n → result ≤ n }
{
    let i = b.0;
    let parent = wiring.first[i] as usize + 1;
    let a = wiring.second[i] as usize;
    if next <= a {
        clear(up, kind, next, a);
        if is_above(up, a, parent) {
            up[a] = parent as u16;
            kind[a] = wiring.kinds[i];
            return a + 1;
        }
        return 0;
    }
    if a + 1 < next {
        return 0;
    }
    if is_above(up, next, parent) {
        return next;
    }
    0
}

// Whether the walk is seen to be straight, with each atom's parent plus 1 and the kind of the bond to it.
fn is_straight(wiring: Wiring, n: usize, m: usize, up: &mut [u16], kind: &mut [u8]) -> bool
    requires bonds_fit { BondsFit (wires wiring.first.now wiring.second.now wiring.kinds.now) n m }
    requires m_in_bounds { (m ≤ length wiring.first.now) × (m ≤ length wiring.second.now) }
    requires m_in_bounds_2 { m ≤ length wiring.kinds.now }
    requires n_in_bounds { (n ≤ length up.old) × (n ≤ length kind.old) }
    ensures { result ≡ true → Passed (wires wiring.entry.first.now wiring.entry.second.now wiring.entry.kinds.now) m n up.new kind.new }
{
    let mut next = 0;
    for b in 0..m {
        next = pass(wiring, BondId(b), next, up, kind);
        if next == 0 {
            return false;
        }
    }
    clear(up, kind, next, n);
    true
}

// The atoms by ascending number, with their walk numbers plus 1.
fn number_in_turn(order: &mut [u16], number: &mut [u16], n: usize)
    requires n_in_bounds { (n ≤ length order.old) × (n ≤ length number.old) }
    requires n_le_max_atoms { n ≤ max_atoms }
    ensures { InTurn n order.new number.new }
{
    for a in 0..n {
        order[a] = a as u16;
        number[a] = (a + 1) as u16;
    }
}

// The walk by lists of the bonds at each atom, from heads that are all m.
fn walk_lists(
    bonds: &[i32],
    n: usize,
    m: usize,
    order: &mut [u16],
    number: &mut [u16],
    up: &mut [u16],
    kind: &mut [u8],
    wiring: Wiring,
    head: &mut [u16],
    after: &mut [u16],
    behind: &mut [u16],
)
    requires bonds_fit { BondsFit (walk_bond bonds.now) n m }
    requires wired { Wired bonds.now m 0 wiring.first.now wiring.second.now wiring.kinds.now }
    requires room { Room n order.old number.old up.old kind.old }
    requires number_value { number.old ≡ replicate (length number.old) 0 }
    requires head_value { head.old ≡ replicate (length head.old) m }
    requires places { Places n m head.old after.old behind.old wiring.first.now wiring.second.now wiring.kinds.now }
    ensures walked { Walked (bond_list bonds.now m) n order.new number.new up.new kind.new }
    ensures kept { Kept order.old number.old up.old kind.old order.new number.new up.new kind.new }
{
    link(bonds, m, head, after, behind);
    let chains = Chains {
        head,
        after,
        behind,
    };
    let mut count = 0;
    for a in 0..n {
        count = root(
            &wiring,
            n,
            m,
            &chains,
            order,
            number,
            up,
            kind,
            AtomId(a),
            count,
        );
    }
}

// internal: the walk of a molecule, by walk number: the atom, its parent's walk number plus 1 (0 for a root) and the kind of the bond to it; and each atom's walk number plus 1. Also the bonds: their ends, their kinds and the bond sums. Three buffers, the first of them all m, are for the bonds at each atom.
pub fn walk(
    bonds: &[i32],
    n: usize,
    m: usize,
    order: &mut [u16],
    number: &mut [u16],
    up: &mut [u16],
    kind: &mut [u8],
    ea: &mut [u16],
    eb: &mut [u16],
    ks: &mut [u8],
    sums: &mut [u16],
    head: &mut [u16],
    after: &mut [u16],
    behind: &mut [u16],
)
    requires bonds_fit { BondsFit (walk_bond bonds.now) n m }
    requires room { Room n order.old number.old up.old kind.old }
    requires number_value { number.old ≡ replicate (length number.old) 0 }
    requires head_value { (head.old ≡ replicate (length head.old) m) × (sums.old ≡ replicate (length sums.old) 0) }
    requires places { Places n m head.old after.old behind.old ea.old eb.old ks.old }
    requires n_in_bounds { n ≤ length sums.old }
    ensures walked { Walked (bond_list bonds.now m) n order.new number.new up.new kind.new }
    ensures kept { Kept order.old number.old up.old kind.old order.new number.new up.new kind.new }
    ensures wired { Wired bonds.now m 0 ea.new eb.new ks.new }
    ensures sums_after { sums.new ≡ up_to (bond_sum bonds.now m) 0 (length sums.old) }
{
    note(bonds, m, ea, eb, ks, sums);
    let wiring = Wiring {
        first: ea,
        second: eb,
        kinds: ks,
    };
    if is_straight(wiring, n, m, up, kind) {
        number_in_turn(order, number, n);
        return;
    }
    walk_lists(
        bonds, n, m, order, number, up, kind, wiring, head, after, behind,
    );
}
