// What atoms with few candidates leave to their neighbours, in a search for a renumbering between matrices with open bonds. Every function here is internal.
#![tactic(auto)]

ghost use Rattle.std.specs.Prelude.{◌≡◌, false, List, ℕ, ◌<◌, ◌≤◌};
ghost use Rattle.same_model.specs.Same.{max_same, image};
ghost use Rattle.same_open.specs.Open.{classes, bit, Among};
ghost use Rattle.same_support.specs.Support.{Reaches, Leaves};

use same_open::{ALLOWED, Quest, class, narrow};
use same_place::{CELLS, SIDE};

// How many candidates an atom may have for it to be worked out what they leave to its neighbours: atoms with one come first, then those with some.
const ONE: u32 = 1;

const SOME: u32 = 6;

const FEW: u32 = 12;

// As many as an atom can have.
const ALL: u32 = 64;

// No neighbour.
const NONE: u8 = 255;

// No class.
const NO_CLASS: usize = 6;

// The atoms that stand beside some atom of a set, over a cell of a class.
fn stand_beside(allowed: &[u64; ALLOWED], n: usize, c: usize, mask: u64) -> u64
    requires { (n ≤ max_same) × (c < classes) }
    ensures { Reaches allowed.now n mask c result }
{
    let mut side = 0u64;
    let mut rest = mask;
    let mut d = 0;
    // Stays: this counts no index, it goes from one bit that is set to the next.
    while (d < n) & (rest != 0) {
        let skip = u64::trailing_zeros(rest) as usize;
        d += skip;
        rest = rest >> skip;
        side = side | allowed[SIDE * c + d];
        rest = rest / 2;
        d += 1;
    }
    side
}

// Leaves b the candidates that are in a set too; whether there are any.
fn keep(next: &mut [u64; SIDE], b: usize, mask: u64) -> bool
    requires { b < max_same }
    ensures { Leaves next.old b (λ e. bit mask e ≡ 1) result next.new }
{
    let both = next[b] & mask;
    next[b] = both;
    both != 0
}

// Leaves each neighbour of w the candidates that stand beside some candidate of w; whether each has one.
fn spread(quest: Quest, near: &[u8; CELLS], w: usize, next: &mut [u64; SIDE]) -> bool
    requires { (quest.n ≤ max_same) × (w < quest.n) }
    ensures by_index { (t : List ℕ) → Among quest.entry.p.now quest.entry.allowed.now next.old quest.entry.n t → Among quest.entry.p.now quest.entry.allowed.now next.new quest.entry.n t }
    ensures fact { result ≡ false → (t : List ℕ) → Among quest.entry.p.now quest.entry.allowed.now next.old quest.entry.n t → ⊥ }
{
    let Quest { p, allowed, n } = quest;
    let mut c = NO_CLASS;
    let mut side = 0;
    for i in 0..n {
        let b = near[SIDE * w + i] as usize;
        if n <= b {
            return true;
        }
        if b != w {
            let other = class(p[SIDE * w + b]);
            if other != c {
                c = other;
                side = stand_beside(allowed, n, c, next[w]);
            }
            if !keep(next, b, side) {
                return false;
            }
        }
    }
    true
}

// The same for each atom of few candidates that is not placed, unless it was done for these candidates already. No claim rests on what was seen.
fn settle(
    quest: Quest,
    near: &[u8; CELLS],
    few: u32,
    placed: &[u8; SIDE],
    seen: &mut [u64; SIDE],
    next: &mut [u64; SIDE],
) -> bool
    requires { quest.n ≤ max_same }
    ensures by_index { (t : List ℕ) → Among quest.entry.p.now quest.entry.allowed.now next.old quest.entry.n t → Among quest.entry.p.now quest.entry.allowed.now next.new quest.entry.n t }
    ensures fact { result ≡ false → (t : List ℕ) → Among quest.entry.p.now quest.entry.allowed.now next.old quest.entry.n t → ⊥ }
{
    for w in 0..quest.n {
        let fresh = (placed[w] != 1) & (next[w] != seen[w]);
        if fresh && (u64::count_ones(next[w]) <= few) {
            seen[w] = next[w];
            if !spread(quest, near, w, next) {
                return false;
            }
        }
    }
    true
}

// internal: what atoms that are not placed leave to their neighbours, however many candidates they have, twice; whether each has one.
pub fn settle_all(
    quest: Quest,
    near: &[u8; CELLS],
    placed: &[u8; SIDE],
    seen: &mut [u64; SIDE],
    next: &mut [u64; SIDE],
) -> bool
    requires { quest.n ≤ max_same }
    ensures by_index { (t : List ℕ) → Among quest.entry.p.now quest.entry.allowed.now next.old quest.entry.n t → Among quest.entry.p.now quest.entry.allowed.now next.new quest.entry.n t }
    ensures fact { result ≡ false → (t : List ℕ) → Among quest.entry.p.now quest.entry.allowed.now next.old quest.entry.n t → ⊥ }
{
    if !settle(quest, near, ALL, placed, seen, next) {
        return false;
    }
    settle(quest, near, ALL, placed, seen, next)
}

// internal: as `narrow`, and what atoms of few candidates leave to their neighbours.
pub fn narrow_near(
    quest: Quest,
    near: &[u8; CELLS],
    cand: &[u64; SIDE],
    v: usize,
    d: usize,
    placed: &[u8; SIDE],
    seen: &mut [u64; SIDE],
    next: &mut [u64; SIDE],
) -> bool
    requires { (quest.n ≤ max_same) × (v < quest.n) × (d < quest.n) }
    ensures by_index { (t : List ℕ) → Among quest.entry.p.now quest.entry.allowed.now cand.now quest.entry.n t → image t v ≡ d → Among quest.entry.p.now quest.entry.allowed.now next.new quest.entry.n t }
    ensures fact { result ≡ false → (t : List ℕ) → Among quest.entry.p.now quest.entry.allowed.now cand.now quest.entry.n t → image t v ≡ d → ⊥ }
{
    if !narrow(quest, cand, v, d, next) {
        return false;
    }
    if !settle(quest, near, ONE, placed, seen, next) {
        return false;
    }
    if !settle(quest, near, SOME, placed, seen, next) {
        return false;
    }
    settle(quest, near, FEW, placed, seen, next)
}

// Lists the atoms to which the atom a has a cell of a class, behind others; how many are listed then.
fn list_class(
    p: &[u16; CELLS],
    n: usize,
    a: usize,
    c: usize,
    from: usize,
    near: &mut [u8; CELLS],
) -> usize
    requires { (n ≤ max_same) × (a < n) }
{
    let mut count = from;
    for b in 0..n {
        if (class(p[SIDE * a + b]) == c) & (count < SIDE) {
            near[SIDE * a + count] = b as u8;
            count += 1;
        }
    }
    count
}

// Lists the neighbours of an atom a by the classes of their cells, then NONE.
fn list_near(p: &[u16; CELLS], n: usize, a: usize, near: &mut [u8; CELLS])
    requires { (n ≤ max_same) × (a < n) }
{
    let mut count = 0;
    for c in 1..NO_CLASS {
        count = list_class(p, n, a, c, count, near);
    }
    if count < SIDE {
        near[SIDE * a + count] = NONE;
    }
}

// internal: lists the neighbours of each atom. No claim rests on the lists.
pub fn fill_near(p: &[u16; CELLS], n: usize, near: &mut [u8; CELLS])
    requires { n ≤ max_same }
{
    for a in 0..n {
        list_near(p, n, a, near);
    }
}
