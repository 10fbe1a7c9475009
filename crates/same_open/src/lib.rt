// Whether any renumbering carries one matrix onto another where the orders of some bonds are open: a search under a budget. Every function here is internal.
#![tactic(auto)]

ghost use Rattle.std.specs.Prelude.{◌≡◌, true, false, List, ℕ, ◌^◌, ◌<◌, ◌≤◌, get_or};
ghost use Rattle.loops.specs.Loop.{each};
ghost use Rattle.same_model.specs.Same.{max_same, image};
ghost use Rattle.same_place.specs.Place.{entry};
ghost use Rattle.same_open.specs.Open.{is_inside, agree, classes, class_of, may_face, bit, Allowed, Among};

use same_place::{CELLS, SIDE};

// What an open bond adds to a cell; at least this much is open.
pub const OPEN_BOND: u16 = 17;

const OPEN: u16 = 16;

pub const ALLOWED: usize = 384;

// A question about renumberings of n atoms: they lead from a matrix p to where it is allowed beside one another.
#[derive(Clone, Copy)]
pub struct Quest<'a> {
    pub p: &'a [u16; CELLS],
    pub allowed: &'a [u64; ALLOWED],
    pub n: usize,
}

// What a search under a budget tells: whether it found a way, and what is left of the budget; where nothing was found and something is left, there is no way.
// Stays: what is left is read whether a way was found or not, so the flag and the number do not make an Option.
#[derive(Clone, Copy)]
pub struct Tried {
    pub found: bool,
    pub left: u32,
}

// Whether two cells may stand opposite one another.
fn agree(u: u16, w: u16) -> bool
    ensures { result ≡ agree u w }
{
    if (u < OPEN) & (w < OPEN) {
        return u == w;
    }
    (u != 0) & (w != 0)
}

// internal: the class of a cell.
pub fn class(u: u16) -> usize
    ensures { result ≡ class_of u }
{
    if u < 4 {
        return u as usize;
    }
    if OPEN <= u {
        return 4;
    }
    5
}

// Whether a cell of a class may stand opposite another cell.
fn may_face(c: usize, w: u16) -> bool
    requires { c < classes }
    ensures { result ≡ may_face c w }
{
    if c == 5 {
        return true;
    }
    if c == 4 {
        return w != 0;
    }
    agree(c as u16, w)
}

// internal: the numbers below n that pass a test, as bits.
pub fn mask_of<F: Fn(usize) -> bool>(n: usize, test: F) -> u64
    requires few { n ≤ max_same }
    requires callable { (e : ℕ) → e < n → F.pre test e }
    ensures low { result < 2 ^ n }
    ensures held { (e : ℕ) → e < n → (F.post test e false → ⊥) → bit result e ≡ 1 }
{
    let mut mask = 0u64;
    for e in (0..n).rev() {
        mask = 2 * mask;
        if test(e) {
            mask += 1;
        }
    }
    mask
}

// The atoms that may stand where an atom has a cell of a class to d, as bits.
fn facing(p: &[u16; CELLS], n: usize, c: usize, d: usize) -> u64
    requires { (n ≤ max_same) × (d < n) × (c < classes) }
    ensures { (e : ℕ) → e < n → (e ≡ d → ⊥) → may_face c (entry p.now d e) ≡ true → bit result e ≡ 1 }
{
    mask_of(n, |e| (e != d) & may_face(c, p[SIDE * d + e]))
}

// internal: these atoms for all classes and atoms.
pub fn fill_allowed(p: &[u16; CELLS], n: usize, allowed: &mut [u64; ALLOWED])
    requires { n ≤ max_same }
    ensures { Allowed p.now n allowed.new }
{
    for i in 0..ALLOWED {
        if i % SIDE < n {
            allowed[i] = facing(p, n, i / SIDE, i % SIDE);
        }
    }
}

// internal: the candidates of every other atom where v goes to d; whether each has one.
pub fn narrow(quest: Quest, cand: &[u64; SIDE], v: usize, d: usize, next: &mut [u64; SIDE]) -> bool
    requires { (quest.n ≤ max_same) × (v < quest.n) × (d < quest.n) }
    ensures by_index { (t : List ℕ) → Among quest.entry.p.now quest.entry.allowed.now cand.now quest.entry.n t → image t v ≡ d → Among quest.entry.p.now quest.entry.allowed.now next.new quest.entry.n t }
    ensures fact { result ≡ false → (t : List ℕ) → Among quest.entry.p.now quest.entry.allowed.now cand.now quest.entry.n t → image t v ≡ d → ⊥ }
{
    let Quest { p, allowed, n } = quest;
    let mut live = true;
    for b in 0..n {
        let mut mask = cand[b];
        if b != v {
            mask = mask & allowed[SIDE * class(p[SIDE * v + b]) + d];
        }
        next[b] = mask;
        live = live & (mask != 0);
    }
    live
}

// internal: the atom with the fewest candidates of those that are not placed, the first that has only one; among equals the one with the lowest mark. 1 marks a placed atom.
pub fn choose(cand: &[u64; SIDE], n: usize, placed: &[u8; SIDE]) -> usize
    requires { (0 < n) × (n ≤ max_same) }
    ensures { result < n }
{
    let mut v = 0;
    let mut fewest = 100;
    let mut lowest = 0u8;
    for b in 0..n {
        let mark = placed[b];
        if mark != 1 {
            let count = u64::count_ones(cand[b]);
            if count < 2 {
                return b;
            }
            if (count < fewest) | ((count == fewest) & (mark < lowest)) {
                fewest = count;
                lowest = mark;
                v = b;
            }
        }
    }
    v
}

// internal: tries the candidates of one atom after the other.
pub fn search(
    quest: Quest,
    cand: &[u64; SIDE],
    rest: usize,
    placed: &mut [u8; SIDE],
    ren: &mut [u8; SIDE],
    budget: u32,
) -> Tried
    requires { (quest.n ≤ max_same) × (rest ≤ quest.n) }
    ensures { result.found ≡ false → 0 < result.left → (t : List ℕ) → Among quest.entry.p.now quest.entry.allowed.now cand.now quest.entry.n t → ⊥ }
{
    if rest == 0 {
        return Tried {
            found: true,
            left: budget,
        };
    }
    let v = choose(cand, quest.n, placed);
    let mut left = budget;
    placed[v] = 1;
    for d in 0..quest.n {
        if left == 0 {
            return Tried {
                found: false,
                left: 0,
            };
        }
        if (cand[v] >> d) % 2 == 1 {
            left -= 1;
            let mut next = [0u64; SIDE];
            if narrow(quest, cand, v, d, &mut next) {
                ren[v] = d as u8;
                let tried = search(quest, &next, rest - 1, placed, ren, left);
                if tried.found {
                    return tried;
                }
                left = tried.left;
            }
        }
    }
    placed[v] = 0;
    Tried {
        found: false,
        left: left,
    }
}

// The atoms to which a may go, as bits.
fn candidates(ok: &[u8; CELLS], n: usize, a: usize) -> u64
    requires { (n ≤ max_same) × (a < n) }
    ensures { (e : ℕ) → e < n → entry ok.now a e ≡ 1 → bit result e ≡ 1 }
{
    mask_of(n, |e| ok[SIDE * a + e] == 1)
}

// internal: the atoms to which each atom may go, as bits.
pub fn fill_candidates(ok: &[u8; CELLS], n: usize, cand: &mut [u64; SIDE])
    requires { n ≤ max_same }
    ensures { (a e : ℕ) → a < n → e < n → entry ok.now a e ≡ 1 → bit (get_or cand.new a 0) e ≡ 1 }
{
    for a in 0..n {
        cand[a] = candidates(ok, n, a);
    }
}

// internal: whether each of n atoms goes to one of them.
pub fn are_inside(list: &[u8; SIDE], n: usize) -> bool
    requires { n ≤ max_same }
    ensures { result ≡ each (is_inside list.now n) 0 n }
{
    for a in 0..n {
        if list[a] as usize >= n {
            return false;
        }
    }
    true
}
