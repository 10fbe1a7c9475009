// The search for a renumbering between matrices with open bonds, which passes over atoms like one that led nowhere: which atoms are alike is guessed and checked. Every function here is internal.
#![tactic(auto)]

ghost use Rattle.std.specs.Prelude.{◌≡◌, true, false, List, ℕ, ◌<◌, ◌≤◌};
ghost use Rattle.same_model.specs.Same.{max_same, image};
ghost use Rattle.same_open.specs.Open.{bit, Goes, Faces, Among};
ghost use Rattle.same_mirror.specs.Mirror.{Onto, SameFaces, SameCandidates, Like, Gone, AllGone, Spreads, allowed_masks, Repeated, FacedAfter};

use same_open::{ALLOWED, Quest, Tried};
use same_place::{CELLS, SIDE};

// How long a guess may take, and how much a candidate must have cost for it to be worth one, in steps.
const GUESS: u32 = 300;

const WORTH: u32 = 300;

// What a guess costs, in steps.
const COST: u32 = 100;

// A search's other side: the matrix q, what it allows, and which of n atoms may go to which of its own.
#[derive(Clone, Copy)]
pub struct Target<'a> {
    pub q: &'a [u16; CELLS],
    pub allowed: &'a [u64; ALLOWED],
    pub ok: &'a [u8; CELLS],
    pub n: usize,
}

// Where a search stands: where atoms went, which ones were placed, and the atom v that is placed now.
#[derive(Clone, Copy)]
struct Turn<'a> {
    ren: &'a [u8; SIDE],
    placed: &'a [u8; SIDE],
    v: usize,
}

// Sends the atom i to e in the guess; whether each atom has a candidate then.
fn fix(
    quest: Quest,
    i: usize,
    e: usize,
    cand: &mut [u64; SIDE],
    done: &mut [u8; SIDE],
    like: &mut [u8; SIDE],
) -> bool
    requires { (quest.n ≤ max_same) × (i < quest.n) × (e < quest.n) }
{
    let old = *cand;
    done[i] = 1;
    like[i] = e as u8;
    same_open::narrow(quest, &old, i, e, cand)
}

// Lets each image of a placed atom stay, but that of v.
fn fix_images(
    quest: Quest,
    turn: Turn,
    cand: &mut [u64; SIDE],
    done: &mut [u8; SIDE],
    like: &mut [u8; SIDE],
) -> bool
    requires { quest.n ≤ max_same }
{
    let Turn { ren, placed, v } = turn;
    let n = quest.n;
    let mut live = true;
    for b in 0..n {
        let i = ren[b] as usize;
        if (placed[b] == 1) & (b != v) & (i < n) {
            let fixed = fix(quest, i, i, cand, done, like);
            live = live & fixed;
        }
    }
    live
}

// How many of n atoms are not done.
fn count_open(done: &[u8; SIDE], n: usize) -> usize
    requires { n ≤ max_same }
    ensures { result ≤ n }
{
    let mut count = 0;
    for b in 0..n {
        if done[b] == 0 {
            count += 1;
        }
    }
    count
}

// A list that leaves the images of placed atoms and sends d to e. A guess: `is_like` tells whether it is right.
fn guess(quest: Quest, turn: Turn, d: usize, e: usize, like: &mut [u8; SIDE]) -> bool
    requires { (quest.n ≤ max_same) × (d < quest.n) × (e < quest.n) }
{
    let mut cand = [u64::MAX; SIDE];
    let mut done = [0u8; SIDE];
    let stay = fix_images(quest, turn, &mut cand, &mut done, like);
    let goes = fix(quest, d, e, &mut cand, &mut done, like);
    if !(stay & goes) {
        return false;
    }
    let rest = count_open(&done, quest.n);
    let tried = same_open::search(quest, &cand, rest, &mut done, like, GUESS);
    tried.found
}

// Whether none of the atoms before d goes where d goes.
fn is_own(like: &[u8; SIDE], d: usize) -> bool
    requires { d < max_same }
    ensures { result ≡ true → (e : ℕ) → e < d → image like.now e ≡ image like.now d → ⊥ }
{
    for e in 0..d {
        if like[e] == like[d] {
            return false;
        }
    }
    true
}

// Whether each of n atoms goes to one of them, each to its own.
fn is_onto(like: &[u8; SIDE], n: usize) -> bool
    requires { n ≤ max_same }
    ensures { result ≡ true → Onto n like.now }
{
    for d in 0..n {
        if !is_own(like, d) {
            return false;
        }
    }
    same_open::are_inside(like, n)
}

// Whether the bits of a mask go to those of another.
fn is_carried(x: u64, y: u64, like: &[u8; SIDE], n: usize) -> bool
    requires { (n ≤ max_same) × ((e : ℕ) → e < n → image like.now e < n) }
    ensures { result ≡ true → (e : ℕ) → e < n → bit x e ≡ bit y (image like.now e) }
{
    for e in 0..n {
        if (x >> e) % 2 != (y >> like[e] as usize) % 2 {
            return false;
        }
    }
    true
}

// Whether two masks are those of the class before.
fn is_repeated(allowed: &[u64; ALLOWED], i: usize, j: usize) -> bool
    requires { (i < allowed_masks) × (j < allowed_masks) }
    ensures { result ≡ true → Repeated allowed.now i j }
{
    if i < SIDE {
        return false;
    }
    if j < SIDE {
        return false;
    }
    (allowed[i] == allowed[i - SIDE]) & (allowed[j] == allowed[j - SIDE])
}

// Whether the bits of the mask at i go to those of the mask at j, where those of the class before do.
fn is_faced(allowed: &[u64; ALLOWED], like: &[u8; SIDE], n: usize, i: usize, j: usize) -> bool
    requires n_le_max_same { (n ≤ max_same) × ((e : ℕ) → e < n → image like.now e < n) }
    requires i_lt_allowed_masks { (i < allowed_masks) × (j < allowed_masks) }
    ensures { result ≡ true → FacedAfter allowed.now n like.now i j }
{
    if is_repeated(allowed, i, j) {
        return true;
    }
    is_carried(allowed[i], allowed[j], like, n)
}

// Whether what is allowed beside an atom is allowed beside the one it goes to.
fn has_same_faces(allowed: &[u64; ALLOWED], like: &[u8; SIDE], n: usize) -> bool
    requires { (n ≤ max_same) × ((e : ℕ) → e < n → image like.now e < n) }
    ensures { result ≡ true → SameFaces allowed.now n like.now }
{
    for i in 0..ALLOWED {
        let d = i % SIDE;
        if d < n {
            let j = i - d + like[d] as usize;
            if !is_faced(allowed, like, n, i, j) {
                return false;
            }
        }
    }
    true
}

// Whether the candidates of each atom go to its candidates.
fn has_same_candidates(cand: &[u64; SIDE], like: &[u8; SIDE], n: usize) -> bool
    requires { (n ≤ max_same) × ((e : ℕ) → e < n → image like.now e < n) }
    ensures { result ≡ true → SameCandidates cand.now n like.now }
{
    for a in 0..n {
        if !is_carried(cand[a], cand[a], like, n) {
            return false;
        }
    }
    true
}

// Whether a list sends atoms to like atoms.
fn is_like(allowed: &[u64; ALLOWED], cand: &[u64; SIDE], like: &[u8; SIDE], n: usize) -> bool
    requires { n ≤ max_same }
    ensures { result ≡ true → Like allowed.now cand.now n like.now }
{
    if !is_onto(like, n) {
        return false;
    }
    if !has_same_candidates(cand, like, n) {
        return false;
    }
    has_same_faces(allowed, like, n)
}

// Whether a guess of a list that sends d to e is right; the list.
fn is_alike(
    quest: Quest,
    cand: &[u64; SIDE],
    turn: Turn,
    d: usize,
    e: usize,
    like: &mut [u8; SIDE],
) -> bool
    requires { (quest.n ≤ max_same) × (d < quest.n) × (e < quest.n) }
    ensures { result ≡ true → Like quest.entry.allowed.now cand.now quest.entry.n like.new }
{
    if !guess(quest, turn, d, e, like) {
        return false;
    }
    is_like(quest.allowed, cand, like, quest.n)
}

// Marks each atom to which one with a mark goes.
fn spread(like: &[u8; SIDE], n: usize, dead: &mut [u8; SIDE])
    requires { n ≤ max_same }
    ensures { Spreads n like.now dead.old dead.new }
{
    for x in 0..n {
        if dead[x] == 1 {
            let to = like[x] as usize % SIDE;
            dead[to] = 1;
        }
    }
}

// What is left after a cost.
fn pay(left: u32, cost: u32) -> u32
    ensures { result ≤ left }
{
    if cost < left {
        return left - cost;
    }
    0
}

// Marks d and the candidates of v behind it that are shown to be like it, with what goes with them; what is left of a budget then.
fn mark(
    quest: Quest,
    cand: &[u64; SIDE],
    turn: Turn,
    d: usize,
    dead: &mut [u8; SIDE],
    budget: u32,
) -> u32
    requires { (quest.n ≤ max_same) × (turn.v < quest.n) × (d < quest.n) }
    ensures upper_bound { result ≤ budget }
    ensures by_index { (p : List ℕ) → Gone p quest.entry.allowed.now cand.now quest.entry.n turn.entry.v d → AllGone p quest.entry.allowed.now cand.now quest.entry.n turn.entry.v dead.old → AllGone p quest.entry.allowed.now cand.now quest.entry.n turn.entry.v dead.new }
{
    let n = quest.n;
    dead[d] = 1;
    let mut left = budget;
    for e in d + 1..n {
        if ((cand[turn.v] >> e) % 2 == 1) & (dead[e] != 1) {
            left = pay(left, COST);
            let mut like = [0u8; SIDE];
            if is_alike(quest, cand, turn, d, e, &mut like) {
                spread(&like, n, dead);
            }
        }
    }
    left
}

// Tries the candidates of one atom after the other, but those like one that led nowhere at some cost. What was seen of the candidates only saves time.
fn search(
    quest: Quest,
    near: &[u8; CELLS],
    q: &[u16; CELLS],
    cand: &[u64; SIDE],
    rest: usize,
    seen: &[u64; SIDE],
    placed: &mut [u8; SIDE],
    ren: &mut [u8; SIDE],
    budget: u32,
) -> Tried
    requires { (quest.n ≤ max_same) × (rest ≤ quest.n) }
    ensures fact { result.found ≡ false → 0 < result.left → (t : List ℕ) → Among quest.entry.p.now quest.entry.allowed.now cand.now quest.entry.n t → ⊥ }
    ensures left_le_budget { result.left ≤ budget }
{
    if rest == 0 {
        return Tried {
            found: true,
            left: budget,
        };
    }
    let v = same_open::choose(cand, quest.n, placed);
    placed[v] = 1;
    let mut dead = [0u8; SIDE];
    let mut left = budget;
    for d in 0..quest.n {
        if left == 0 {
            return Tried {
                found: false,
                left: 0,
            };
        }
        if ((cand[v] >> d) % 2 == 1) & (dead[d] != 1) {
            left -= 1;
            let mut next = [0u64; SIDE];
            let mut told = *seen;
            if same_support::narrow_near(quest, near, cand, v, d, placed, &mut told, &mut next) {
                ren[v] = d as u8;
                let tried = search(quest, near, q, &next, rest - 1, &told, placed, ren, left);
                if tried.found {
                    return tried;
                }
                let spent = left - tried.left;
                left = tried.left;
                if (0 < left) & (WORTH < spent) {
                    let own = Quest { p: q, ..quest };
                    left = mark(own, cand, Turn { ren, placed, v }, d, &mut dead, left);
                }
            }
        }
    }
    placed[v] = 0;
    Tried {
        found: false,
        left: left,
    }
}

// internal: whether a renumbering leads from a matrix p to a target. Among atoms with equally many candidates those with a low mark come first; no mark is 1.
pub fn seek(
    p: &[u16; CELLS],
    target: Target,
    marks: &[u8; SIDE],
    ren: &mut [u8; SIDE],
    budget: u32,
) -> Tried
    requires { target.n ≤ max_same }
    ensures { result.found ≡ false → 0 < result.left → (t : List ℕ) → ((a : ℕ) → a < target.entry.n → image t a < target.entry.n) → Goes target.entry.ok.now target.entry.n t → Faces p.now target.entry.allowed.now target.entry.n t → ⊥ }
{
    let Target { q, allowed, ok, n } = target;
    let quest = Quest { p, allowed, n };
    let mut cand = [0u64; SIDE];
    same_open::fill_candidates(ok, n, &mut cand);
    let mut placed = *marks;
    let mut near = [0u8; CELLS];
    same_support::fill_near(p, n, &mut near);
    let mut seen = [0u64; SIDE];
    if !same_support::settle_all(quest, &near, &placed, &mut seen, &mut cand) {
        return Tried {
            found: false,
            left: budget,
        };
    }
    search(quest, &near, q, &cand, n, &seen, &mut placed, ren, budget)
}
