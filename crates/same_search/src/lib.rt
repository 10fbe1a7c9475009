// The search for the smallest renumbering that carries one matrix onto another: first as it comes, under a budget, then with keys made finer at each step. Every function here is internal.
#![tactic(auto)]

ghost use Rattle.std.specs.Prelude.{◌≡◌, List, [], ℕ, ◌<◌, ◌≤◌, ◌-◌, ◌*◌, take, get_or, length};
ghost use Rattle.loops.specs.Loop.{each};
ghost use Rattle.same_model.specs.Same.{max_same};
ghost use Rattle.same_place.specs.Place.{goods, Prefix, Solved};
ghost use Rattle.same_finer.specs.Finer.{Nears};
ghost use Rattle.same_search.specs.Search.{Trial, Level, hopeful, agreeing};

use same_alike::{Luck, Placed, Sides};
use same_finer::Weights;
use same_open::Tried;
use same_place::{CELLS, SIDE};

// The key of an atom to which none may go.
const NO_KEY: u64 = 1000;

// The smallest way to go on from the atom `from`, under a budget.
fn search_briefly(sides: Sides, ren: &mut [u8; SIDE], from: usize, budget: u32) -> Tried
    requires { Prefix sides.n ren.old from }
    ensures { Trial (goods sides.entry.o1.now sides.entry.o2.now sides.entry.ok.now sides.entry.n (take from ren.old) (sides.entry.n - from)) sides.entry.n from ren.old result.found result.left ren.new }
{
    let Sides { o1, o2, ok, n } = sides;
    if from == n {
        return Tried {
            found: true,
            left: budget,
        };
    }
    let next = from + 1;
    let mut left = budget;
    for d in 0..n {
        if left == 0 {
            return Tried {
                found: false,
                left: 0,
            };
        }
        if same_place::placeable(o1, o2, ok, ren, from, d) {
            ren[from] = d as u8;
            let tried = search_briefly(sides, ren, next, left - 1);
            if tried.found {
                return tried;
            }
            left = tried.left;
        }
    }
    Tried {
        found: false,
        left: left,
    }
}

// Whether an atom may come next: it has no mark, its key is right, and it may be placed.
fn is_hopeful(
    sides: Sides,
    k1: &[u64; SIDE],
    k2: &[u64; SIDE],
    dead: &[u8; SIDE],
    placed: Placed,
    d: usize,
) -> bool
    requires from_lt_max_same { (placed.from < max_same) × (d < max_same) }
    requires by_index { (b : ℕ) → b < placed.from → get_or placed.ren.now b 0 < max_same }
    ensures { result ≡ hopeful sides.entry.o1.now sides.entry.o2.now sides.entry.ok.now k1.now k2.now dead.now placed.entry.ren.now placed.entry.from d }
{
    let Sides { o1, o2, ok, .. } = sides;
    let Placed { ren, from } = placed;
    if dead[d] == 1 {
        return false;
    }
    if k1[from] != k2[d] {
        return false;
    }
    same_place::placeable(o1, o2, ok, ren, from, d)
}

// The smallest way to go on from the atom `from`, with weights of both matrices and keys that are kept.
fn search(
    sides: Sides,
    first: Weights,
    second: Weights,
    k1: &[u64; SIDE],
    k2: &[u64; SIDE],
    ren: &mut [u8; SIDE],
    from: usize,
    luck: &mut Luck,
) -> bool
    requires prefix { Prefix sides.n ren.old from }
    requires level { Level sides.o1.now sides.o2.now sides.ok.now first.w.now second.w.now k1.now k2.now sides.n ren.old from }
    requires nears { Nears first.w.now sides.n first.near.now × Nears second.w.now sides.n second.near.now }
    ensures { Solved (goods sides.entry.o1.now sides.entry.o2.now sides.entry.ok.now sides.entry.n (take from ren.old) (sides.entry.n - from)) sides.entry.n from ren.old result ren.new }
{
    let n = sides.n;
    if from == n {
        return true;
    }
    let next = from + 1;
    let mut told1 = *k1;
    let sum1 = same_finer::tell(first, n, from, &mut told1);
    let mut dead = [0u8; SIDE];
    for d in 0..n {
        if is_hopeful(sides, k1, k2, &dead, Placed { ren, from }, d) {
            let mut told2 = *k2;
            if same_finer::tell(second, n, d, &mut told2) == sum1 {
                ren[from] = d as u8;
                if search(sides, first, second, &told1, &told2, ren, next, luck) {
                    return true;
                }
                same_alike::mark(sides, second, k2, Placed { ren, from }, d, luck, &mut dead);
            }
        }
    }
    false
}

// The first of n places of a row that holds 1.
fn first_in_row(ok: &[u8; CELLS], n: usize, a: usize) -> Option<usize>
    requires { (n ≤ max_same) × (a < max_same) }
{
    ok[SIDE * a..SIDE * a + n].iter().position(|x| *x == 1)
}

// The key of the first of n atoms that may go to d.
fn key_in_column(ok: &[u8; CELLS], n: usize, d: usize, k1: &[u64; SIDE]) -> Option<u64>
    requires { (n ≤ max_same) × (d < max_same) }
{
    for a in 0..n {
        if ok[SIDE * a + d] == 1 {
            return Some(k1[a]);
        }
    }
    None
}

// Keys for the atoms of the first side. A guess, as are those of the second: `agree` tells whether they are right.
fn guess_first(ok: &[u8; CELLS], n: usize, k1: &mut [u64; SIDE])
    requires { n ≤ max_same }
    ensures { length k1.new ≡ length k1.old }
{
    for a in 0..n {
        k1[a] = first_in_row(ok, n, a).unwrap_or(n) as u64;
    }
}

// Keys for the atoms of the second side.
fn guess_second(ok: &[u8; CELLS], n: usize, k1: &[u64; SIDE], k2: &mut [u64; SIDE])
    requires { n ≤ max_same }
    ensures { length k2.new ≡ length k2.old }
{
    for d in 0..n {
        k2[d] = key_in_column(ok, n, d, k1).unwrap_or(NO_KEY);
    }
}

// Whether atoms that may go to one another have equal keys.
fn agree(ok: &[u8; CELLS], k1: &[u64; SIDE], k2: &[u64; SIDE], n: usize) -> bool
    requires { n ≤ max_same }
    ensures { result ≡ each (agreeing ok.now k1.now k2.now) 0 (max_same * n) }
{
    let end = SIDE * n;
    for i in 0..end {
        if (ok[i] == 1) & (k1[i / SIDE] != k2[i % SIDE]) {
            return false;
        }
    }
    true
}

// The smallest renumbering, with keys made finer at each step.
fn search_finely(sides: Sides, ren: &mut [u8; SIDE]) -> bool
    requires { Prefix sides.n ren.old 0 }
    ensures { Solved (goods sides.entry.o1.now sides.entry.o2.now sides.entry.ok.now sides.entry.n [] sides.entry.n) sides.entry.n 0 ren.old result ren.new }
{
    let Sides { o1, o2, ok, n } = sides;
    let mut w1 = [0u16; CELLS];
    same_finer::fill_weights(o1, n, &mut w1);
    let mut w2 = [0u16; CELLS];
    same_finer::fill_weights(o2, n, &mut w2);
    let mut k1 = [0u64; SIDE];
    guess_first(ok, n, &mut k1);
    let mut k2 = [0u64; SIDE];
    guess_second(ok, n, &k1, &mut k2);
    let fair1 = same_finer::is_mirrored(&w1, n);
    let fair2 = same_finer::is_mirrored(&w2, n);
    let fair = agree(ok, &k1, &k2, n);
    if !(fair1 & fair2 & fair) {
        return same_place::solve(o1, o2, ok, n, ren, 0);
    }
    let mut near1 = [0u64; SIDE];
    same_finer::fill_weighty(&w1, n, &mut near1);
    let mut near2 = [0u64; SIDE];
    same_finer::fill_weighty(&w2, n, &mut near2);
    let first = Weights {
        w: &w1,
        near: &near1,
    };
    let second = Weights {
        w: &w2,
        near: &near2,
    };
    same_finer::make_finer(first, n, 4, &mut k1);
    same_finer::make_finer(second, n, 4, &mut k2);
    let mut luck = Luck { wrong: 0, right: 0 };
    search(sides, first, second, &k1, &k2, ren, 0, &mut luck)
}

// internal: the smallest renumbering, written to the list: first as it comes, and where that takes long with keys made finer.
pub fn solve(sides: Sides, ren: &mut [u8; SIDE]) -> bool
    requires { Prefix sides.n ren.old 0 }
    ensures { Solved (goods sides.entry.o1.now sides.entry.o2.now sides.entry.ok.now sides.entry.n [] sides.entry.n) sides.entry.n 0 ren.old result ren.new }
{
    let tried = search_briefly(sides, ren, 0, 3000);
    if tried.found {
        return true;
    }
    if tried.left != 0 {
        return false;
    }
    search_finely(sides, ren)
}
