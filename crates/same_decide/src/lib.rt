// The rows of two molecules walked in their order, until two settle to the same. Every function here is internal.
#![tactic(auto)]

ghost use Rattle.std.specs.Prelude.{◌≡◌, true, false, Some, ℕ, ◌&&◌, ◌++◌, ◌+◌, ◌<◌, ◌≤◌, length, take, drop};
ghost use Rattle.loops.specs.Loop.{up_to};
ghost use Rattle.table.specs.Limits.{max_bonds};
ghost use Rattle.table.specs.Valid.{enough, Valid};
ghost use Rattle.matching.specs.Enumeration.{is_row, or_zeroed, row_call};
ghost use Rattle.matching.specs.declared.MatchingAnswer.TheVariants.{Ended};
ghost use Rattle.matching_skip.specs.Skip.{later_than};
ghost use Rattle.table_graph.specs.Graph.{matching_of};
ghost use Rattle.same_model.specs.Same.{max_same};
ghost use Rattle.same_place.specs.Place.{entry, Solved};
ghost use Rattle.same_keys.specs.Keys.{Low, highest};
ghost use Rattle.same_drawing.specs.Drawing.{cells, Drawable};
ghost use Rattle.same_part.specs.Part.{part_matrix};
ghost use Rattle.same_decide.specs.Decide.{sketch, drawn_matrix, sum_of, ways, HandsOut, Bounded, Fewer, SecondFound, FirstFound, turned_cell, Nowhere, Apart};

use ids::BondId;
use kekule_answers::found_code;
use matching::{Call, EndTables, Links};
use same_alike::Sides;
use same_mirror::Target;
use same_open::{ALLOWED, Tried};
use same_part::Part;
use same_place::{CELLS, SIDE};
use table::{MAX_BONDS, Tables, cell, row};

// A molecule as it is compared: its tables, the keys of its atoms, and the matrix of their pairs to which orders are added.
#[derive(Clone, Copy)]
pub struct Drawn<'a> {
    pub base: &'a [u16; CELLS],
    pub keys: &'a [u64; SIDE],
    pub atoms: &'a [i32],
    pub bonds: &'a [i32],
    pub m: usize,
}

// Two molecules of n atoms each, and which atoms of the first may go to which of the second.
#[derive(Clone, Copy)]
pub struct Pair<'a> {
    pub first: Drawn<'a>,
    pub second: Drawn<'a>,
    pub ok: &'a [u8; CELLS],
    pub n: usize,
}

// How many searches were made, up to the number that matters, and how many steps are left for questions.
#[derive(Clone, Copy)]
struct Pace {
    searches: u32,
    steps: u32,
}

// How many searches are made before it is asked which rows lead nowhere.
const PATIENCE: u32 = 4;

// How many steps may be made for all questions, and for those that are asked before any search.
const STEPS: u32 = 2000000;

const EARLY: u32 = 50000;

// How many places of the first four rows show that atoms have many candidates, and how many of them hold 1 then.
const SHOWN: usize = 256;

const CROWDED: usize = 24;

// One of the two calls for a matching: whether it hands one out, into the row.
fn ask(c: Call, tables: Tables, row: &mut [u8]) -> bool
    requires valid { Valid tables.atoms.now tables.bonds.now tables.n tables.m }
    requires m_in_bounds { tables.m ≤ length row.old }
    ensures { HandsOut (row_call (matching_of tables.entry.atoms.now tables.entry.bonds.now tables.entry.n tables.entry.m) tables.entry.m c row.old) result row.new }
{
    found_code(kekule::call_valid(c, tables, row)) == 0
}

// Where atoms have many candidates, it is asked before any search which rows lead nowhere, in few steps.
fn hurry(ok: &[u8; CELLS], pace: &mut Pace) {
    let count = ok[..SHOWN].iter().filter(|x| **x == 1).count();
    if CROWDED < count {
        pace.searches = PATIENCE + 1;
        pace.steps = EARLY;
    }
}

// After that, the first search counts as many.
fn relax(pace: &mut Pace) {
    if PATIENCE < pace.searches {
        pace.searches = PATIENCE - 1;
        pace.steps = STEPS;
    }
}

// Counts one search more, up to the number that matters.
fn note_search(pace: &mut Pace) {
    if pace.searches < PATIENCE {
        pace.searches += 1;
    }
}

// Counts a row of the second molecule that will be searched, since its sum is the first's.
fn note_row(z1: u64, second: Drawn, row2: &[u8], pace: &mut Pace)
    requires drawable { Drawable second.bonds.now second.m row2.now }
    requires low { Low second.keys.now (highest 33) }
{
    relax(pace);
    if same_drawing::row_sum(second.bonds, second.m, second.keys, row2) == z1 {
        note_search(pace);
    }
}

// The smallest renumbering that carries the first's matrix onto the second molecule settled by the row; none where the sums of the two rows differ.
fn place(o1: &[u16; CELLS], z1: u64, pair: Pair, row2: &[u8], ren: &mut [u8; SIDE]) -> bool
    requires drawable { Drawable pair.second.bonds.now pair.second.m row2.now }
    requires fewer { Fewer pair.n pair.second.base.now pair.second.keys.now ren.old }
    ensures { Solved (ways o1.now z1 pair.entry.ok.now (sketch pair.entry.second.base.now pair.entry.second.keys.now pair.entry.second.bonds.now pair.entry.n pair.entry.second.m) row2.now) pair.entry.n 0 ren.old result ren.new }
{
    let Pair { second, ok, n, .. } = pair;
    if same_drawing::row_sum(second.bonds, second.m, second.keys, row2) != z1 {
        return false;
    }
    let mut o2 = *second.base;
    same_drawing::fill_orders(second.bonds, second.m, row2, &mut o2);
    let sides = Sides { o1, o2: &o2, ok, n };
    same_search::solve(sides, ren)
}

// The next matching that differs from the row before the bond `to`: whether there is one, into the row.
fn skip(tables: Tables, row: &mut [u8], to: usize) -> bool
    requires valid { Valid tables.atoms.now tables.bonds.now tables.n tables.m }
    requires n_le_max_same { (tables.n ≤ max_same) × (tables.m ≤ length row.old) × (to ≤ tables.m) }
    requires row_value { (is_row tables.m (take tables.m row.old) && matching_of tables.atoms.now tables.bonds.now tables.n tables.m (take tables.m row.old)) ≡ true }
    ensures { HandsOut (or_zeroed (length row.old) Ended (later_than (matching_of tables.entry.atoms.now tables.entry.bonds.now tables.entry.n tables.entry.m) tables.entry.m to row.old)) result row.new }
{
    let Tables { n, m, .. } = tables;
    let mut flags = [0u8; SIDE];
    let mut ea = [0u16; MAX_BONDS];
    let mut eb = [0u16; MAX_BONDS];
    let mut el = [0u8; MAX_BONDS];
    let mut sums = [0u16; SIDE];
    table_graph::build(tables, &mut flags, &mut ea, &mut eb, &mut el, &mut sums);
    let links = Links {
        ends: EndTables {
            first: &ea[..m],
            second: &eb[..m],
        },
        elided: &el[..m],
    };
    matching_skip::skip(links, &mut flags[..n], row, BondId(to))
}

// The matrix of atoms that may go to one another, from the other side.
fn turn_over(ok: &[u8; CELLS], turned: &mut [u8; CELLS])
    requires { cells ≤ length turned.old }
    ensures { turned.new ≡ up_to (turned_cell ok.now) 0 cells ++ drop cells turned.old }
{
    for i in 0..CELLS {
        turned[i] = ok[SIDE * (i % SIDE) + i / SIDE];
    }
}

// The first of m bonds, from a place on, at which two rows differ.
fn first_difference(row: &[u8], other: &[u8; MAX_BONDS], m: usize, from: usize) -> Option<usize>
    requires { (m ≤ length row.now) × (m ≤ max_bonds) × (from ≤ m) }
    ensures { (k : ℕ) → result ≡ Some k → (from ≤ k) × (k < m) }
{
    for k in from..m {
        if row[k] != other[k] {
            return Some(k);
        }
    }
    None
}

// The digit that a bond has in a row that goes with a renumbering: an opened bond is double where the other matrix has a double bond, and as in the row where that is open.
fn guess_digit(x: u16, opened: u8, digit: u8) -> u8 {
    if opened != 1 {
        return 0;
    }
    if 16 <= x {
        return digit;
    }
    if x == 2 {
        return 1;
    }
    0
}

// The cell that two atoms go to.
fn facing(q: &[u16; CELLS], ren: &[u8; SIDE], a: usize, b: usize) -> u16 {
    let first = ren[a % SIDE] as usize % SIDE;
    let second = ren[b % SIDE] as usize % SIDE;
    q[SIDE * first + second]
}

// A row that goes with a renumbering, as far as is seen. A guess: no claim rests on it.
fn guess_row(part: Part, q: &[u16; CELLS], ren: &[u8; SIDE], guess: &mut [u8; MAX_BONDS])
    requires { Drawable part.bonds.now part.m part.row.now }
{
    let Part {
        bonds,
        m,
        opened,
        row,
    } = part;
    for k in 0..m {
        let bond = row::get_bond(bonds, BondId(k));
        let first = cell::number(bond.first);
        let second = cell::number(bond.second);
        let x = facing(q, ren, first, second);
        guess[k] = guess_digit(x, opened[k], row[k]);
    }
}

// The mark of an atom none of whose bonds is decided, and the lowest one.
const LATE: u8 = 200;

const SOON: u8 = 2;

// How many bonds ago a bond was decided, counted from 1; 0 where it is not.
fn age(k: usize, to: usize) -> usize {
    if k < to {
        return to - k;
    }
    0
}

// What a decided bond takes from the marks of its ends.
fn weight(digit: u8) -> u8 {
    if digit == 1 {
        return 11;
    }
    1
}

// A mark made lower.
fn lower(mark: u8, by: u8) -> u8 {
    if mark < 100 {
        return mark;
    }
    if 98 < by {
        return mark;
    }
    mark - by
}

// The mark of an end of a bond, with its mark before.
fn next_mark(mark: u8, ago: usize, digit: u8) -> u8 {
    if ago == 0 {
        return mark;
    }
    if ago == 1 {
        return SOON;
    }
    lower(mark, weight(digit))
}

// Marks an end of a bond.
fn put_mark(marks: &mut [u8; SIDE], a: usize, ago: usize, digit: u8) {
    marks[a % SIDE] = next_mark(marks[a % SIDE], ago, digit);
}

// The atoms that a question places first where others have as few candidates: the ends of the bond that was decided last, then those of double bonds and of many decided bonds. No claim rests on it.
fn fill_marks(part: Part, to: usize, marks: &mut [u8; SIDE])
    requires { Drawable part.bonds.now part.m part.row.now }
{
    let Part { bonds, m, row, .. } = part;
    for k in 0..m {
        let bond = row::get_bond(bonds, BondId(k));
        let first = cell::number(bond.first);
        let second = cell::number(bond.second);
        let ago = age(k, to);
        put_mark(marks, first, ago, row[k]);
        put_mark(marks, second, ago, row[k]);
    }
}

// Whether a row that is decided before `to` leads anywhere.
fn ask_part(target: Target, part: Part, to: usize, ren: &mut [u8; SIDE], budget: u32) -> Tried
    requires drawable { Drawable part.bonds.now part.m part.row.now }
    requires n_le_max_same { target.n ≤ max_same }
    ensures { result.found ≡ false → 0 < result.left → Nowhere (part_matrix part.entry.bonds.now part.entry.opened.now part.entry.row.now to part.entry.m) target.entry.allowed.now target.entry.ok.now target.entry.n }
{
    let mut p = [0u16; CELLS];
    same_part::fill_part(part, to, &mut p);
    let mut marks = [LATE; SIDE];
    fill_marks(part, to, &mut marks);
    same_mirror::seek(&p, target, &marks, ren, budget)
}

// How many bonds of the row lead nowhere, whatever follows, as far as is seen. The guess is a row that led somewhere.
fn clash(
    target: Target,
    part: Part,
    from: usize,
    pace: &mut Pace,
    guess: &mut [u8; MAX_BONDS],
) -> Option<usize>
    requires drawable { Drawable part.bonds.now part.m part.row.now }
    requires n_le_max_same { (target.n ≤ max_same) × (from ≤ part.m + 1) }
    ensures { (to : ℕ) → result ≡ Some to → (to ≤ part.entry.m) × Nowhere (part_matrix part.entry.bonds.now part.entry.opened.now part.entry.row.now to part.entry.m) target.entry.allowed.now target.entry.ok.now target.entry.n }
{
    let mut to = from;
    while to <= part.m {
        let mut ren = [0u8; SIDE];
        let tried = ask_part(target, part, to, &mut ren, pace.steps);
        pace.steps = tried.left;
        if !tried.found {
            if tried.left == 0 {
                return None;
            }
            return Some(to);
        }
        guess_row(part, target.q, &ren, guess);
        to = first_difference(part.row, guess, part.m, to)? + 1;
    }
    None
}

// How many bonds of the first molecule's row lead nowhere against the second, whose row is decided before `to2`, as far as is seen.
fn bar(
    pair: Pair,
    row: &[u8],
    row2: &[u8],
    to2: usize,
    pace: &mut Pace,
    guess: &mut [u8; MAX_BONDS],
) -> Option<usize>
    requires valid { Valid pair.first.atoms.now pair.first.bonds.now pair.n pair.first.m }
    requires valid_2 { Valid pair.second.atoms.now pair.second.bonds.now pair.n pair.second.m }
    requires n_le_max_same { (pair.n ≤ max_same) × (pair.first.m ≤ length row.now) × (pair.second.m ≤ length row2.now) }
    ensures { (to : ℕ) → result ≡ Some to → (to ≤ pair.entry.first.m) × Apart pair.entry.first.atoms.now pair.entry.first.bonds.now pair.entry.first.m row.now to pair.entry.second.atoms.now pair.entry.second.bonds.now pair.entry.second.m row2.now to2 pair.entry.ok.now pair.entry.n }
{
    if (pace.searches < PATIENCE) | (pace.steps == 0) {
        return None;
    }
    let Pair {
        first,
        second,
        ok,
        n,
    } = pair;
    let mut opened2 = [0u8; MAX_BONDS];
    same_part::fill_open(
        Tables {
            atoms: second.atoms,
            bonds: second.bonds,
            n,
            m: second.m,
        },
        &mut opened2,
    );
    let other = Part {
        bonds: second.bonds,
        m: second.m,
        opened: &opened2,
        row: row2,
    };
    let mut q = [0u16; CELLS];
    same_part::fill_part(other, to2, &mut q);
    let mut allowed = [0u64; ALLOWED];
    same_open::fill_allowed(&q, n, &mut allowed);
    let mut opened = [0u8; MAX_BONDS];
    same_part::fill_open(
        Tables {
            atoms: first.atoms,
            bonds: first.bonds,
            n,
            m: first.m,
        },
        &mut opened,
    );
    let target = Target {
        q: &q,
        allowed: &allowed,
        ok,
        n,
    };
    let part = Part {
        bonds: first.bonds,
        m: first.m,
        opened: &opened,
        row,
    };
    let from = first_difference(row, guess, first.m, 0)? + 1;
    clash(target, part, from, pace, guess)
}

// The same for a row of the second molecule against the whole row of the first.
fn bar_second(
    pair: Pair,
    row1: &[u8],
    row2: &[u8],
    pace: &mut Pace,
    guess: &mut [u8; MAX_BONDS],
) -> Option<usize>
    requires valid { Valid pair.first.atoms.now pair.first.bonds.now pair.n pair.first.m }
    requires valid_2 { Valid pair.second.atoms.now pair.second.bonds.now pair.n pair.second.m }
    requires n_le_max_same { (pair.n ≤ max_same) × (pair.first.m ≤ length row1.now) × (pair.second.m ≤ length row2.now) }
    ensures { (to : ℕ) → result ≡ Some to → (to ≤ pair.entry.second.m) × Apart pair.entry.first.atoms.now pair.entry.first.bonds.now pair.entry.first.m row1.now pair.entry.first.m pair.entry.second.atoms.now pair.entry.second.bonds.now pair.entry.second.m row2.now to pair.entry.ok.now pair.entry.n }
{
    if (pace.searches < PATIENCE) | (pace.steps == 0) {
        return None;
    }
    let mut turned = [0u8; CELLS];
    turn_over(pair.ok, &mut turned);
    let back = Pair {
        first: pair.second,
        second: pair.first,
        ok: &turned,
        n: pair.n,
    };
    bar(back, row2, row1, pair.first.m, pace, guess)
}

// The first row of the second molecule that goes with a row of the first, and the smallest renumbering for it.
fn second_row(
    pair: Pair,
    row1: &[u8],
    row2: &mut [u8],
    ren: &mut [u8; SIDE],
    pace: &mut Pace,
) -> bool
    requires valid { Valid pair.first.atoms.now pair.first.bonds.now pair.n pair.first.m }
    requires valid_2 { Valid pair.second.atoms.now pair.second.bonds.now pair.n pair.second.m }
    requires bonds1_value { (enough pair.first.atoms.now pair.first.bonds.now ≡ true) × (enough pair.second.atoms.now pair.second.bonds.now ≡ true) }
    requires row1_value { (is_row pair.first.m row1.now && matching_of pair.first.atoms.now pair.first.bonds.now pair.n pair.first.m row1.now) ≡ true }
    requires m2_in_bounds { pair.second.m ≤ length row2.old }
    requires fewer { Fewer pair.n pair.second.base.now pair.second.keys.now ren.old }
    requires bounded { Bounded pair.n pair.first.base.now pair.first.keys.now }
    ensures { SecondFound (drawn_matrix (sketch pair.entry.first.base.now pair.entry.first.keys.now pair.entry.first.bonds.now pair.entry.n pair.entry.first.m) row1.now) (sum_of (sketch pair.entry.first.base.now pair.entry.first.keys.now pair.entry.first.bonds.now pair.entry.n pair.entry.first.m) row1.now) pair.entry.ok.now pair.entry.second.atoms.now (sketch pair.entry.second.base.now pair.entry.second.keys.now pair.entry.second.bonds.now pair.entry.n pair.entry.second.m) row2.old ren.old result row2.new ren.new }
{
    let Pair {
        first,
        second,
        n,
        ..
    } = pair;
    let m2 = second.m;
    let tables2 = Tables {
        atoms: second.atoms,
        bonds: second.bonds,
        n,
        m: m2,
    };
    let z1 = same_drawing::row_sum(first.bonds, first.m, first.keys, row1);
    let mut o1 = *first.base;
    same_drawing::fill_orders(first.bonds, first.m, row1, &mut o1);
    let mut guess = [2u8; MAX_BONDS];
    let mut more = ask(Call::First, tables2, row2);
    while more {
        note_row(z1, second, &row2[..m2], pace);
        match bar_second(pair, row1, &row2[..m2], pace, &mut guess) {
            Some(to) => more = skip(tables2, row2, to),
            None => {
                if place(&o1, z1, pair, &row2[..m2], ren) {
                    return true;
                }
                more = ask(Call::Next, tables2, row2);
            }
        }
    }
    false
}

// internal: the first row of the first molecule with which some row of the second goes, the first such row, and the smallest renumbering.
pub fn first_row(pair: Pair, row1: &mut [u8], row2: &mut [u8], ren: &mut [u8; SIDE]) -> bool
    requires valid { Valid pair.first.atoms.now pair.first.bonds.now pair.n pair.first.m }
    requires valid_2 { Valid pair.second.atoms.now pair.second.bonds.now pair.n pair.second.m }
    requires bonds1_value { (enough pair.first.atoms.now pair.first.bonds.now ≡ true) × (enough pair.second.atoms.now pair.second.bonds.now ≡ true) }
    requires m1_in_bounds { (pair.first.m ≤ length row1.old) × (pair.second.m ≤ length row2.old) }
    requires fewer { Fewer pair.n pair.second.base.now pair.second.keys.now ren.old }
    requires bounded { Bounded pair.n pair.first.base.now pair.first.keys.now }
    ensures { FirstFound pair.entry.ok.now pair.entry.first.atoms.now (sketch pair.entry.first.base.now pair.entry.first.keys.now pair.entry.first.bonds.now pair.entry.n pair.entry.first.m) pair.entry.second.atoms.now (sketch pair.entry.second.base.now pair.entry.second.keys.now pair.entry.second.bonds.now pair.entry.n pair.entry.second.m) row1.old row2.old ren.old result row1.new row2.new ren.new }
{
    let Pair { first, n, .. } = pair;
    let m1 = first.m;
    let tables1 = Tables {
        atoms: first.atoms,
        bonds: first.bonds,
        n,
        m: m1,
    };
    let none = [0u8; MAX_BONDS];
    let mut pace = Pace {
        searches: 0,
        steps: STEPS,
    };
    hurry(pair.ok, &mut pace);
    let mut guess = [2u8; MAX_BONDS];
    let mut more = ask(Call::First, tables1, row1);
    while more {
        match bar(pair, &row1[..m1], &none, 0, &mut pace, &mut guess) {
            Some(to) => more = skip(tables1, row1, to),
            None => {
                if second_row(pair, &row1[..m1], row2, ren, &mut pace) {
                    return true;
                }
                more = ask(Call::Next, tables1, row1);
            }
        }
    }
    false
}
