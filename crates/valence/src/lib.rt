// Valence: target valences, implied hydrogens, and the delocalization rule.
#![tactic(auto)]

ghost use Rattle.std.specs.Prelude.{◌≡◌, ◌+◌, ◌-◌, ◌<◌, ◌≤◌, eqb};
ghost use Rattle.std.specs.Int.{w64};
ghost use Rattle.std.proofs.Common.{SFits};
ghost use Rattle.loops.specs.Loop.{pick};
ghost use Rattle.valence.specs.Valence.{targets, target_row, first_target, targets_for, first_fitting, reached_in, values_of, hydrogens_of, shifted_target, delocalized};

// The target valences of an element in their order; 0 for each that it lacks.
// Stays: a target of 0 is below every sum that is held against it, so one that is lacking needs no case.
#[derive(Clone, Copy)]
struct Targets(usize, usize, usize);

// What a bond sum meets: the target valence reached, no target (as `*`), or above all targets (an over-full atom).
// Stays: two answers without a target mean different things, and the report tells them apart; a Result of an Option says no more.
#[derive(Clone, Copy)]
pub enum Reached {
    Target(usize),
    NoTarget,
    AboveAll,
}

// The hydrogens of an atom outside brackets, and the target that they reach.
#[derive(Clone, Copy)]
pub struct Hydrogens {
    pub count: usize,
    pub reached: Reached,
}

// The target valences of an element.
#[tactic(auto, unfolding(crate::specs::Valence::first_target, crate::specs::Valence::targets))]
fn target_row(e: usize) -> Targets
    ensures { result ≡ target_row e }
{
    if e == 16 {
        return Targets(2, 4, 6);
    }
    if (e == 7) | (e == 15) {
        return Targets(3, 5, 0);
    }
    Targets(first_target(e), 0, 0)
}

// The first target valence of an element above chlorine; 0 where it has none.
#[tactic(auto, unfolding(crate::specs::Valence::first_target, crate::specs::Valence::targets))]
fn heavy_target(e: usize) -> usize
    requires { 17 < e }
    ensures { result ≡ first_target e }
{
    match e {
        35 | 53 | 85 | 117 => 1,
        _ => 0,
    }
}

// The first target valence of an element; 0 where it has none.
// Stays: the rule of delocalization counts from 0 there, as its definition does.
#[tactic(auto, unfolding(crate::specs::Valence::first_target, crate::specs::Valence::targets))]
pub fn first_target(e: usize) -> usize
    ensures { result ≡ first_target e }
{
    if (5 < e) & (e < 10) {
        return 10 - e;
    }
    if 17 < e {
        return heavy_target(e);
    }
    match e {
        5 | 15 => 3,
        16 => 2,
        17 => 1,
        _ => 0,
    }
}

// The target reached where the sum is above the first one.
#[tactic(auto, unfolding(crate::specs::Valence::first_target, crate::specs::Valence::targets, crate::specs::Valence::first_fitting))]
fn reach_further(e: usize, sum: usize) -> Reached
    requires { first_target e < sum }
    ensures { result ≡ first_fitting (targets e) sum }
{
    let t = target_row(e);
    if sum <= t.1 {
        return Reached::Target(t.1);
    }
    if sum <= t.2 {
        return Reached::Target(t.2);
    }
    Reached::AboveAll
}

// The target that the bond sum of an atom outside brackets reaches, from its element's first.
#[tactic(auto, unfolding(crate::specs::Valence::first_target, crate::specs::Valence::targets, crate::specs::Valence::first_fitting, crate::specs::Valence::reached_in))]
fn reach(e: usize, selected: usize, sum: usize, first: usize) -> Reached
    requires { first ≡ first_target e }
    ensures { result ≡ reached_in (targets_for e selected) sum }
{
    if first == 0 {
        return Reached::NoTarget;
    }
    if sum <= first {
        return Reached::Target(first);
    }
    if selected == 1 {
        return Reached::AboveAll;
    }
    reach_further(e, sum)
}

// What the target reached leaves beside the sum.
fn room(reached: Reached, sum: usize) -> usize
    ensures { result ≡ (values_of reached).target - sum }
{
    match reached {
        Reached::Target(t) => t.saturating_sub(sum),
        Reached::NoTarget | Reached::AboveAll => 0,
    }
}

// The hydrogens of an atom whose bond sum is not above its first target.
fn up_to_first(first: usize, selected: usize, sum: usize) -> usize
    requires { sum ≤ first }
    ensures { result ≡ first - (sum + pick (eqb selected 1) 1 0) }
{
    let left = first - sum;
    if (selected == 1) & (0 < left) {
        return left - 1;
    }
    left
}

// The hydrogens of an atom outside brackets with the target they reach, from its element, its selected cell and its bond sum.
pub fn implied(e: usize, selected: usize, sum: usize) -> Hydrogens
    ensures { result ≡ hydrogens_of e selected sum }
{
    let first = first_target(e);
    if (0 < first) & (sum <= first) {
        let count = up_to_first(first, selected, sum);
        let reached = Reached::Target(first);
        return Hydrogens { count, reached };
    }
    let reached = reach(e, selected, sum, first);
    let count = room(reached, sum);
    Hydrogens { count, reached }
}

// The first target valence of an element at a charge, as the delocalization rule looks at it; it may be below zero.
pub fn shifted_target(e: usize, charge: i32) -> i64
    ensures value { result ≡ shifted_target e charge }
    ensures sfits { SFits w64 result }
{
    let first = first_target(e) as i64;
    if e == 6 {
        return first - charge.unsigned_abs() as i64;
    }
    first + charge as i64
}

// Whether an atom is delocalized ("kept"), from its element, its selected cell, its charge, its bond sum and its hydrogens.
pub fn delocalized(e: usize, selected: usize, charge: i32, sum: u32, hydrogens: u32) -> bool
    ensures { result ≡ delocalized e selected charge sum hydrogens }
{
    if selected != 1 {
        return false;
    }
    sum as i64 + hydrogens as i64 + 1 <= shifted_target(e, charge)
}
