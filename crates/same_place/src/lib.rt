// A search for the smallest renumbering that carries one square matrix onto another, atom by atom; no chemistry.
// Every function here is internal.
#![tactic(auto)]

ghost use Rattle.std.specs.Prelude.{◌≡◌, ℕ, ◌<◌, ◌-◌, take, get_or};
ghost use Rattle.same_model.specs.Same.{max_same};
ghost use Rattle.same_place.specs.Place.{entry, placeable, goods, Prefix, Solved};

// The most atoms, and the cells of a matrix with so many rows and columns.
pub const SIDE: usize = 64;

pub const CELLS: usize = 4096;

// internal: a cell of a matrix of numbers.
pub fn entry(o: &[u16; CELLS], a: usize, b: usize) -> u16
    requires { (a < max_same) × (b < max_same) }
    ensures { result ≡ entry o.now a b }
{
    o[SIDE * a + b]
}

// internal: the atom a may go to d, after those before it.
// Stays: the cells of `ok` are numbers, since `placeable` and `goods` of specs/Place, by which the answer of `same` is defined, read them so.
pub fn placeable(
    o1: &[u16; CELLS],
    o2: &[u16; CELLS],
    ok: &[u8; CELLS],
    ren: &[u8; SIDE],
    a: usize,
    d: usize,
) -> bool
    requires a_lt_max_same { (a < max_same) × (d < max_same) }
    requires by_index { (b : ℕ) → b < a → get_or ren.now b 0 < max_same }
    ensures { result ≡ placeable o1.now o2.now ok.now ren.now a d }
{
    if ok[SIDE * a + d] != 1 {
        return false;
    }
    for b in 0..a {
        let image = ren[b] as usize;
        if image == d {
            return false;
        }
        if entry(o1, a, b) != entry(o2, d, image) {
            return false;
        }
    }
    true
}

// internal: the smallest way to go on from the atom `from`, written to the renumbering.
pub fn solve(
    o1: &[u16; CELLS],
    o2: &[u16; CELLS],
    ok: &[u8; CELLS],
    n: usize,
    ren: &mut [u8; SIDE],
    from: usize,
) -> bool
    requires { Prefix n ren.old from }
    ensures { Solved (goods o1.now o2.now ok.now n (take from ren.old) (n - from)) n from ren.old result ren.new }
{
    if from == n {
        return true;
    }
    let next = from + 1;
    for d in 0..n {
        if placeable(o1, o2, ok, ren, from, d) {
            ren[from] = d as u8;
            if solve(o1, o2, ok, n, ren, next) {
                return true;
            }
        }
    }
    false
}
