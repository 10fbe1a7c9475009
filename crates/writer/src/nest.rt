// The last child of each atom, and how deep the branches nest.
ghost use Rattle.std.specs.Prelude.{◌≡◌, ℕ, ◌<◌, ◌≤◌, length, get_or, set};
ghost use Rattle.loops.specs.Loop.{run};
ghost use Rattle.table.specs.Limits.{max_atoms};
ghost use Rattle.writer.specs.Emit.{more_at};
ghost use Rattle.writer.specs.Nest.{depth_left, depth_after, nest_from};

use ids::MAX_DEPTH;
use writing_visit::WalkNumber;

// internal: for each parent, by its walk number plus 1, its last child.
pub fn last_children(up: &[u16], n: usize, last: &mut [u16])
    requires n_in_bounds { (n ≤ length up.now) × (n ≤ max_atoms) }
    requires by_index { (x : ℕ) → x < n → get_or up.now x 0 < length last.old }
    ensures { last.new ≡ run (λ x l. set l (get_or up.now x 0) x) 0 n last.old }
{
    for x in 0..n {
        let u = up[x] as usize;
        last[u] = x as u16;
    }
}

// How many branches are open when the branch before the atom x, if there is one, is left.
fn depth_left(depth: usize, up: usize, x: WalkNumber) -> usize
    ensures { result ≡ depth_left depth up x.0 }
{
    if up == 0 {
        return depth;
    }
    if up == x.0 {
        return depth;
    }
    if depth == 0 {
        return 0;
    }
    depth - 1
}

// How many branches are open after the atom x; one too many where they nest too deep.
fn depth_after(depth: usize, up: usize, more: bool, x: WalkNumber) -> usize
    ensures { result ≡ depth_after depth up more x.0 }
{
    let left = depth_left(depth, up, x);
    if up == 0 {
        return left;
    }
    if !more {
        return left;
    }
    if MAX_DEPTH <= left {
        return MAX_DEPTH + 1;
    }
    left + 1
}

// internal: whether the branches nest no deeper than they may.
pub fn is_shallow(up: &[u16], last: &[u16], n: usize) -> bool
    requires n_in_bounds { n ≤ length up.now }
    requires by_index { (x : ℕ) → x < n → get_or up.now x 0 < length last.now }
    ensures { result ≡ nest_from up.now (more_at up.now last.now) 0 n 0 }
{
    if n <= MAX_DEPTH {
        return true;
    }
    let mut depth = 0;
    for x in 0..n {
        let u = up[x] as usize;
        depth = depth_after(depth, u, last[u] as usize != x, WalkNumber(x));
        if MAX_DEPTH < depth {
            return false;
        }
    }
    true
}
