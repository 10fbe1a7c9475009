// The bonds that the walk does not use.
ghost use Rattle.std.specs.Prelude.{◌≡◌, suc, ◌-◌, ◌<◌, ◌≤◌, length, replicate};
ghost use Rattle.loops.specs.Loop.{run, up_to};
ghost use Rattle.table.specs.Limits.{max_atoms, max_bonds};
ghost use Rattle.writing_walk.specs.Token.{bond};
ghost use Rattle.writing_visit.specs.Visit.{BondsFit};
ghost use Rattle.writing_visit.specs.Wires.{wires};
ghost use Rattle.writing_bridges.specs.Unused.{bond_arrays, add_bond, in_walk, Numbered, BondRoom, end_mark, Marked};

use ids::BondId;
use writing_visit::{Trail, Wiring};

// The number of a bond among those that the walk does not use.
#[derive(Clone, Copy)]
pub struct UnusedId(pub usize);

// The bonds that the walk does not use, and how many they are: their ends in walk numbers, their kinds, and the marks of the walk numbers.
#[derive(Clone, Copy)]
pub struct UnusedBonds<'a> {
    pub los: &'a [u16],
    pub his: &'a [u16],
    pub kinds: &'a [u8],
    pub marks: &'a [u16],
    pub count: usize,
}

// The mark of a walk number that is an end of several unused bonds.
pub const MANY: u16 = 65535;

// The mark of a walk number that is an end of the bond i, from its mark before.
fn mark(old: u16, i: UnusedId) -> u16
    requires { i.0 < max_bonds }
    ensures { result ≡ end_mark old i.0 }
{
    if old == 0 { (i.0 + 1) as u16 } else { MANY }
}

// A bond between two atoms, by their walk numbers plus 1, is added, and its ends get their marks, unless it joins an atom to its parent.
fn add_bond(
    up: &[u16],
    los: &mut [u16],
    his: &mut [u16],
    kinds: &mut [u8],
    marks: &mut [u16],
    p: usize,
    q: usize,
    kind: u8,
    used: usize,
) -> usize
    requires q_in_bounds { (q ≤ length up.now) × (q ≤ length marks.old) }
    requires bond_room { BondRoom (suc used) los.old his.old kinds.old }
    requires marked { Marked marks.old los.old his.old used }
    requires p_nonzero { (0 < p) × (p < q) }
    requires q_le_max_atoms { (q ≤ max_atoms) × (used < max_bonds) }
    ensures result_after { bond_arrays los.new his.new kinds.new result ≡ add_bond up.now (bond (p - 1) (q - 1) kind) (bond_arrays los.old his.old kinds.old used) }
    ensures marked_2 { Marked marks.new los.new his.new result }
{
    let low = p - 1;
    let high = q - 1;
    if up[high] as usize == p {
        return used;
    }
    los[used] = low as u16;
    his[used] = high as u16;
    kinds[used] = kind;
    marks[low] = mark(marks[low], UnusedId(used));
    marks[high] = mark(marks[high], UnusedId(used));
    used + 1
}

// A bond, in walk numbers, is added unless the walk uses it.
fn add_unused(
    wiring: Wiring,
    n: usize,
    m: usize,
    trail: Trail,
    los: &mut [u16],
    his: &mut [u16],
    kinds: &mut [u8],
    marks: &mut [u16],
    b: BondId,
    used: usize,
) -> usize
    requires bonds_fit { BondsFit (wires wiring.first.now wiring.second.now wiring.kinds.now) n m }
    requires numbered { Numbered (up_to (wires wiring.first.now wiring.second.now wiring.kinds.now) 0 m) n trail.number.now trail.up.now }
    requires bond_room { BondRoom m los.old his.old kinds.old }
    requires marked { Marked marks.old los.old his.old used }
    requires b_lt_m { (b.0 < m) × (used < m) }
    requires m_in_bounds { (m ≤ length wiring.first.now) × (m ≤ length wiring.second.now) }
    requires m_in_bounds_2 { (m ≤ length wiring.kinds.now) × (n ≤ length marks.old) }
    ensures result_after { bond_arrays los.new his.new kinds.new result ≡ add_bond trail.entry.up.now (in_walk (wires wiring.entry.first.now wiring.entry.second.now wiring.entry.kinds.now) n m b.0) (bond_arrays los.old his.old kinds.old used) }
    ensures marked_2 { Marked marks.new los.new his.new result }
{
    let Trail { number, up, .. } = trail;
    let i = b.0;
    let e = wiring.first[i] as usize;
    let f = wiring.second[i] as usize;
    let kind = wiring.kinds[i];
    let p = number[e] as usize;
    let q = number[f] as usize;
    if p < q {
        return add_bond(up, los, his, kinds, marks, p, q, kind, used);
    }
    let back = kinds::turned(kind);
    add_bond(up, los, his, kinds, marks, q, p, back, used)
}

// internal: the bonds that the walk does not use, in walk numbers, by ascending number, and at each walk number a mark: 0 where it is an end of none, the number plus 1 of the only one, or MANY. How many there are.
pub fn unused(
    wiring: Wiring,
    n: usize,
    m: usize,
    trail: Trail,
    los: &mut [u16],
    his: &mut [u16],
    kinds: &mut [u8],
    marks: &mut [u16],
) -> usize
    requires bonds_fit { BondsFit (wires wiring.first.now wiring.second.now wiring.kinds.now) n m }
    requires numbered { Numbered (up_to (wires wiring.first.now wiring.second.now wiring.kinds.now) 0 m) n trail.number.now trail.up.now }
    requires bond_room { BondRoom m los.old his.old kinds.old }
    requires marks_value { marks.old ≡ replicate (length marks.old) 0 }
    requires m_in_bounds { (m ≤ length wiring.first.now) × (m ≤ length wiring.second.now) }
    requires m_in_bounds_2 { (m ≤ length wiring.kinds.now) × (n ≤ length marks.old) }
    ensures result_after { bond_arrays los.new his.new kinds.new result ≡ run (λ b. add_bond trail.entry.up.now (in_walk (wires wiring.entry.first.now wiring.entry.second.now wiring.entry.kinds.now) n m b)) 0 m (bond_arrays los.old his.old kinds.old 0) }
    ensures marked { Marked marks.new los.new his.new result }
{
    let mut used = 0;
    for b in 0..m {
        used = add_unused(wiring, n, m, trail, los, his, kinds, marks, BondId(b), used);
    }
    used
}
