// The bonds at an atom in the order of ranks, and marks turned by it: for a reader and a writer, each with ranks of its own.
#![tactic(auto)]

ghost use Rattle.std.specs.Prelude.{◌≡◌, true, false, [], ◌∷◌, ◌++◌, map, ◌+◌, ◌*◌, ◌<◌, ◌≤◌, length};
ghost use Rattle.parity.specs.Parity.{flip_if, odd};
ghost use Rattle.parity.specs.Mark.{other_mark};
ghost use Rattle.table.specs.Limits.{max_atoms, max_bonds};
ghost use Rattle.table.specs.Cells.{mark, touches};
ghost use Rattle.table.specs.Valid.{max_mark, Valid};
ghost use Rattle.table.specs.Sound.{unfit, none_unfit};
ghost use Rattle.table.specs.Orders.{bonds_at, hydrogen_rank, turned_mark, turn_marks, at_end};

use ids::{AtomId, BondId};
use table::{FIRST, HYDROGENS, MARK, SECOND, cell};

// The neighbours of an atom that may be marked.
const FOUR: usize = 4;

// b, turned if told.
fn flip_if(turn: bool, b: bool) -> bool
    ensures { result ≡ flip_if turn b }
{
    if turn { !b } else { b }
}

// Whether an order of four is odd.
fn odd_four(a: u16, b: u16, c: u16, d: u16) -> bool
    ensures { result ≡ odd (a ∷ b ∷ c ∷ d ∷ []) }
{
    let first = flip_if(b < a, flip_if(c < a, d < a));
    let second = flip_if(c < b, d < b);
    flip_if(first, flip_if(second, d < c))
}

// The other mark.
fn other_mark(k: u8) -> u8
    ensures { result ≡ other_mark k }
{
    match k {
        1 => 2,
        2 => 1,
        _ => k,
    }
}

// Whether an atom is an end of a bond.
fn touches(bonds: &[i32], a: AtomId, b: BondId) -> bool
    requires { b.0 < max_bonds }
    ensures { result ≡ touches bonds.now a.0 b.0 }
{
    let first = cell::bond_number(bonds, b, FIRST);
    let second = cell::bond_number(bonds, b, SECOND);
    (first == a.0) | (second == a.0)
}

// The rank of a bond at an atom, of two for each bond: at its first end and at its second.
fn rank_of(bonds: &[i32], a: AtomId, b: BondId, ranks: &[u16]) -> u16
    requires { (b.0 < max_bonds) × (2 * b.0 + 1 < length ranks.now) }
    ensures { result ≡ at_end ranks.now bonds.now a.0 b.0 }
{
    let i = b.0;
    if cell::bond_number(bonds, b, SECOND) == a.0 {
        return ranks[2 * i + 1];
    }
    ranks[2 * i]
}

// The ranks of the hydrogen, where there is one, and of the bonds at an atom by ascending number: four together.
fn ranks_at(bonds: &[i32], m: usize, a: AtomId, h: usize, ranks: &[u16]) -> [u16; FOUR]
    requires m_le_max_bonds { (m ≤ max_bonds) × (2 * m ≤ length ranks.now) }
    requires a_len { length (hydrogen_rank h ++ map (at_end ranks.now bonds.now a.0) (bonds_at bonds.now m a.0)) ≡ 4 }
    ensures { result ≡ hydrogen_rank h ++ map (at_end ranks.now bonds.now a.0) (bonds_at bonds.now m a.0) }
{
    let mut four = [1u16; FOUR];
    let mut k = usize::from(h == 1);
    let mut i = 0;
    // Stays: it goes on until four are found, which is known to be before the bonds end; a range of bonds would ask for them once more.
    while k < FOUR {
        if touches(bonds, a, BondId(i)) {
            four[k] = rank_of(bonds, a, BondId(i), ranks);
            k += 1;
        }
        i += 1;
    }
    four
}

// internal: the mark of an atom that may have it, turned where the ranks of its hydrogen and its bonds are in an odd order.
pub fn turned_mark(atoms: &[i32], bonds: &[i32], m: usize, a: AtomId, ranks: &[u16]) -> u8
    requires a_lt_max_atoms { (a.0 < max_atoms) × (m ≤ max_bonds) × (2 * m ≤ length ranks.now) }
    requires a_bound { (mark atoms.now a.0 ≤ max_mark) × (unfit atoms.now bonds.now m a.0 ≡ false) }
    ensures { result ≡ turned_mark (at_end ranks.now bonds.now) atoms.now bonds.now m a.0 }
{
    let k = cell::atom_number(atoms, a, MARK);
    if k == 0 {
        return 0;
    }
    let h = cell::atom_number(atoms, a, HYDROGENS);
    let r = ranks_at(bonds, m, a, h, ranks);
    if odd_four(r[0], r[1], r[2], r[3]) {
        return other_mark(k as u8);
    }
    k as u8
}

// internal: turns the marks of n atoms where they are in an odd order.
pub fn turn_marks(atoms: &mut [i32], bonds: &[i32], n: usize, m: usize, ranks: &[u16])
    requires valid { Valid atoms.old bonds.now n m }
    requires m_value { (none_unfit atoms.old bonds.now n m ≡ true) × (2 * m ≤ length ranks.now) }
    ensures { atoms.new ≡ turn_marks (at_end ranks.now bonds.now) bonds.now m n atoms.old }
{
    for i in 0..n {
        let k = turned_mark(atoms, bonds, m, AtomId(i), ranks);
        if k != 0 {
            cell::put_atom_cell(atoms, AtomId(i), MARK, k as i32);
        }
    }
}
