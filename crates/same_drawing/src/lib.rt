// A molecule settled by a row as a matrix of orders, and which atoms of two molecules may go to one another. Every function here is internal.
#![tactic(auto)]

ghost use Rattle.std.specs.Prelude.{◌≡◌, ◌++◌, ◌+◌, ◌*◌, ◌<◌, ◌≤◌, drop, length, get_or};
ghost use Rattle.loops.specs.Loop.{run, up_to};
ghost use Rattle.table.specs.Limits.{max_atoms, atom_cells};
ghost use Rattle.table_graph.specs.Graph.{flag};
ghost use Rattle.table_graph.specs.Built.{bump};
ghost use Rattle.table.specs.Cells.{atom_cell};
ghost use Rattle.same_model.specs.Same.{max_same, eq_z, same_cells};
ghost use Rattle.same_keys.specs.Keys.{mixed, Low, highest};
ghost use Rattle.same_drawing.specs.Drawing.{cells, settled_order, with_order, with_bond, bond_weight, row_sum, Ends, Drawable, atoms_only, may_go, match_cell};

use ids::{AtomId, BondId};
use same_place::{CELLS, SIDE};
use table::{CHARGE, ELEMENT, EXTENSION, HYDROGENS, ISOTOPE, cell, row};

// The order of a bond of a kind after settling by a row that has `chosen` there.
fn drawn_order(kind: usize, chosen: u8) -> u16
    ensures { result ≡ settled_order kind chosen }
{
    if chosen == 1 {
        return 2;
    }
    kinds::order(kind) as u16
}

// internal: raises a cell of a matrix, by no more than an open bond does.
pub fn raise(o: &mut [u16; CELLS], a: usize, b: usize, x: u16)
    requires a_lt_max_same { (a < max_same) × (b < max_same) × (x ≤ 17) }
    requires low { Low o.old 60000 }
    ensures { o.new ≡ bump o.old (max_same * a + b) x }
{
    let at = SIDE * a + b;
    o[at] += x;
}

// Adds the order of the bond k at both of its places.
fn add_order(bonds: &[i32], k: BondId, chosen: u8, o: &mut [u16; CELLS])
    requires ends { Ends bonds.now k.0 }
    requires low { Low o.old 50000 }
    ensures { o.new ≡ with_order bonds.now chosen k.0 o.old }
{
    let bond = row::get_bond(bonds, k);
    let first = cell::number(bond.first);
    let second = cell::number(bond.second);
    let x = drawn_order(cell::number(bond.kind), chosen);
    raise(o, first, second, x);
    raise(o, second, first, x);
}

// internal: the orders between the atoms of a molecule settled by the row, added to a matrix.
pub fn fill_orders(bonds: &[i32], m: usize, row: &[u8], o: &mut [u16; CELLS])
    requires drawable { Drawable bonds.now m row.now }
    requires low { Low o.old 40000 }
    ensures { o.new ≡ run (with_bond bonds.now row.now) 0 m o.old }
{
    for k in 0..m {
        add_order(bonds, BondId(k), row[k], o);
    }
}

// The keys of two atoms, mixed, times a small number.
fn pair_weight(keys: &[u64; SIDE], a: usize, b: usize, x: u16) -> u64
    requires a_lt_max_same { (a < max_same) × (b < max_same) × (x ≤ 3) }
    requires low { Low keys.now (highest 33) }
    ensures { result ≡ x * mixed (get_or keys.now a 0 + get_or keys.now b 0) }
{
    x as u64 * same_keys::mix(keys[a] + keys[b])
}

// What a bond adds to the sum of a row: its order after settling, times the keys of its ends, mixed.
fn bond_weight(bonds: &[i32], k: BondId, chosen: u8, keys: &[u64; SIDE]) -> u64
    requires ends { Ends bonds.now k.0 }
    requires low { Low keys.now (highest 33) }
    ensures { result ≡ bond_weight bonds.now keys.now chosen k.0 }
{
    let bond = row::get_bond(bonds, k);
    let first = cell::number(bond.first);
    let second = cell::number(bond.second);
    let x = drawn_order(cell::number(bond.kind), chosen);
    pair_weight(keys, first, second, x)
}

// internal: the sum of a row over all bonds.
pub fn row_sum(bonds: &[i32], m: usize, keys: &[u64; SIDE], row: &[u8]) -> u64
    requires drawable { Drawable bonds.now m row.now }
    requires low { Low keys.now (highest 33) }
    ensures { result ≡ row_sum bonds.now m keys.now row.now }
{
    let mut sum = 0u64;
    for k in 0..m {
        sum += bond_weight(bonds, BondId(k), row[k], keys);
    }
    sum
}

// Whether a cell of an atom is that of another.
fn same_cell(atoms1: &[i32], a: AtomId, atoms2: &[i32], b: AtomId, f: usize) -> bool
    requires { (a.0 < max_atoms) × (b.0 < max_atoms) × (f < atom_cells) }
    ensures { result ≡ eq_z (atom_cell atoms1.now a.0 f) (atom_cell atoms2.now b.0 f) }
{
    let w = cell::atom_cell(atoms2, b, f);
    cell::atom_within(atoms1, a, f, w, w)
}

// internal: whether the cells of an atom match those of another.
pub fn same_cells(atoms1: &[i32], a: AtomId, atoms2: &[i32], b: AtomId) -> bool
    requires { (a.0 < max_atoms) × (b.0 < max_atoms) }
    ensures { result ≡ same_cells (atoms_only atoms1.now) (atoms_only atoms2.now) a.0 b.0 }
{
    if !same_cell(atoms1, a, atoms2, b, ELEMENT) {
        return false;
    }
    let isotope = same_cell(atoms1, a, atoms2, b, ISOTOPE);
    let hydrogens = same_cell(atoms1, a, atoms2, b, HYDROGENS);
    let charge = same_cell(atoms1, a, atoms2, b, CHARGE);
    let extension = same_cell(atoms1, a, atoms2, b, EXTENSION);
    isotope & hydrogens & charge & extension
}

// 0 or 1: the cells of the matrix are numbers.
fn flag(b: bool) -> u8
    ensures { result ≡ flag b }
{
    u8::from(b)
}

// Whether an atom may go to another: their keys are equal, and their cells match.
fn may_go(
    atoms1: &[i32],
    keys1: &[u64; SIDE],
    a: AtomId,
    atoms2: &[i32],
    keys2: &[u64; SIDE],
    b: AtomId,
) -> bool
    requires { (a.0 < max_same) × (b.0 < max_same) }
    ensures { result ≡ may_go atoms1.now keys1.now atoms2.now keys2.now a.0 b.0 }
{
    let i = a.0;
    let j = b.0;
    if keys1[i] != keys2[j] {
        return false;
    }
    same_cells(atoms1, a, atoms2, b)
}

// internal: 1 for each pair of atoms that may go to one another, into the first n rows of a matrix.
pub fn fill_matches(
    atoms1: &[i32],
    keys1: &[u64; SIDE],
    atoms2: &[i32],
    keys2: &[u64; SIDE],
    n: usize,
    ok: &mut [u8; CELLS],
)
    requires { (n ≤ max_same) × (cells ≤ length ok.old) }
    ensures { ok.new ≡ up_to (match_cell atoms1.now keys1.now atoms2.now keys2.now) 0 (max_same * n) ++ drop (max_same * n) ok.old }
{
    let end = SIDE * n;
    for i in 0..end {
        ok[i] = flag(may_go(
            atoms1,
            keys1,
            AtomId(i / SIDE),
            atoms2,
            keys2,
            AtomId(i % SIDE),
        ));
    }
}
