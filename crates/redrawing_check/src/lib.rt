// Whether an untrusted guess shows two molecules to be redrawings of one another. Every function here is internal.
#![tactic(auto)]

ghost use Rattle.std.specs.Prelude.{◌≡◌, true, ◌++◌, ◌+◌, ◌<◌, ◌≤◌, length, drop};
ghost use Rattle.loops.specs.Loop.{each, up_to};
ghost use Rattle.table.specs.Limits.{max_atoms, max_bonds};
ghost use Rattle.table.specs.Valid.{Valid};
ghost use Rattle.same_model.specs.Same.{molecule, joins, image};
ghost use Rattle.same_model.specs.Redrawing.{Redrawing};
ghost use Rattle.redrawing_check.specs.Certificate.{Permutes, bonds_only, cells_kept, ends_kept, numbers_kept, sums_kept, sum_at, Settled};

use ids::{AtomId, BondId, SMALL};
use table::{FIRST, MAX_ATOMS, MAX_BONDS, SECOND, Tables, cell};

// A number of a list, 0 past its end.
fn image(t: &[u16], a: usize) -> usize
    ensures { result ≡ image t.now a }
{
    usize::from(t.get(a).copied().unwrap_or(0))
}

// Whether the first n numbers of a list are below n and no two are equal; those met are marked.
fn permutes_in(list: &[u16], n: usize, seen: &mut [bool]) -> bool
    requires { n ≤ length seen.old }
    ensures { result ≡ true → Permutes n list.now }
{
    for a in 0..n {
        let b = image(list, a);
        if n <= b {
            return false;
        }
        if seen[b] {
            return false;
        }
        seen[b] = true;
    }
    true
}

// The same of at most N numbers.
fn permutes_sized<const N: usize>(list: &[u16], n: usize) -> bool
    requires { (n ≤ N) × (N ≤ max_bonds) }
    ensures { result ≡ true → Permutes n list.now }
{
    let mut seen = [false; N];
    permutes_in(list, n, &mut seen)
}

// Whether a list has n numbers, each below n, no two of them equal.
fn is_permutation(list: &[u16], n: usize) -> bool
    requires { n ≤ max_bonds }
    ensures { result ≡ true → Permutes n list.now }
{
    if list.len() < n {
        return false;
    }
    if n <= SMALL {
        permutes_sized::<SMALL>(list, n)
    } else {
        permutes_sized::<MAX_BONDS>(list, n)
    }
}

// Whether the cells of each of n atoms match those of its image.
fn same_atoms(atoms1: &[i32], atoms2: &[i32], t: &[u16], n: usize) -> bool
    requires { (n ≤ max_atoms) × Permutes n t.now }
    ensures { result ≡ each (cells_kept atoms1.now atoms2.now t.now) 0 n }
{
    for a in 0..n {
        if !same_drawing::same_cells(atoms1, AtomId(a), atoms2, AtomId(image(t, a))) {
            return false;
        }
    }
    true
}

// Whether a bond joins the atoms a and b.
fn joins(bonds: &[i32], k: BondId, a: usize, b: usize) -> bool
    requires { k.0 < max_bonds }
    ensures { result ≡ joins (bonds_only bonds.now) a b k.0 }
{
    let first = cell::bond_number(bonds, k, FIRST);
    let second = cell::bond_number(bonds, k, SECOND);
    ((first == a) & (second == b)) | ((first == b) & (second == a))
}

// Whether the image of each of m bonds joins the images of its ends.
fn same_bonds(bonds1: &[i32], bonds2: &[i32], t: &[u16], u: &[u16], m: usize) -> bool
    requires { (m ≤ max_bonds) × Permutes m u.now }
    ensures { result ≡ each (ends_kept bonds1.now bonds2.now t.now u.now) 0 m }
{
    for k in 0..m {
        let first = image(t, cell::bond_number(bonds1, BondId(k), FIRST));
        let second = image(t, cell::bond_number(bonds1, BondId(k), SECOND));
        if !joins(bonds2, BondId(image(u, k)), first, second) {
            return false;
        }
    }
    true
}

// Two numbers added, as a wider one.
fn plus(x: u16, y: u8) -> u32
    ensures { result ≡ x + y }
{
    u32::from(x) + u32::from(y)
}

// The settled sums of n atoms, from their bond sums and flags.
fn fill_sums(sums: &[u16], flags: &[u8], n: usize, settled: &mut [u32])
    requires { (n ≤ length sums.now) × (n ≤ length flags.now) × (n ≤ length settled.old) }
    ensures { settled.new ≡ up_to (sum_at sums.now flags.now) 0 n ++ drop n settled.old }
{
    for a in 0..n {
        settled[a] = plus(sums[a], flags[a]);
    }
}

// The settled sums of a molecule of at most N atoms and M bonds.
fn settle<const N: usize, const M: usize>(tables: Tables, settled: &mut [u32])
    requires valid { Valid tables.atoms.now tables.bonds.now tables.n tables.m }
    requires room { (tables.n ≤ N) × (tables.m ≤ M) × (tables.n ≤ length settled.old) }
    requires sizes { (N ≤ max_atoms) × (M ≤ max_bonds) }
    ensures { Settled (molecule tables.entry.atoms.now tables.entry.bonds.now tables.entry.n tables.entry.m) settled.new }
{
    let Tables { atoms, bonds, n, m } = tables;
    let mut flags = [0u8; N];
    let mut ea = [0u16; M];
    let mut eb = [0u16; M];
    let mut el = [0u8; M];
    let mut sums = [0u16; N];
    table_graph::wire(bonds, m, &mut ea, &mut eb, &mut el, &mut sums);
    table_graph::fill_flags(atoms, &sums, n, &mut flags);
    fill_sums(&sums, &flags, n, settled);
}

// Whether the number of each of n atoms is that of its image.
fn same_numbers(numbers1: &[u32], numbers2: &[u32], t: &[u16], n: usize) -> bool
    requires { (n ≤ length numbers1.now) × (n ≤ length numbers2.now) × Permutes n t.now }
    ensures { result ≡ each (numbers_kept numbers1.now numbers2.now t.now) 0 n }
{
    for a in 0..n {
        let b = image(t, a);
        if numbers1[a] != numbers2[b] {
            return false;
        }
    }
    true
}

// Whether the settled sum of each atom is that of its image, of at most N atoms and M bonds.
fn same_sums_sized<const N: usize, const M: usize>(
    tables1: Tables,
    tables2: Tables,
    t: &[u16],
) -> bool
    requires valid { Valid tables1.atoms.now tables1.bonds.now tables1.n tables1.m × Valid tables2.atoms.now tables2.bonds.now tables2.n tables2.m }
    requires counts { (tables1.n ≡ tables2.n) × (tables1.m ≡ tables2.m) × Permutes tables1.n t.now }
    requires room { (tables1.n ≤ N) × (tables1.m ≤ M) }
    requires sizes { (N ≤ max_atoms) × (M ≤ max_bonds) }
    ensures { result ≡ each (sums_kept (molecule tables1.entry.atoms.now tables1.entry.bonds.now tables1.entry.n tables1.entry.m) (molecule tables2.entry.atoms.now tables2.entry.bonds.now tables2.entry.n tables2.entry.m) t.now) 0 tables1.entry.n }
{
    let mut settled1 = [0u32; N];
    let mut settled2 = [0u32; N];
    settle::<N, M>(tables1, &mut settled1);
    settle::<N, M>(tables2, &mut settled2);
    same_numbers(&settled1, &settled2, t, tables1.n)
}

// Whether the settled sum of each atom is that of its image.
fn same_sums(tables1: Tables, tables2: Tables, t: &[u16]) -> bool
    requires valid { Valid tables1.atoms.now tables1.bonds.now tables1.n tables1.m × Valid tables2.atoms.now tables2.bonds.now tables2.n tables2.m }
    requires counts { (tables1.n ≡ tables2.n) × (tables1.m ≡ tables2.m) × Permutes tables1.n t.now }
    ensures { result ≡ each (sums_kept (molecule tables1.entry.atoms.now tables1.entry.bonds.now tables1.entry.n tables1.entry.m) (molecule tables2.entry.atoms.now tables2.entry.bonds.now tables2.entry.n tables2.entry.m) t.now) 0 tables1.entry.n }
{
    if tables1.n <= SMALL && tables1.m <= SMALL {
        same_sums_sized::<SMALL, SMALL>(tables1, tables2, t)
    } else {
        same_sums_sized::<MAX_ATOMS, MAX_BONDS>(tables1, tables2, t)
    }
}

// internal: true only if the second molecule is a redrawing of the first: the images t of the atoms and u of the bonds show it. Lists that are too short, and any other guess that shows nothing, are answered with false.
pub fn is_redrawing(tables1: Tables, tables2: Tables, t: &[u16], u: &[u16]) -> bool
    requires valid { Valid tables1.atoms.now tables1.bonds.now tables1.n tables1.m }
    requires valid_2 { Valid tables2.atoms.now tables2.bonds.now tables2.n tables2.m }
    ensures { result ≡ true → Redrawing (molecule tables1.entry.atoms.now tables1.entry.bonds.now tables1.entry.n tables1.entry.m) (molecule tables2.entry.atoms.now tables2.entry.bonds.now tables2.entry.n tables2.entry.m) }
{
    let Tables {
        atoms: atoms1,
        bonds: bonds1,
        n: n1,
        m: m1,
    } = tables1;
    let Tables {
        atoms: atoms2,
        bonds: bonds2,
        n: n2,
        m: m2,
    } = tables2;
    if n1 != n2 {
        return false;
    }
    if m1 != m2 {
        return false;
    }
    if !is_permutation(t, n1) {
        return false;
    }
    if !is_permutation(u, m1) {
        return false;
    }
    if !same_atoms(atoms1, atoms2, t, n1) {
        return false;
    }
    if !same_bonds(bonds1, bonds2, t, u, m1) {
        return false;
    }
    same_sums(tables1, tables2, t)
}
