// Folding: marks and map numbers are left aside, and plain hydrogen atoms become hydrogens of their neighbours. Every function here is internal.
#![tactic(auto)]

ghost use Rattle.std.specs.Prelude.{◌≡◌, ◌++◌, ◌<◌, ◌≤◌, length, drop, replicate, get_or, pos};
ghost use Rattle.loops.specs.Loop.{how_many, up_to};
ghost use Rattle.table.specs.Limits.{max_atoms, max_bonds};
ghost use Rattle.same_model.specs.Same.{molecule};
ghost use Rattle.folding.specs.Folding.{bared_atoms, bare_bond, bared_bonds, plain_row, merged, folded, Complete};
ghost use Rattle.folding.specs.Links.{none, linked, link, Ends, no_hydrogen, takes_one, folds_by, fold_by, folded_by, stays_by, new_number, next_number, number_by, move_atom, move_atoms, placing, move_bond, move_bonds};

use ids::{AtomId, BondId, SMALL};
use table::{
    Bond, CHARGE, ELEMENT, EXTENSION, HYDROGENS, ISOTOPE, KIND, MARK, MAX_ATOMS, SELECTED, cell,
    row,
};

// No number of an atom. Stays: `none` of specs/Links is this number, and what a fold does is defined by it.
const NONE: u16 = 65535;

// The kind of a single bond, as a cell of a table holds it.
const SINGLE: i32 = 1;

// How many atoms and bonds a molecule has.
#[derive(Clone, Copy)]
pub struct Counts {
    pub atoms: usize,
    pub bonds: usize,
}

// Every extension and every mark of n atoms becomes 0.
fn bare_atoms(atoms: &mut [i32], n: usize)
    requires { n ≤ max_atoms }
    ensures { atoms.new ≡ bared_atoms n atoms.old }
{
    for i in 0..n {
        cell::put_atom_cell(atoms, AtomId(i), EXTENSION, 0);
        cell::put_atom_cell(atoms, AtomId(i), MARK, 0);
    }
}

// A bond that is marked becomes single.
fn bare_bond(bonds: &mut [i32], b: BondId)
    requires { b.0 < max_bonds }
    ensures { bonds.new ≡ bare_bond b.0 bonds.old }
{
    let k = cell::bond_number(bonds, b, KIND);
    if !kinds::is_mark(k) {
        return;
    }
    cell::put_bond_cell(bonds, b, KIND, SINGLE);
}

// Every marked bond of m becomes single.
fn bare_bonds(bonds: &mut [i32], m: usize)
    requires { m ≤ max_bonds }
    ensures { bonds.new ≡ bared_bonds m bonds.old }
{
    for i in 0..m {
        bare_bond(bonds, BondId(i));
    }
}

// Whether none of n atoms is a hydrogen.
fn no_hydrogen(atoms: &[i32], n: usize) -> bool
    requires { n ≤ max_atoms }
    ensures { result ≡ no_hydrogen atoms.now n }
{
    for i in 0..n {
        if cell::atom_number(atoms, AtomId(i), ELEMENT) == 1 {
            return false;
        }
    }
    true
}

// What is known of an atom's bonds, with one more of an order to another atom.
fn linked(x: u16, other: usize, order: usize) -> u16
    requires { other < max_atoms }
    ensures { result ≡ linked x other order }
{
    if x != 0 {
        return NONE;
    }
    if order != 1 {
        return NONE;
    }
    (other + 1) as u16
}

// The neighbour of every atom with one bond, of order 1, and 1 more, into a buffer of zeros.
fn link_bonds(bonds: &[i32], m: usize, links: &mut [u16])
    requires ends { Ends bonds.now m (length links.old) }
    requires links_value { links.old ≡ replicate (length links.old) 0 }
    ensures { links.new ≡ up_to (link bonds.now m) 0 (length links.old) }
{
    for i in 0..m {
        let row = row::get_bond(bonds, BondId(i));
        let first = cell::number(row.first);
        let second = cell::number(row.second);
        let order = kinds::order(cell::number(row.kind));
        links[first] = linked(links[first], second, order);
        links[second] = linked(links[second], first, order);
    }
}

// Whether an atom's cells are those of a plain hydrogen.
fn is_plain(atoms: &[i32], a: AtomId) -> bool
    requires { a.0 < max_atoms }
    ensures { result ≡ plain_row atoms.now a.0 }
{
    let e = cell::atom_within(atoms, a, ELEMENT, 1, 1);
    let i = cell::atom_within(atoms, a, ISOTOPE, 0, 0);
    let c = cell::atom_within(atoms, a, CHARGE, 0, 0);
    let h = cell::atom_within(atoms, a, HYDROGENS, 0, 0);
    let s = cell::atom_within(atoms, a, SELECTED, 0, 0);
    e & i & c & h & s
}

// Whether a plain hydrogen can become one of the atom p.
fn takes(atoms: &[i32], p: AtomId) -> bool
    requires { p.0 < max_atoms }
    ensures { result ≡ takes_one atoms.now p.0 }
{
    if cell::atom_within(atoms, p, ELEMENT, 1, 1) {
        return false;
    }
    cell::atom_number(atoms, p, HYDROGENS) < 9
}

// Whether an atom with a link goes.
fn folds(atoms: &[i32], a: AtomId, link: u16) -> bool
    requires { a.0 < max_atoms }
    ensures { result ≡ folds_by link a.0 atoms.now }
{
    if !is_plain(atoms, a) {
        return false;
    }
    let x = link as usize;
    if x == 0 {
        return false;
    }
    if MAX_ATOMS < x {
        return false;
    }
    takes(atoms, AtomId(x - 1))
}

// Folds an atom with a link into its neighbour, if it goes, and tells whether.
fn fold_atom(atoms: &mut [i32], a: AtomId, link: u16) -> bool
    requires { a.0 < max_atoms }
    ensures value { result ≡ folds_by link a.0 atoms.old }
    ensures atoms_after { atoms.new ≡ fold_by link a.0 atoms.old }
{
    if !folds(atoms, a, link) {
        return false;
    }
    let p = AtomId(link as usize - 1);
    let h = cell::atom_number(atoms, p, HYDROGENS);
    cell::put_atom_cell(atoms, p, HYDROGENS, (h + 1) as i32);
    true
}

// The new number of an atom, of which k before it stay.
fn new_number(gone: bool, k: usize) -> u16
    requires { k < max_atoms }
    ensures { result ≡ new_number gone k }
{
    if gone { NONE } else { k as u16 }
}

// How many stay with it.
fn next_number(gone: bool, k: usize) -> usize
    requires { k < max_atoms }
    ensures { result ≡ next_number gone k }
{
    if gone { k } else { k + 1 }
}

// Folds n atoms by ascending number, with the new numbers of those that stay, and tells how many do.
fn fold_atoms(atoms: &mut [i32], n: usize, links: &[u16], numbers: &mut [u16]) -> usize
    requires { (n ≤ max_atoms) × (n ≤ length links.now) × (n ≤ length numbers.old) }
    ensures value { result ≡ how_many (stays_by links.now atoms.old) 0 n }
    ensures atoms_after { atoms.new ≡ folded_by links.now atoms.old n }
    ensures numbers_after { numbers.new ≡ up_to (number_by links.now atoms.old) 0 n ++ drop n numbers.old }
{
    let mut k = 0;
    for i in 0..n {
        let gone = fold_atom(atoms, AtomId(i), links[i]);
        numbers[i] = new_number(gone, k);
        k = next_number(gone, k);
    }
    k
}

// Moves an atom's row to its new number, if it has one.
fn move_atom(atoms: &mut [i32], a: AtomId, k: u16)
    requires { a.0 < max_atoms }
    ensures { atoms.new ≡ move_atom k a.0 atoms.old }
{
    let to = k as usize;
    if MAX_ATOMS <= to {
        return;
    }
    let row = row::get_atom(atoms, a);
    table_edits::put_atom(atoms, AtomId(to), row);
}

// Moves the rows of n atoms to their new numbers.
fn move_atoms(atoms: &mut [i32], n: usize, numbers: &[u16])
    requires { (n ≤ max_atoms) × (n ≤ length numbers.now) }
    ensures { atoms.new ≡ move_atoms numbers.now n atoms.old }
{
    for i in 0..n {
        move_atom(atoms, AtomId(i), numbers[i]);
    }
}

// The new number of an atom; none past the end.
fn number_of(numbers: &[u16], a: usize) -> u16
    ensures { result ≡ get_or numbers.now a none }
{
    numbers.get(a).copied().unwrap_or(NONE)
}

// The row of a bond.
fn bond_of(first: usize, second: usize, kind: i32) -> Bond
    requires { (first < max_atoms) × (second < max_atoms) }
    ensures { result ≡ record { first = pos first; second = pos second; kind = kind } }
{
    Bond {
        first: first as i32,
        second: second as i32,
        kind,
    }
}

// Moves a bond's row to the place k, with the new numbers of its ends, if both stay, and tells the place after it.
fn move_bond(bonds: &mut [i32], b: BondId, k: usize, numbers: &[u16]) -> usize
    requires { (b.0 < max_bonds) × (k < max_bonds) }
    ensures { placing bonds.new result ≡ move_bond numbers.now b.0 (placing bonds.old k) }
{
    let row = row::get_bond(bonds, b);
    let first = number_of(numbers, cell::number(row.first)) as usize;
    let second = number_of(numbers, cell::number(row.second)) as usize;
    if MAX_ATOMS <= first {
        return k;
    }
    if MAX_ATOMS <= second {
        return k;
    }
    let moved = bond_of(first, second, row.kind);
    table_edits::put_bond(bonds, BondId(k), moved);
    k + 1
}

// Moves the rows of m bonds to their new numbers, and tells how many stay.
fn move_bonds(bonds: &mut [i32], m: usize, numbers: &[u16]) -> usize
    requires { m ≤ max_bonds }
    ensures { placing bonds.new result ≡ move_bonds numbers.now m bonds.old }
{
    let mut k = 0;
    for i in 0..m {
        k = move_bond(bonds, BondId(i), k, numbers);
    }
    k
}

// Folds bare tables of at most N atoms.
fn merge_sized<const N: usize>(atoms: &mut [i32], bonds: &mut [i32], n: usize, m: usize) -> Counts
    requires complete { Complete (molecule atoms.old bonds.old n m) }
    requires room { (n ≤ N) × (N ≤ max_atoms) }
    ensures { molecule atoms.new bonds.new result.atoms result.bonds ≡ merged (molecule atoms.old bonds.old n m) }
{
    let mut links = [0u16; N];
    let mut numbers = [0u16; N];
    link_bonds(bonds, m, &mut links);
    let atoms_left = fold_atoms(atoms, n, &links, &mut numbers);
    move_atoms(atoms, n, &numbers);
    let bonds_left = move_bonds(bonds, m, &numbers);
    Counts {
        atoms: atoms_left,
        bonds: bonds_left,
    }
}

// Folds bare tables.
fn merge(atoms: &mut [i32], bonds: &mut [i32], n: usize, m: usize) -> Counts
    requires { Complete (molecule atoms.old bonds.old n m) }
    ensures { molecule atoms.new bonds.new result.atoms result.bonds ≡ merged (molecule atoms.old bonds.old n m) }
{
    if n <= SMALL {
        merge_sized::<SMALL>(atoms, bonds, n, m)
    } else {
        merge_sized::<MAX_ATOMS>(atoms, bonds, n, m)
    }
}

// internal: folds a molecule in place, and tells how many atoms and bonds are left.
pub fn fold(atoms: &mut [i32], bonds: &mut [i32], n: usize, m: usize) -> Counts
    requires { Complete (molecule atoms.old bonds.old n m) }
    ensures { molecule atoms.new bonds.new result.atoms result.bonds ≡ folded (molecule atoms.old bonds.old n m) }
{
    bare_atoms(atoms, n);
    bare_bonds(bonds, m);
    if no_hydrogen(atoms, n) {
        return Counts { atoms: n, bonds: m };
    }
    merge(atoms, bonds, n, m)
}
