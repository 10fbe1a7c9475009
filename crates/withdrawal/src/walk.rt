// The entries of a register against a folded molecule.
ghost use Rattle.std.specs.Prelude.{◌≡◌, true, ◌≤◌, length};
ghost use Rattle.table.specs.Valid.{Valid};
ghost use Rattle.register.specs.Layout.{size, valid};
ghost use Rattle.same_model.specs.Same.{molecule};
ghost use Rattle.folding.specs.Folding.{folded, Complete};
ghost use Rattle.drawing_key.specs.Key.{key_of};
ghost use Rattle.withdrawal.specs.Walk.{left_of, Walked};

use crate::verdict::{Verdict, judge};
use register::contents;
use table::{ATOM_CELLS, BOND_CELLS, MAX_ATOMS, MAX_BONDS, Tables};

// What is said of a text: it is clear; an entry, with its tag and place, lists its compound; or the entry at a place could not be decided.
#[derive(Clone, Copy, Debug, PartialEq, Eq)]
pub enum Withdrawn {
    Clear,
    Listed { tag: u16, entry: usize },
    Undecided { entry: usize },
}

// The answer where no entry is listed, by the first that could not be decided.
fn conclude(unsure: Option<usize>) -> Withdrawn
    ensures { result ≡ left_of unsure }
{
    match unsure {
        Some(entry) => Withdrawn::Undecided { entry },
        None => Withdrawn::Clear,
    }
}

// The entries in order, up to the first that is listed.
fn walk(held: &[u8], tables: Tables, key: u64, keys: &[u64]) -> Withdrawn
    requires size_in_bounds { (size ≤ length held.now) × (valid held.now ≡ true) }
    requires valid { Valid tables.atoms.now tables.bonds.now tables.n tables.m }
    requires key_value { key ≡ key_of (molecule tables.atoms.now tables.bonds.now tables.n tables.m) }
    ensures { Walked held.now (molecule tables.entry.atoms.now tables.entry.bonds.now tables.entry.n tables.entry.m) result }
{
    let mut atoms1 = [0i32; ATOM_CELLS * MAX_ATOMS];
    let mut bonds1 = [0i32; BOND_CELLS * MAX_BONDS];
    let count = contents::count(held);
    let mut unsure: Option<usize> = None;
    for p in 0..count {
        let body = contents::body(held, p);
        let v = judge(body, &mut atoms1, &mut bonds1, tables, key, keys);
        match v {
            Verdict::Listed => return Withdrawn::Listed {
                tag: contents::tag(held, p),
                entry: p,
            },
            Verdict::Other => {}
            Verdict::Unsure => unsure = unsure.or(Some(p)),
        }
    }
    conclude(unsure)
}

// internal: the entries of a register against a molecule that is not folded yet.
pub fn ask(held: &[u8], atoms: &mut [i32], bonds: &mut [i32], n: usize, m: usize) -> Withdrawn
    requires size_in_bounds { (size ≤ length held.now) × (valid held.now ≡ true) }
    requires complete { Complete (molecule atoms.old bonds.old n m) }
    ensures { Walked held.now (folded (molecule atoms.old bonds.old n m)) result }
{
    let c = folding::fold(atoms, bonds, n, m);
    let tables = Tables {
        atoms,
        bonds,
        n: c.atoms,
        m: c.bonds,
    };
    let key = drawing_key::key(tables);
    let mut keys = [0u64; MAX_ATOMS];
    drawing_key::fill_atom_keys(tables, &mut keys);
    walk(held, tables, key, &keys)
}
