// Whether an entry of a register draws the compound of a text.
ghost use Rattle.std.specs.Prelude.{◌≡◌};
ghost use Rattle.table.specs.Valid.{Valid};
ghost use Rattle.same_model.specs.Same.{molecule};
ghost use Rattle.folding.specs.Folding.{folded, Complete};
ghost use Rattle.drawing_key.specs.Key.{key_of};
ghost use Rattle.withdrawal.specs.Verdict.{Tells, Says};

use table::{ATOM_CELLS, BOND_CELLS, MAX_ATOMS, MAX_BONDS, Tables};

// An entry's compound is a redrawing of the text's, it is none, or neither could be told.
#[derive(Clone, Copy)]
pub enum Verdict {
    Listed,
    Other,
    Unsure,
}

// The steps that a guess may take.
const BUDGET: usize = 8000;

// Whether two folded molecules are redrawings; of the second, the key and those of its atoms are known.
fn decide(tables1: Tables, tables2: Tables, key2: u64, keys2: &[u64]) -> Verdict
    requires valid { Valid tables1.atoms.now tables1.bonds.now tables1.n tables1.m }
    requires valid_2 { Valid tables2.atoms.now tables2.bonds.now tables2.n tables2.m }
    requires key2_value { key2 ≡ key_of (molecule tables2.atoms.now tables2.bonds.now tables2.n tables2.m) }
    ensures { Tells (molecule tables1.entry.atoms.now tables1.entry.bonds.now tables1.entry.n tables1.entry.m) (molecule tables2.entry.atoms.now tables2.entry.bonds.now tables2.entry.n tables2.entry.m) result }
{
    let Tables { n: n1, .. } = tables1;
    let Tables { n: n2, .. } = tables2;
    if n1 != n2 {
        return Verdict::Other;
    }
    if drawing_key::key(tables1) != key2 {
        return Verdict::Other;
    }
    let mut keys1 = [0u64; MAX_ATOMS];
    drawing_key::fill_atom_keys(tables1, &mut keys1);
    if redrawing_guess::shows_redrawing(tables1, &keys1, tables2, keys2, BUDGET) {
        return Verdict::Listed;
    }
    Verdict::Unsure
}

// The same of a molecule that is not folded yet.
fn compare(
    atoms1: &mut [i32],
    bonds1: &mut [i32],
    n1: usize,
    m1: usize,
    tables2: Tables,
    key2: u64,
    keys2: &[u64],
) -> Verdict
    requires complete { Complete (molecule atoms1.old bonds1.old n1 m1) }
    requires valid { Valid tables2.atoms.now tables2.bonds.now tables2.n tables2.m }
    requires key2_value { key2 ≡ key_of (molecule tables2.atoms.now tables2.bonds.now tables2.n tables2.m) }
    ensures { Tells (folded (molecule atoms1.old bonds1.old n1 m1)) (molecule tables2.entry.atoms.now tables2.entry.bonds.now tables2.entry.n tables2.entry.m) result }
{
    let c = folding::fold(atoms1, bonds1, n1, m1);
    decide(
        Tables {
            atoms: atoms1,
            bonds: bonds1,
            n: c.atoms,
            m: c.bonds,
        },
        tables2,
        key2,
        keys2,
    )
}

// internal: whether a text of a register draws a folded molecule; it is read into tables that are used again and again.
pub fn judge(
    body: &[u8],
    atoms1: &mut [i32; ATOM_CELLS * MAX_ATOMS],
    bonds1: &mut [i32; BOND_CELLS * MAX_BONDS],
    tables2: Tables,
    key2: u64,
    keys2: &[u64],
) -> Verdict
    requires valid { Valid tables2.atoms.now tables2.bonds.now tables2.n tables2.m }
    requires key2_value { key2 ≡ key_of (molecule tables2.atoms.now tables2.bonds.now tables2.n tables2.m) }
    ensures { Says body.now (molecule tables2.entry.atoms.now tables2.entry.bonds.now tables2.entry.n tables2.entry.m) result }
{
    let a = reader::read(body, atoms1, bonds1);
    match a {
        Err(_) => Verdict::Unsure,
        Ok(t) => compare(atoms1, bonds1, t.atoms, t.bonds, tables2, key2, keys2),
    }
}
