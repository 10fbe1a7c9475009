// The key of a molecule: redrawings have equal keys.
#![tactic(auto)]

ghost use Rattle.std.specs.Prelude.{◌≡◌, ◌*◌, ◌≤◌, length};
ghost use Rattle.table.specs.Limits.{max_atoms, max_bonds, atom_cells, bond_cells};
ghost use Rattle.same_model.specs.Same.{molecule};
ghost use Rattle.folding.specs.Folding.{folded, Complete};
ghost use Rattle.drawing_key.specs.Key.{key_of};
ghost use Rattle.molecule_key.specs.Keyed.{told, keyed_of};

use ids::SMALL;
use refusal::Refusal;
use table::{ATOM_CELLS, BOND_CELLS, MAX_ATOMS, MAX_BONDS, Tables};

// The cells of the tables of a small molecule, and of any molecule.
const SMALL_ATOM_CELLS: usize = ATOM_CELLS * SMALL;

const SMALL_BOND_CELLS: usize = BOND_CELLS * SMALL;

const MAX_ATOM_CELLS: usize = ATOM_CELLS * MAX_ATOMS;

const MAX_BOND_CELLS: usize = BOND_CELLS * MAX_BONDS;

// The key of the used rows, which are copied into at most A and B cells and folded there.
fn folded_key<const A: usize, const B: usize>(tables: Tables) -> u64
    requires complete { Complete (molecule tables.atoms.now tables.bonds.now tables.n tables.m) }
    requires room { (length tables.atoms.now ≤ A) × (length tables.bonds.now ≤ B) }
    requires sizes { (A ≤ atom_cells * max_atoms) × (B ≤ bond_cells * max_bonds) }
    ensures { result ≡ key_of (folded (molecule tables.entry.atoms.now tables.entry.bonds.now tables.entry.n tables.entry.m)) }
{
    let Tables { atoms, bonds, n, m } = tables;
    let mut spare = [0i32; A];
    let mut beside = [0i32; B];
    let spare = &mut spare[..atoms.len()];
    let beside = &mut beside[..bonds.len()];
    spare.copy_from_slice(atoms);
    beside.copy_from_slice(bonds);
    let c = folding::fold(spare, beside, n, m);
    drawing_key::key(Tables {
        atoms: spare,
        bonds: beside,
        n: c.atoms,
        m: c.bonds,
    })
}

// The key of tables that hold their used rows and no more.
fn rows_key(tables: Tables) -> u64
    requires complete { Complete (molecule tables.atoms.now tables.bonds.now tables.n tables.m) }
    requires atoms_len { (length tables.atoms.now ≡ atom_cells * tables.n) × (length tables.bonds.now ≡ bond_cells * tables.m) }
    ensures { result ≡ key_of (folded (molecule tables.entry.atoms.now tables.entry.bonds.now tables.entry.n tables.entry.m)) }
{
    if tables.n <= SMALL && tables.m <= SMALL {
        folded_key::<SMALL_ATOM_CELLS, SMALL_BOND_CELLS>(tables)
    } else {
        folded_key::<MAX_ATOM_CELLS, MAX_BOND_CELLS>(tables)
    }
}

// The key of the molecule of the tables, of any size: redrawings have equal keys. Refusals 1, 13.
pub fn key(tables: Tables) -> Result<u64, Refusal>
    ensures { told result ≡ keyed_of tables.entry.atoms.now tables.entry.bonds.now tables.entry.n tables.entry.m }
{
    let Tables { atoms, bonds, n, m } = tables;
    if !table_validity::enough(atoms, bonds) {
        return Err(Refusal::Short);
    }
    if !table_validity::sound(tables) {
        return Err(Refusal::Invalid);
    }
    let a = ATOM_CELLS * n;
    let b = BOND_CELLS * m;
    Ok(rows_key(Tables {
        atoms: &atoms[..a],
        bonds: &bonds[..b],
        n,
        m,
    }))
}
