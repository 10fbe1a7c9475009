// A molecule as a matrix of orders while only the first bonds of its row are decided. Every function here is internal.
#![tactic(auto)]

ghost use Rattle.std.specs.Prelude.{◌≡◌, ◌++◌, ◌+◌, ◌*◌, ◌<◌, ◌≤◌, length, drop, replicate};
ghost use Rattle.loops.specs.Loop.{up_to};
ghost use Rattle.table.specs.Cells.{kind};
ghost use Rattle.table.specs.Valid.{Valid};
ghost use Rattle.matching.specs.Model.{Shape, Ends};
ghost use Rattle.table_graph.specs.Built.{bump};
ghost use Rattle.same_model.specs.Same.{max_same};
ghost use Rattle.same_keys.specs.Keys.{Low};
ghost use Rattle.same_drawing.specs.Drawing.{cells, Drawable};
ghost use Rattle.same_open.specs.Open.{open_bond};
ghost use Rattle.same_part.specs.Value.{part_value, with_value, open_flag};
ghost use Rattle.same_part.specs.Part.{part_matrix, Opens};

use ids::BondId;
use matching::{EndTables, Links};
use same_open::OPEN_BOND;
use same_place::{CELLS, SIDE};
use table::{MAX_BONDS, Tables, cell, row};

// The bonds of a molecule, marks for those whose order a matching decides, and a row.
#[derive(Clone, Copy)]
pub struct Part<'a> {
    pub bonds: &'a [i32],
    pub m: usize,
    pub opened: &'a [u8; MAX_BONDS],
    pub row: &'a [u8],
}

// 1 for a bond that can be chosen.
fn open_flag(links: Links, need: &[u8], k: BondId) -> u8
    requires ends { Ends links.ends.first.now links.ends.second.now need.now k.0 }
    requires k_in_bounds { k.0 < length links.elided.now }
    ensures { result ≡ open_flag links.entry.ends.first.now links.entry.ends.second.now links.entry.elided.now need.now k.0 }
{
    u8::from(matching_search::choosable(links, need, k))
}

// 1 for each bond that can be chosen, into the first cells.
fn mark_open(links: Links, need: &[u8], opened: &mut [u8])
    requires { Shape links.ends.first.now links.ends.second.now links.elided.now need.now opened.old 0 }
    ensures { opened.new ≡ up_to (open_flag links.entry.ends.first.now links.entry.ends.second.now links.entry.elided.now need.now) 0 (length links.entry.ends.first.now) ++ drop (length links.entry.ends.first.now) opened.old }
{
    for k in 0..links.ends.first.len() {
        opened[k] = open_flag(links, need, BondId(k));
    }
}

// internal: the bonds whose order a matching decides: 1 for each elided bond between delocalized atoms.
pub fn fill_open(tables: Tables, opened: &mut [u8; MAX_BONDS])
    requires valid { Valid tables.atoms.now tables.bonds.now tables.n tables.m }
    requires n_le_max_same { tables.n ≤ max_same }
    ensures { Opens tables.entry.atoms.now tables.entry.bonds.now tables.entry.n tables.entry.m opened.new }
{
    let Tables { n, m, .. } = tables;
    let mut flags = [0u8; SIDE];
    let mut ea = [0u16; MAX_BONDS];
    let mut eb = [0u16; MAX_BONDS];
    let mut el = [0u8; MAX_BONDS];
    let mut sums = [0u16; SIDE];
    let mut marks = [0u8; MAX_BONDS];
    table_graph::build(tables, &mut flags, &mut ea, &mut eb, &mut el, &mut sums);
    let links = Links {
        ends: EndTables {
            first: &ea[..m],
            second: &eb[..m],
        },
        elided: &el[..m],
    };
    mark_open(links, &flags[..n], &mut marks);
    *opened = marks;
}

// What a bond of a kind adds to a cell, with what the marks of open bonds and the row have there.
fn part_order(kind: usize, opened: u8, chosen: u8, decided: bool) -> u16
    ensures { result ≡ part_value kind opened chosen decided }
{
    if decided & (chosen == 1) {
        return 2;
    }
    if !decided & (opened == 1) {
        return OPEN_BOND;
    }
    kinds::order(kind) as u16
}

// Adds the bond k at both of its places.
fn add_part(bonds: &[i32], k: BondId, opened: u8, chosen: u8, decided: bool, p: &mut [u16; CELLS])
    requires ends { Rattle.same_drawing.specs.Drawing.Ends bonds.now k.0 }
    requires low { Low p.old 50000 }
    ensures { p.new ≡ with_value bonds.now (part_value (kind bonds.now k.0) opened chosen decided) k.0 p.old }
{
    let bond = row::get_bond(bonds, k);
    let first = cell::number(bond.first);
    let second = cell::number(bond.second);
    let x = part_order(cell::number(bond.kind), opened, chosen, decided);
    same_drawing::raise(p, first, second, x);
    same_drawing::raise(p, second, first, x);
}

// internal: a molecule whose row is decided before `to`, as a matrix, from zeros.
pub fn fill_part(part: Part, to: usize, p: &mut [u16; CELLS])
    requires drawable { Drawable part.bonds.now part.m part.row.now }
    requires p_value { p.old ≡ replicate cells 0 }
    ensures { p.new ≡ part_matrix part.entry.bonds.now part.entry.opened.now part.entry.row.now to part.entry.m }
{
    let Part {
        bonds,
        m,
        opened,
        row,
    } = part;
    for k in 0..m {
        add_part(bonds, BondId(k), opened[k], row[k], k < to, p);
    }
}
