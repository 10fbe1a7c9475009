// The fields of an atom, in brackets and outside.
ghost use Rattle.std.specs.Prelude.{◌≡◌, true, [], ◌∷◌, ◌<◌, ◌≤◌, pos, negsuc};
ghost use Rattle.table.specs.Limits.{max_atoms};
ghost use Rattle.table.specs.Cells.{in_range};
ghost use Rattle.buffer.specs.Buffer.{buffer_at, Wrote};
ghost use Rattle.writing_atoms.specs.Fields.{letters, AtomFits, Plain, Common, capital};
ghost use Rattle.writing.specs.Spell.{isotope_bytes, symbol_bytes, mark_bytes, hydrogen_bytes, size_bytes, charge_bytes, extension_bytes, bracket_bytes, without_brackets, spelled_atom};

use crate::decimal;
use element::Spelling;
use ids::AtomId;
use table::{CHARGE, ELEMENT, EXTENSION, HYDROGENS, ISOTOPE, SELECTED};

// The isotope, nothing for 0.
fn isotope(out: &mut [u8], at: usize, i: usize) -> usize
    requires { i < 1000 }
    ensures { Wrote (isotope_bytes i) (buffer_at out.old at) (buffer_at out.new result) }
{
    if i == 0 {
        return at;
    }
    decimal(out, at, i)
}

// The letters of a symbol.
fn spelled(out: &mut [u8], at: usize, s: Spelling) -> usize
    ensures { Wrote (letters s) (buffer_at out.old at) (buffer_at out.new result) }
{
    if s.first == 0 {
        return at;
    }
    let at = buffer::put(out, at, s.first);
    if s.second == 0 {
        return at;
    }
    buffer::put(out, at, s.second)
}

// The symbol of an element, or its selected letter.
fn symbol(out: &mut [u8], at: usize, e: usize, selected: usize) -> usize
    requires { e < 119 }
    ensures { Wrote (symbol_bytes e selected) (buffer_at out.old at) (buffer_at out.new result) }
{
    if selected == 1 {
        return spelled(out, at, element::spell_selected(e as u8));
    }
    spelled(out, at, element::spell(e as u8))
}

// The mark, nothing for 0.
fn mark(out: &mut [u8], at: usize, k: u8) -> usize
    ensures { Wrote (mark_bytes k) (buffer_at out.old at) (buffer_at out.new result) }
{
    if k == 0 {
        return at;
    }
    let at = buffer::put(out, at, b'@');
    if k == 1 {
        return at;
    }
    buffer::put(out, at, b'@')
}

// The hydrogens, nothing for 0.
fn hydrogens(out: &mut [u8], at: usize, h: usize) -> usize
    requires { h < 10 }
    ensures { Wrote (hydrogen_bytes h) (buffer_at out.old at) (buffer_at out.new result) }
{
    sized(out, at, b'H', h)
}

// A sign, and its size from 2 on; nothing for 0.
fn sized(out: &mut [u8], at: usize, sign: u8, h: usize) -> usize
    requires { h < 10 }
    ensures { Wrote (size_bytes sign h) (buffer_at out.old at) (buffer_at out.new result) }
{
    if h == 0 {
        return at;
    }
    let at = buffer::put(out, at, sign);
    if h == 1 {
        return at;
    }
    crate::digit(out, at, h)
}

// The charge, nothing for 0.
fn charge(out: &mut [u8], at: usize, c: i32) -> usize
    requires { in_range c (negsuc 8) (pos 9) ≡ true }
    ensures { Wrote (charge_bytes c) (buffer_at out.old at) (buffer_at out.new result) }
{
    if c < 0 {
        return sized(out, at, b'-', (0 - c) as usize);
    }
    sized(out, at, b'+', c as usize)
}

// The extension, nothing for 0.
fn extension(out: &mut [u8], at: usize, x: usize) -> usize
    requires { x < 10000 }
    ensures { Wrote (extension_bytes x) (buffer_at out.old at) (buffer_at out.new result) }
{
    if x == 0 {
        return at;
    }
    let at = buffer::put(out, at, b':');
    decimal(out, at, x)
}

// An atom in brackets, with its mark as it is written.
fn bracket(atoms: &[i32], a: AtomId, k: u8, out: &mut [u8], at: usize) -> usize
    requires a_lt_max_atoms { a.0 < max_atoms }
    requires atom_fits { AtomFits atoms.now a.0 }
    ensures { Wrote (bracket_bytes atoms.now a.0 k) (buffer_at out.old at) (buffer_at out.new result) }
{
    let at = buffer::put(out, at, b'[');
    let at = isotope(out, at, table::cell::atom_number(atoms, a, ISOTOPE));
    let e = table::cell::atom_number(atoms, a, ELEMENT);
    let at = symbol(out, at, e, table::cell::atom_number(atoms, a, SELECTED));
    let at = mark(out, at, k);
    let at = hydrogens(out, at, table::cell::atom_number(atoms, a, HYDROGENS));
    let at = charge(out, at, table::cell::atom_cell(atoms, a, CHARGE));
    let at = extension(out, at, table::cell::atom_number(atoms, a, EXTENSION));
    buffer::put(out, at, b']')
}

// Whether an atom with this mark and this bond sum stands without brackets.
fn is_outside(atoms: &[i32], a: AtomId, k: u8, sum: usize) -> bool
    requires a_lt_max_atoms { a.0 < max_atoms }
    requires atom_fits { AtomFits atoms.now a.0 }
    ensures { result ≡ without_brackets atoms.now a.0 k sum }
{
    let e = table::cell::atom_number(atoms, a, ELEMENT);
    let implied = valence::implied(e, table::cell::atom_number(atoms, a, SELECTED), sum);
    (table::cell::atom_number(atoms, a, ISOTOPE) == 0)
        & table::cell::atom_within(atoms, a, CHARGE, 0, 0)
        & (table::cell::atom_number(atoms, a, EXTENSION) == 0)
        & (k == 0)
        & element::is_bare(e as u8)
        & (implied.count == table::cell::atom_number(atoms, a, HYDROGENS))
}

// Any atom with its mark as it is written and its bond sum.
fn any_atom(atoms: &[i32], a: AtomId, k: u8, sum: usize, out: &mut [u8], at: usize) -> usize
    requires a_lt_max_atoms { a.0 < max_atoms }
    requires atom_fits { AtomFits atoms.now a.0 }
    ensures { Wrote (spelled_atom atoms.now a.0 k sum) (buffer_at out.old at) (buffer_at out.new result) }
{
    if is_outside(atoms, a, k, sum) {
        let e = table::cell::atom_number(atoms, a, ELEMENT);
        return symbol(out, at, e, table::cell::atom_number(atoms, a, SELECTED));
    }
    bracket(atoms, a, k, out, at)
}

// Whether an atom with this mark has neither charge nor isotope nor extension nor mark; never where the table ends before its row does.
fn is_plain(atoms: &[i32], a: AtomId, k: u8) -> bool
    requires { a.0 < max_atoms }
    ensures { result ≡ true → Plain atoms.now a.0 k }
{
    if k != 0 {
        return false;
    }
    if atoms.len() <= table::cell::atom_place(a, EXTENSION) {
        return false;
    }
    table::cell::atom_within(atoms, a, CHARGE, 0, 0)
        & table::cell::atom_within(atoms, a, ISOTOPE, 0, 0)
        & table::cell::atom_within(atoms, a, EXTENSION, 0, 0)
}

// Whether an atom is a carbon, nitrogen or oxygen whose bonds and hydrogens make up its first target.
fn is_common(atoms: &[i32], a: AtomId, sum: usize) -> bool
    requires { a.0 < max_atoms }
    ensures { result ≡ true → Common atoms.now a.0 sum }
{
    if !table::cell::atom_within(atoms, a, ELEMENT, 6, 8) {
        return false;
    }
    if !table::cell::atom_within(atoms, a, SELECTED, 0, 1) {
        return false;
    }
    let e = table::cell::atom_number(atoms, a, ELEMENT);
    let s = table::cell::atom_number(atoms, a, SELECTED);
    let target = 10 - e - s;
    if target < sum {
        return false;
    }
    target - sum == table::cell::atom_number(atoms, a, HYDROGENS)
}

// The letter of carbon, nitrogen or oxygen.
fn capital(e: usize) -> u8
    ensures { result ≡ capital e }
{
    match e {
        6 => b'C',
        7 => b'N',
        _ => b'O',
    }
}

// The letter of carbon, nitrogen or oxygen, or its selected letter.
fn common_letter(e: usize, selected: usize) -> u8
    requires le_e { (6 ≤ e) × (e ≤ 8) }
    requires selected_bound { selected ≤ 1 }
    ensures { symbol_bytes e selected ≡ result ∷ [] }
{
    capital(e) + 32 * selected as u8
}

// internal: an atom with its mark as it is written and its bond sum.
pub fn atom(atoms: &[i32], a: AtomId, k: u8, sum: usize, out: &mut [u8], at: usize) -> usize
    requires a_lt_max_atoms { a.0 < max_atoms }
    requires atom_fits { AtomFits atoms.now a.0 }
    ensures { Wrote (spelled_atom atoms.now a.0 k sum) (buffer_at out.old at) (buffer_at out.new result) }
{
    if !is_plain(atoms, a, k) {
        return any_atom(atoms, a, k, sum, out, at);
    }
    if !is_common(atoms, a, sum) {
        return any_atom(atoms, a, k, sum, out, at);
    }
    let e = table::cell::atom_number(atoms, a, ELEMENT);
    let s = table::cell::atom_number(atoms, a, SELECTED);
    buffer::put(out, at, common_letter(e, s))
}
