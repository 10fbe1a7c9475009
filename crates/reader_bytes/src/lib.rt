// One byte of a text: what it does to a reading whose arrays are lent.
#![tactic(auto)]

ghost use Rattle.std.specs.Prelude.{◌≡◌, ◌&&◌, not, List, [], ℕ, ◌-◌, ◌≤◌, ◌<◌, ℤ, eqb};
ghost use Rattle.ids.specs.Limits.{max_text, max_depth, bridges};
ghost use Rattle.table.specs.Limits.{max_atoms};
ghost use Rattle.reading_grammar.specs.Fold.{keeps};
ghost use Rattle.reading.specs.Memory.{kind_of, after_dot, blank, begun};
ghost use Rattle.reading.specs.Act.{first_byte_of, bridge_act, branch_act};
ghost use Rattle.reading_pieces.specs.State.{pending_of};
ghost use Rattle.reading_pieces.specs.Safe.{Bounded};
ghost use Rattle.reading_deeds.specs.Deed.{beginning, performed, Numbered};
ghost use Rattle.reader.specs.Added.{HasRoom};
ghost use Rattle.reader_bytes.specs.Parts.{in_mode, bonded_in, closing, Leaves, Performs, Leads};
ghost use Rattle.reader_bytes.specs.Step.{lent, steering_in, memory_in, reading_in, Ready, Steps};

use element::Letter;
use ids::{AtomId, BRIDGES, BondId, MAX_ATOMS, MAX_DEPTH};
use reader::answer::TextRefusal;
use reader::atom::{bond_of, room_for};
use reader::bridge::{close_at, put_keys};
use reading_deeds::{DOT, Deed, deed_of};
use reading_fields::spelled::{bare, row_of};
use reading_grammar::{Last, Mode, Move};
use reading_machine::next;
use reading_state::{Fields, KEYS};
use refusal::Refusal;
use table_edits::{put_atom, put_bond};

// The numbers that steer a reading; its arrays are lent beside it.
#[derive(Clone, Copy)]
pub struct Head {
    // Where the byte machine stands; before the first atom it waits for one.
    pub mode: Mode,
    // What stands before the next atom or bridge: 0 nothing, a symbol's kind and one, above those a dot.
    pub pending: u8,
    // The first digit after `%`.
    pub tens: u8,
    // The fields of the bracket so far.
    pub draft: Fields,
    // The hub, and how many atoms, bonds and open branches there are.
    pub hub: AtomId,
    pub atoms: usize,
    pub bonds: usize,
    pub depth: usize,
}

// No field is read.
fn no_fields() -> Fields
    ensures { result ≡ blank }
{
    Fields {
        element: 0,
        selected: 0,
        isotope: 0,
        hydrogens: 0,
        charge: 0,
        extension: 0,
        mark: 0,
    }
}

// The kind of a bond that is made now.
fn kind_of(pending: u8) -> u8
    ensures { result ≡ kind_of (pending_of pending) }
{
    if pending == 0 {
        return 0;
    }
    if DOT <= pending {
        return 0;
    }
    pending - 1
}

// Whether the next atom is bonded to the hub: it is not the first, and no dot stands before it.
fn is_bonded(atoms: usize, pending: u8) -> bool
    ensures { result ≡ (not (eqb atoms 0) && not (after_dot (pending_of pending))) }
{
    if atoms == 0 {
        return false;
    }
    pending < DOT
}

// ---- an atom

// The next atom begins, with its bond where it is bonded, and is the hub; outside: 1 if it stands outside brackets.
fn grown(h: Head, outside: u8, outsides: &mut [u8; MAX_ATOMS], bonds: &mut [i32]) -> Head
    requires has_room { HasRoom h.atoms h.bonds (bonded_in h) }
    requires hub_lt_max_atoms { h.hub.0 < max_atoms }
    ensures { (s o k p y : List ℕ) (a : List ℤ) → Leaves h (keeps (begun outside (memory_in h (lent s o k p outsides.old y a bonds.old)))) result (lent s o k p outsides.new y a bonds.new) }
{
    let n = h.atoms;
    outsides[n] = outside;
    let next = AtomId(n);
    let none = no_fields();
    let mut g = h;
    g.pending = 0;
    g.draft = none;
    g.hub = next;
    g.atoms = n + 1;
    if !is_bonded(n, h.pending) {
        return g;
    }
    let m = h.bonds;
    put_bond(bonds, BondId(m), bond_of(h.hub, next, kind_of(h.pending)));
    g.bonds = m + 1;
    g
}

// An atom's first byte where there is room: its row, and the atom.
fn first(
    h: Head,
    l: Letter,
    outsides: &mut [u8; MAX_ATOMS],
    atoms: &mut [i32],
    bonds: &mut [i32],
) -> Head
    requires has_room { HasRoom h.atoms h.bonds (bonded_in h) }
    requires hub_lt_max_atoms { h.hub.0 < max_atoms }
    ensures { (s o k p y : List ℕ) → Leaves h (keeps (first_byte_of l (memory_in h (lent s o k p outsides.old y atoms.old bonds.old)))) result (lent s o k p outsides.new y atoms.new bonds.new) }
{
    let n = AtomId(h.atoms);
    match l {
        Letter::Plain(e) => {
            put_atom(atoms, n, bare(e, 0));
            grown(h, 1, outsides, bonds)
        }
        Letter::Selected(e) => {
            put_atom(atoms, n, bare(e, 1));
            grown(h, 1, outsides, bonds)
        }
        Letter::Half => {
            put_atom(atoms, n, bare(0, 0));
            grown(h, 1, outsides, bonds)
        }
        Letter::Bracket => grown(h, 0, outsides, bonds),
        Letter::Nothing => h,
    }
}

// An atom's first byte.
fn begin(
    h: Head,
    l: Letter,
    at: usize,
    outsides: &mut [u8; MAX_ATOMS],
    atoms: &mut [i32],
    bonds: &mut [i32],
) -> Result<Head, TextRefusal>
    requires { h.hub.0 < max_atoms }
    ensures { (s o k p y : List ℕ) → Performs h (beginning l at (memory_in h (lent s o k p outsides.old y atoms.old bonds.old))) at (lent s o k p outsides.new y atoms.new bonds.new) result }
{
    let bonded = is_bonded(h.atoms, h.pending);
    room_for(AtomId(h.atoms), BondId(h.bonds), bonded, at)?;
    Ok(first(h, l, outsides, atoms, bonds))
}

// ---- a bridge

// A bridge whose number is complete: it opens at the hub, or closes with a bond.
fn bridge(
    h: Head,
    number: usize,
    at: usize,
    openers: &mut [u16; BRIDGES],
    symbols: &mut [u8; BRIDGES],
    offsets: &mut [u16; BRIDGES],
    keys: &mut [u16; KEYS],
    bonds: &mut [i32],
) -> Result<Head, TextRefusal>
    requires bounded { Bounded (steering_in h (lent [] openers.old [] offsets.old [] [] [] [])) }
    requires number_lt_bridges { number < bridges }
    requires at_le_max_text { at ≤ max_text }
    ensures { (s x : List ℕ) (a : List ℤ) → Performs h (bridge_act number at (memory_in h (lent s openers.old symbols.old offsets.old x keys.old a bonds.old))) at (lent s openers.new symbols.new offsets.new x keys.new a bonds.new) result }
{
    let k = kind_of(h.pending);
    let mut g = h;
    g.pending = 0;
    let u = openers[number] as usize;
    if u == 0 {
        openers[number] = (h.hub.0 + 1) as u16;
        symbols[number] = k;
        offsets[number] = at as u16;
        return Ok(g);
    }
    let m = h.bonds;
    let other = AtomId(u - 1);
    let bond = close_at(bonds, BondId(m), other, h.hub, symbols[number], k, at)?;
    put_bond(bonds, BondId(m), bond);
    put_keys(keys, BondId(m), other, h.hub, offsets[number], at as u16);
    openers[number] = 0;
    symbols[number] = 0;
    offsets[number] = 0;
    g.bonds = m + 1;
    Ok(g)
}

// ---- a branch

// `(`.
fn open(h: Head, at: usize, hubs: &mut [u16; MAX_DEPTH]) -> Result<Head, TextRefusal>
    requires { h.hub.0 < max_atoms }
    ensures { (o k p x y : List ℕ) (a b : List ℤ) → Performs h (branch_act at (memory_in h (lent hubs.old o k p x y a b))) at (lent hubs.new o k p x y a b) result }
{
    let d = h.depth;
    if MAX_DEPTH <= d {
        return Err(TextRefusal {
            refusal: Refusal::DeepBranch,
            at,
        });
    }
    hubs[d] = h.hub.0 as u16;
    let mut g = h;
    g.pending = 0;
    g.depth = d + 1;
    Ok(g)
}

// `)`.
fn close(h: Head, hubs: &mut [u16; MAX_DEPTH]) -> Head
    requires { h.depth ≤ max_depth }
    ensures { (o k p x y : List ℕ) (a b : List ℤ) → Leaves h (closing (memory_in h (lent hubs.old o k p x y a b))) result (lent hubs.new o k p x y a b) }
{
    let d = h.depth.saturating_sub(1);
    let hub = AtomId(hubs[d] as usize);
    hubs[d] = 0;
    let mut g = h;
    g.pending = 0;
    g.hub = hub;
    g.depth = d;
    g
}

// ---- a byte

// What a byte does to the numbers and the arrays.
// Stays: the arrays are lent one by one, since each callee takes others of them, and a struct would be taken apart at every call.
fn perform(
    h: Head,
    deed: Deed,
    at: usize,
    hubs: &mut [u16; MAX_DEPTH],
    openers: &mut [u16; BRIDGES],
    symbols: &mut [u8; BRIDGES],
    offsets: &mut [u16; BRIDGES],
    outsides: &mut [u8; MAX_ATOMS],
    keys: &mut [u16; KEYS],
    atoms: &mut [i32],
    bonds: &mut [i32],
) -> Result<Head, TextRefusal>
    requires bounded { Bounded (steering_in h (lent hubs.old openers.old symbols.old offsets.old outsides.old keys.old atoms.old bonds.old)) }
    requires numbered { Numbered deed }
    requires at_lt_max_text { at < max_text }
    ensures { Performs h (performed deed at (memory_in h (lent hubs.old openers.old symbols.old offsets.old outsides.old keys.old atoms.old bonds.old))) at (lent hubs.new openers.new symbols.new offsets.new outsides.new keys.new atoms.new bonds.new) result }
{
    let mut g = h;
    match deed {
        Deed::Keep => Ok(g),
        Deed::Atom(l) => begin(h, l, at, outsides, atoms, bonds),
        Deed::Second(e) => {
            put_atom(atoms, h.hub, bare(e, 0));
            Ok(g)
        }
        Deed::Bridge(r, by) => {
            bridge(
                h,
                r,
                at.saturating_sub(by),
                openers,
                symbols,
                offsets,
                keys,
                bonds,
            )
        }
        Deed::Joint(k) => {
            g.pending = k;
            Ok(g)
        }
        Deed::Open => open(h, at, hubs),
        Deed::Close => Ok(close(h, hubs)),
        Deed::Tens(d) => {
            g.tens = d;
            Ok(g)
        }
        Deed::Draft(f) => {
            g.draft = f;
            Ok(g)
        }
        Deed::Row => {
            let f = h.draft;
            put_atom(atoms, h.hub, row_of(f));
            Ok(g)
        }
    }
}

// Where the machine goes, asked with the number of open branches; nowhere where no text goes on.
fn onward(o: Move, depth: usize) -> Option<Mode>
    ensures { Leads o depth result }
{
    match o {
        Move::Stop => None,
        Move::To(m) => Some(m),
        Move::Up => Some(Mode::Inside),
        Move::Down => {
            if depth == 0 {
                return None;
            }
            Some(Mode::Seq(Last::Plain))
        }
    }
}

// internal: a byte at an offset.
pub fn step(
    h: Head,
    b: u8,
    at: usize,
    hubs: &mut [u16; MAX_DEPTH],
    openers: &mut [u16; BRIDGES],
    symbols: &mut [u8; BRIDGES],
    offsets: &mut [u16; BRIDGES],
    outsides: &mut [u8; MAX_ATOMS],
    keys: &mut [u16; KEYS],
    atoms: &mut [i32],
    bonds: &mut [i32],
) -> Result<Head, TextRefusal>
    requires ready { Ready h (lent hubs.old openers.old symbols.old offsets.old outsides.old keys.old atoms.old bonds.old) }
    requires at_lt_max_text { at < max_text }
    ensures { Steps at b (reading_in h (lent hubs.old openers.old symbols.old offsets.old outsides.old keys.old atoms.old bonds.old)) (lent hubs.new openers.new symbols.new offsets.new outsides.new keys.new atoms.new bonds.new) result }
{
    let m = h.mode;
    let Some(mode) = onward(next(m, b), h.depth) else {
        return Err(TextRefusal {
            refusal: Refusal::Grammar,
            at,
        });
    };
    let draft = h.draft;
    let deed = deed_of(m, b, h.tens, draft);
    perform(
        Head { mode, ..h },
        deed,
        at,
        hubs,
        openers,
        symbols,
        offsets,
        outsides,
        keys,
        atoms,
        bonds,
    )
}
