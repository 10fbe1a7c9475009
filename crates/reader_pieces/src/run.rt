// The bytes of a piece.
ghost use Rattle.std.specs.Prelude.{◌≡◌, false, ◌≤◌};
ghost use Rattle.ids.specs.Limits.{max_text};
ghost use Rattle.reading_pieces.specs.Broken.{broken_of};
ghost use Rattle.reading_pieces.specs.State.{pending_of, pending_number, extension_in};
ghost use Rattle.reader_bytes.specs.Step.{lent, reading_in, Ready};
ghost use Rattle.reader_pieces.specs.Answer.{fed_is};
ghost use Rattle.reader_pieces.specs.Run.{mode_in, head_of, Reads, fed_on};

use crate::Fed;
use crate::answer::{blank, refuse, reply};
use ids::{AtomId, BRIDGES, MAX_ATOMS, MAX_DEPTH, MAX_TEXT};
use reader::answer::TextRefusal;
use reader_bytes::{Head, step};
use reader_checks::limit::cap_all;
use reader_checks::mode::{mode_letter, mode_number, mode_of};
use reading_deeds::DOT;
use reading_grammar::Mode;
use reading_pieces::Paused;
use reading_state::{Fields, KEYS};
use refusal::Refusal;

// What stands before the next atom or bridge, by its number; one above a dot's counts as a dot.
fn pending_number(k: u8) -> u8
    ensures { result ≡ pending_number (pending_of k) }
{
    if DOT < k {
        return DOT;
    }
    k
}

// In a bracket there is no extension before its `:`.
fn extension_in(mode: u8, extension: u16) -> u16
    ensures { result ≡ extension_in mode extension }
{
    if (10 <= mode) & (mode <= 18) {
        return 0;
    }
    extension
}

// The mode of a state that goes on; before the first atom it waits for one.
fn mode_in(p: Paused) -> Mode
    ensures { result ≡ mode_in p }
{
    if p.atoms == 0 {
        return Mode::AtomNext;
    }
    mode_of(p.mode, p.letter, p.isotope, p.extension)
}

// The numbers of a state that goes on.
fn head_of(p: Paused) -> Head
    ensures { result ≡ head_of p }
{
    let draft = Fields {
        element: p.element,
        selected: p.selected,
        isotope: p.isotope,
        hydrogens: p.hydrogens,
        charge: p.charge,
        extension: extension_in(p.mode, p.extension),
        mark: p.mark,
    };
    let mode = mode_in(p);
    Head {
        mode,
        pending: p.pending,
        tens: p.tens,
        draft,
        hub: AtomId(p.hub as usize),
        atoms: p.atoms as usize,
        bonds: p.bonds as usize,
        depth: p.depth as usize,
    }
}

// The bytes of a piece, so many being read before it.
fn read_piece(
    from: usize,
    piece: &[u8],
    begun: Head,
    hubs: &mut [u16; MAX_DEPTH],
    openers: &mut [u16; BRIDGES],
    symbols: &mut [u8; BRIDGES],
    offsets: &mut [u16; BRIDGES],
    outsides: &mut [u8; MAX_ATOMS],
    keys: &mut [u16; KEYS],
    atoms: &mut [i32],
    bonds: &mut [i32],
) -> Result<Head, TextRefusal>
    requires ready { Ready begun (lent hubs.old openers.old symbols.old offsets.old outsides.old keys.old atoms.old bonds.old) }
    requires from_le_max_text { from ≤ max_text }
    ensures { Reads from piece.now (reading_in begun (lent hubs.old openers.old symbols.old offsets.old outsides.old keys.old atoms.old bonds.old)) (lent hubs.new openers.new symbols.new offsets.new outsides.new keys.new atoms.new bonds.new) result }
{
    let mut h = begun;
    for i in 0..piece.len() {
        if MAX_TEXT - from <= i {
            return Err(TextRefusal {
                refusal: Refusal::LongText,
                at: MAX_TEXT,
            });
        }
        h = step(
            h,
            piece[i],
            from + i,
            hubs,
            openers,
            symbols,
            offsets,
            outsides,
            keys,
            atoms,
            bonds,
        )?;
    }
    Ok(h)
}

// internal: a piece, from a state that goes on.
pub fn run(p: Paused, piece: &[u8], atoms: &mut [i32], bonds: &mut [i32]) -> Fed
    requires { (p.told ≡ 0) × (broken_of p atoms.old bonds.old ≡ false) }
    ensures { fed_is result atoms.new bonds.new ≡ fed_on p piece.now atoms.old bonds.old }
{
    let mut hubs = p.hubs;
    let mut openers = p.openers;
    let mut symbols = p.symbols;
    let mut offsets = p.offsets;
    cap_all(&mut offsets);
    let mut outsides = p.outsides;
    let mut keys = p.keys;
    cap_all(&mut keys);
    let from = p.read as usize;
    match read_piece(
        from,
        piece,
        head_of(p),
        &mut hubs,
        &mut openers,
        &mut symbols,
        &mut offsets,
        &mut outsides,
        &mut keys,
        atoms,
        bonds,
    ) {
        Ok(h) => {
            let m = h.mode;
            let f = h.draft;
            let read = from + piece.len();
            let state = Paused {
                told: 0,
                place: 0,
                read: read as u16,
                mode: mode_number(m),
                letter: mode_letter(m),
                pending: pending_number(h.pending),
                tens: h.tens,
                element: f.element,
                selected: f.selected,
                isotope: f.isotope,
                hydrogens: f.hydrogens,
                charge: f.charge,
                extension: f.extension,
                mark: f.mark,
                hub: h.hub.0 as u16,
                atoms: h.atoms as u16,
                bonds: h.bonds as u16,
                depth: h.depth as u16,
                hubs,
                openers,
                symbols,
                offsets,
                outsides,
                keys,
            };
            reply(0, 0, state)
        }
        Err(e) => {
            let c = refusal::code(e.refusal);
            refuse(c, e.at, blank(c, e.at as u16), atoms, bonds)
        }
    }
}
