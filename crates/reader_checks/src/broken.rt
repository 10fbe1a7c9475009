// Which states are refused as 25.
ghost use Rattle.std.specs.Prelude.{◌≡◌, not, ◌≤◌};
ghost use Rattle.ids.specs.Limits.{max_depth, bridges};
ghost use Rattle.reading_pieces.specs.Broken.{broken_of};
ghost use Rattle.reader_checks.specs.Broken.{hub_is_astray, branch_is_astray, bridge_is_astray, is_astray, is_above, is_half_read_above};

use ids::{BRIDGES, MAX_DEPTH, MAX_TEXT};
use reading_pieces::Paused;
use reading_state::Fields;
use table::{Tables, cell};

// The hub is not an atom.
fn hub_astray(n: u16, hub: u16) -> bool
    ensures { result ≡ hub_is_astray n hub }
{
    if n == 0 {
        return hub != 0;
    }
    n <= hub
}

// The hub of an open branch is not an atom.
fn branch_astray(n: u16, depth: usize, hubs: &[u16; MAX_DEPTH]) -> bool
    requires { depth ≤ max_depth }
    ensures { result ≡ branch_is_astray n depth hubs.now }
{
    for i in 0..depth {
        if n <= hubs[i] {
            return true;
        }
    }
    false
}

// An open bridge was not opened at an atom.
fn bridge_astray(n: u16, openers: &[u16; BRIDGES]) -> bool
    ensures { result ≡ bridge_is_astray n openers.now }
{
    let mut bad = false;
    for r in 0..BRIDGES {
        bad = bad | (n < openers[r]);
    }
    bad
}

// The hub, the branches or the bridges.
fn astray(n: u16, hub: u16, depth: u16, hubs: &[u16; MAX_DEPTH], openers: &[u16; BRIDGES]) -> bool
    ensures { result ≡ is_astray n hub depth hubs.now openers.now }
{
    if hub_astray(n, hub) {
        return true;
    }
    let d = depth as usize;
    if MAX_DEPTH < d {
        return true;
    }
    if branch_astray(n, d, hubs) {
        return true;
    }
    bridge_astray(n, openers)
}

// A field of the bracket is above its largest value.
fn field_above(f: Fields) -> bool
    ensures { result ≡ is_above f }
{
    (999 < f.isotope)
        | (118 < f.element)
        | (1 < f.selected)
        | (2 < f.mark)
        | (9 < f.hydrogens)
        | !cell::within(f.charge, -9, 9)
        | (9999 < f.extension)
}

// A half-read field is above its largest value.
fn half_read_above(mode: u8, tens: u8, f: Fields) -> bool
    ensures { result ≡ is_half_read_above mode tens f }
{
    if 10 <= mode {
        return field_above(f);
    }
    (mode == 7) & (9 < tens)
}

// internal: the state is refused as 25.
pub fn broken(p: Paused, atoms: &[i32], bonds: &[i32]) -> bool
    ensures { result ≡ broken_of p atoms.now bonds.now }
{
    if !table_validity::valid(Tables {
        atoms,
        bonds,
        n: p.atoms as usize,
        m: p.bonds as usize,
    }) {
        return true;
    }
    if MAX_TEXT < p.read as usize {
        return true;
    }
    let f = Fields {
        element: p.element,
        selected: p.selected,
        isotope: p.isotope,
        hydrogens: p.hydrogens,
        charge: p.charge,
        extension: p.extension,
        mark: p.mark,
    };
    if half_read_above(p.mode, p.tens, f) {
        return true;
    }
    if p.told != 0 {
        return false;
    }
    let hubs = p.hubs;
    let openers = p.openers;
    astray(p.atoms, p.hub, p.depth, &hubs, &openers)
}
