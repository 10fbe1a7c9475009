// The reading state by value: the hub, the open branches and the open bridges, with the counts.
#![tactic(auto)]

ghost use Rattle.std.specs.Prelude.{◌≡◌, List, ℕ, ◌+◌, ◌-◌, ◌≤◌, ◌<◌, get_or, set, replicate, eqb};
ghost use Rattle.loops.specs.Loop.{pick};
ghost use Rattle.table.specs.Limits.{max_atoms};
ghost use Rattle.ids.specs.Limits.{max_depth, bridges};
ghost use Rattle.reading_state.specs.State.{key_count, steering, started, with_next_atom, opened, closed, opening_of, keys_then, joined};

use ids::{AtomId, BRIDGES, MAX_BONDS, MAX_DEPTH};

// Two numbers for each bond.
pub const KEYS: usize = 2 * MAX_BONDS;

// The fields of a bracket.
// Stays: selected and mark are numbers, as they are in the cells of an atom and of a paused reading, which C sees.
#[derive(Clone, Copy)]
pub struct Fields {
    pub element: u16,
    pub selected: u16,
    pub isotope: u16,
    pub hydrogens: u16,
    pub charge: i32,
    pub extension: u16,
    pub mark: u16,
}

// Where an open bridge began: its atom, and the kind of its symbol (0: none).
#[derive(Clone, Copy)]
pub struct Opening {
    pub atom: AtomId,
    pub symbol: u8,
}

// The numbers stand between the arrays, so that the compiler copies each array by itself.
#[derive(Clone, Copy)]
pub struct State {
    // The hub of each open branch, and how many are open.
    pub hubs: [u16; MAX_DEPTH],
    pub depth: usize,
    // Of each bridge number: the opening atom and one, or 0 where it is free.
    // Stays: numbers in place of options, since a paused reading holds these cells as they are, and its C struct has no options.
    pub openers: [u16; BRIDGES],
    // How many bonds there are so far.
    pub bonds: usize,
    // Of each open bridge: the kind of its opening's symbol.
    pub symbols: [u8; BRIDGES],
    // The atom to which the next one is joined, and how many atoms there are so far.
    pub hub: AtomId,
    pub atoms: usize,
}

impl State {
    // internal: nothing is read yet.
    #[tactic(auto, unfolding(crate::specs::State::started))]
    pub fn new() -> Self
        ensures { steering result (replicate bridges 0) (replicate max_atoms 0) (replicate key_count 0) ≡ started }
    {
        Self {
            hubs: [0u16; MAX_DEPTH],
            depth: 0,
            openers: [0u16; BRIDGES],
            bonds: 0,
            symbols: [0u8; BRIDGES],
            hub: AtomId(0),
            atoms: 0,
        }
    }

    // internal: the next atom is joined to the hub, by a bond where it is bonded, and is the hub.
    pub fn extend(mut self, bonded: bool) -> Self
        requires atoms_bound { self.atoms < 65536 }
        requires bonds_bound { self.bonds < 65536 }
        ensures { (p x y : List ℕ) (o : ℕ) → steering result p (set x self.atoms o) y ≡ with_next_atom (steering self p x y) o (pick bonded (self.bonds + 1) self.bonds) }
    {
        let n = self.atoms;
        let next = AtomId(n);
        self.hub = next;
        self.atoms = n + 1;
        if bonded {
            self.bonds = self.bonds + 1;
        }
        self
    }

    // internal: a branch opens, and its hub is remembered.
    #[tactic(auto, unfolding(crate::specs::State::opened))]
    pub fn open(mut self) -> Self
        requires depth_lt_max_depth { self.depth < max_depth }
        requires hub_bound { self.hub.0 < 65536 }
        ensures { (p x y : List ℕ) → steering result p x y ≡ opened (steering self p x y) }
    {
        let d = self.depth;
        let h = self.hub.0;
        let mut hubs = self.hubs;
        hubs[d] = h as u16;
        self.hubs = hubs;
        self.depth = d + 1;
        self
    }

    // internal: the innermost branch closes, and the hub is again what it was.
    #[tactic(auto, unfolding(crate::specs::State::closed))]
    pub fn close(mut self) -> Self
        requires depth_nonzero { 0 < self.depth }
        requires depth_le_max_depth { self.depth ≤ max_depth }
        requires depth_bound { get_or self.hubs (self.depth - 1) 0 < 65536 }
        ensures { (p x y : List ℕ) → steering result p x y ≡ closed (steering self p x y) }
    {
        let d = self.depth - 1;
        let mut hubs = self.hubs;
        let h = hubs[d];
        let hub = AtomId(h as usize);
        self.hub = hub;
        hubs[d] = 0;
        self.hubs = hubs;
        self.depth = d;
        self
    }

    // internal: where a bridge number was opened; none where it is free.
    #[tactic(auto, unfolding(crate::specs::State::opening_of))]
    pub fn opening(self, number: usize) -> Option<Opening>
        requires number_lt_bridges { number < bridges }
        requires number_bound { get_or self.openers number 0 < 65536 }
        ensures { (p x y : List ℕ) → result ≡ opening_of (steering self p x y) number }
    {
        let openers = self.openers;
        let symbols = self.symbols;
        let u = openers[number] as usize;
        if u == 0 {
            return None;
        }
        Some(Opening {
            atom: AtomId(u - 1),
            symbol: symbols[number],
        })
    }

    // internal: a bridge at the hub, whose number opens with its symbol if it was free, and else is free again, with a bond more.
    #[tactic(auto, unfolding(crate::specs::State::joined))]
    pub fn join(mut self, number: usize, symbol: u8) -> Self
        requires number_lt_bridges { number < bridges }
        requires hub_bound { self.hub.0 < 65535 }
        requires bonds_bound { self.bonds < 65536 }
        ensures { (p x y : List ℕ) (i : ℕ) → steering result (set p number (pick (eqb (get_or self.openers number 0) 0) i 0)) x (keys_then (steering self p x y) number i) ≡ joined (steering self p x y) number symbol i }
    {
        let h = self.hub.0;
        let mut openers = self.openers;
        let mut symbols = self.symbols;
        if openers[number] == 0 {
            openers[number] = (h + 1) as u16;
            symbols[number] = symbol;
            self.openers = openers;
            self.symbols = symbols;
            return self;
        }
        openers[number] = 0;
        symbols[number] = 0;
        self.openers = openers;
        self.symbols = symbols;
        self.bonds = self.bonds + 1;
        self
    }
}
