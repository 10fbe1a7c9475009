// A guess of how the atoms and bonds of a molecule go to those of another. It is not trusted: nothing is claimed of it, and `redrawing_check` tells whether it shows a redrawing. Every function here is internal.
#![tactic(auto)]

ghost use Rattle.std.specs.Prelude.{◌≡◌, true, ◌<◌, ◌≤◌, IfSome};
ghost use Rattle.std.specs.Iterator.{at_most};
ghost use Rattle.table.specs.Limits.{max_atoms, max_bonds};
ghost use Rattle.table.specs.Valid.{Valid};
ghost use Rattle.same_model.specs.Same.{molecule};
ghost use Rattle.same_model.specs.Redrawing.{Redrawing};

use ids::BondId;
use table::{MAX_ATOMS, MAX_BONDS, Tables, cell, row};

// The image of an atom or a bond that has none, in a guess.
// Stays: `is_redrawing` reads lists of numbers, as its clauses by `image` say.
const NONE: u16 = 65535;

// The half-bonds of a graph: two for each bond, and the first, which is not used.
const HALVES: usize = 2201;

// The number of an atom or a half-bond, made narrower.
fn narrow(x: usize) -> u16 {
    u16::try_from(x).unwrap_or(NONE)
}

// The bonds of a molecule, and the keys of its atoms.
#[derive(Clone, Copy)]
pub struct Drawing<'a> {
    pub bonds: &'a [i32],
    pub keys: &'a [u64],
}

// A bond as it is seen from one of its atoms: the atom at the other end, and the next half-bond of the same atom, 0 after the last.
#[derive(Clone, Copy)]
struct Half {
    to: u16,
    next: u16,
}

// The bonds of a molecule of n atoms that have keys: half-bonds 2 * k + 1 and 2 * k + 2 for the bond k, and the first half-bond of each atom, 0 if it has none.
#[derive(Drop)]
struct Graph<'a> {
    n: usize,
    keys: &'a [u64],
    firsts: [u16; MAX_ATOMS],
    halves: [Half; HALVES],
}

impl<'a> Graph<'a> {
    // The graph of n atoms without bonds.
    fn new(keys: &'a [u64], n: usize) -> Graph<'a> {
        Graph {
            n,
            keys,
            firsts: [0; MAX_ATOMS],
            halves: [Half { to: 0, next: 0 }; HALVES],
        }
    }

    // Adds m bonds.
    fn link(&mut self, bonds: &[i32], m: usize)
        requires { m ≤ max_bonds }
    {
        for k in 0..m {
            let bond = row::get_bond(bonds, BondId(k));
            let first = cell::number(bond.first);
            let second = cell::number(bond.second);
            self.hook(first, second, 2 * k + 1);
            self.hook(second, first, 2 * k + 2);
        }
    }

    // Adds a half-bond from an atom to another.
    fn hook(&mut self, from: usize, to: usize, h: usize) {
        if from < MAX_ATOMS && h < HALVES {
            self.halves[h] = Half {
                to: narrow(to),
                next: self.firsts[from],
            };
            self.firsts[from] = narrow(h);
        }
    }

    // The first half-bond of an atom.
    fn first(&self, a: u16) -> Option<u16> {
        let h = *self.firsts.get(usize::from(a))?;
        if h == 0 { None } else { Some(h) }
    }

    // The half-bond after one.
    fn after(&self, h: u16) -> Option<u16> {
        let next = self.halves.get(usize::from(h))?.next;
        if next == 0 { None } else { Some(next) }
    }

    // The atom that a half-bond leads to.
    fn end(&self, h: u16) -> Option<u16> {
        Some(self.halves.get(usize::from(h))?.to)
    }

    // The neighbours of an atom.
    fn neighbours(&self, a: u16) -> Neighbours<'_> {
        Neighbours {
            halves: &self.halves,
            half: self.firsts.get(usize::from(a)).copied().unwrap_or(0),
            left: MAX_ATOMS,
        }
    }

    // The bond between the atoms a and b, seen from either: both lists are followed, as far as the shorter goes.
    fn bond_between(&self, a: u16, b: u16) -> Option<u16> {
        for (x, y) in self.neighbours(a).zip(self.neighbours(b)) {
            if x.atom == b {
                return Some(x.bond);
            }
            if y.atom == a {
                return Some(y.bond);
            }
        }
        None
    }

    // Whether the atom a has the key of an atom of another graph.
    fn same_key(&self, a: u16, other: &Graph, b: u16) -> bool {
        match (
            self.keys.get(usize::from(a)),
            other.keys.get(usize::from(b)),
        ) {
            (Some(x), Some(y)) => *x == *y,
            _ => false,
        }
    }
}

// A neighbour of an atom, and the bond that leads to it.
#[derive(Clone, Copy)]
struct Neighbour {
    atom: u16,
    bond: u16,
}

// The neighbours that are left of an atom, from a half-bond on, and how many they are at most.
#[derive(Drop)]
struct Neighbours<'a> {
    halves: &'a [Half],
    half: u16,
    left: usize,
}

impl<'a> Iterator for Neighbours<'a> {
    type Item = Neighbour;

    ghost remaining = { λ s. at_most s.left };

    fn next(&mut self) -> Option<Neighbour> {
        if self.half == 0 || self.left == 0 {
            return None;
        }
        let Half { to, next } = *self.halves.get(usize::from(self.half))?;
        let bond = (self.half - 1) / 2;
        self.half = next;
        self.left -= 1;
        Some(Neighbour { atom: to, bond })
    }
}

// A step of a plan: an atom, and the one before it that it is joined to, none for the first of a part.
#[derive(Clone, Copy)]
struct Step {
    atom: u16,
    from: Option<u16>,
}

// The atoms of a graph in the order in which they are placed, part by part, and which atoms are among them.
#[derive(Drop)]
struct Plan {
    steps: [Step; MAX_ATOMS],
    len: usize,
    queued: [bool; MAX_ATOMS],
}

impl Plan {
    // The plan of no atoms.
    fn new() -> Plan {
        let step = Step {
            atom: 0,
            from: None,
        };
        Plan {
            steps: [step; MAX_ATOMS],
            len: 0,
            queued: [false; MAX_ATOMS],
        }
    }

    // Adds all atoms of a graph.
    fn queue_all(&mut self, graph: &Graph) {
        for a in 0..graph.n {
            let begun = self.len;
            self.queue(narrow(a), None);
            self.queue_part(graph, begun);
        }
    }

    // One atom more, if it is not among them.
    fn queue(&mut self, atom: u16, from: Option<u16>) {
        let a = usize::from(atom);
        if self.len < MAX_ATOMS && a < MAX_ATOMS && !self.queued[a] {
            self.queued[a] = true;
            self.steps[self.len] = Step { atom, from };
            self.len += 1;
        }
    }

    // The rest of a part, breadth first, from the place of its first atom on.
    fn queue_part(&mut self, graph: &Graph, begun: usize) {
        for i in begun..MAX_ATOMS {
            if self.len <= i {
                return;
            }
            self.queue_neighbours(graph, i);
        }
    }

    // The atoms that the atom of a step is joined to.
    fn queue_neighbours(&mut self, graph: &Graph, i: usize) {
        if let Some(step) = self.step(i) {
            for next in graph.neighbours(step.atom) {
                self.queue(next.atom, Some(step.atom));
            }
        }
    }

    // A step, if there are so many.
    fn step(&self, i: usize) -> Option<Step>
        ensures { IfSome result (λ _. i < max_atoms) }
    {
        self.steps.get(i).copied()
    }
}

// The image of an atom, if it has one.
fn image(images: &[Option<u16>], a: u16) -> Option<u16> {
    *images.get(usize::from(a))?
}

// Whether an atom goes to another there, and back.
fn goes(there: &[Option<u16>], back: &[Option<u16>], a: u16) -> Option<u16> {
    let b = image(there, a)?;
    if image(back, b)? == a { Some(b) } else { None }
}

// Whether each neighbour of a that has an image goes to a neighbour of b.
fn keeps(
    graph1: &Graph,
    a: u16,
    graph2: &Graph,
    b: u16,
    there: &[Option<u16>],
    back: &[Option<u16>],
) -> bool {
    for c in graph1.neighbours(a) {
        if let Some(d) = goes(there, back, c.atom) {
            if graph2.bond_between(b, d).is_none() {
                return false;
            }
        }
    }
    true
}

// What an atom may go to: for the first of a part an atom, for another what a half-bond of its neighbour's image leads to.
#[derive(Clone, Copy)]
enum Candidate {
    Atom(u16),
    Half(u16),
}

impl Candidate {
    // The candidate after this one.
    fn after(self, graph: &Graph) -> Option<Candidate> {
        match self {
            Candidate::Atom(b) => {
                let next = b.checked_add(1)?;
                if usize::from(next) < graph.n {
                    Some(Candidate::Atom(next))
                } else {
                    None
                }
            }
            Candidate::Half(h) => Some(Candidate::Half(graph.after(h)?)),
        }
    }
}

// What is left of a budget after a step at an atom with d bonds: it costs 1, and more where there are many.
fn spend(left: usize, d: usize) -> usize
    requires { 0 < left }
    ensures { result < left }
{
    if d <= 4 {
        left - 1
    } else {
        left.saturating_sub(d / 2)
    }
}

// A search for images of the atoms of a graph in another, in the order of a plan: the next candidate for each of its steps, and the images there and back. An atom has an image if it goes there and back.
#[derive(Drop)]
struct Search<'a> {
    graph1: &'a Graph<'a>,
    graph2: &'a Graph<'a>,
    plan: &'a Plan,
    cursors: [Option<Candidate>; MAX_ATOMS],
    there: [Option<u16>; MAX_ATOMS],
    back: [Option<u16>; MAX_ATOMS],
}

impl<'a> Search<'a> {
    // The first candidate at a step.
    fn first_candidate(&self, step: Step) -> Option<Candidate> {
        match step.from {
            None => Some(Candidate::Atom(0)),
            Some(from) => Some(Candidate::Half(self.graph2.first(image(&self.there, from)?)?)),
        }
    }

    // Begins with the candidates of a step.
    fn begin(&mut self, i: usize) {
        if let Some(step) = self.plan.step(i) {
            self.cursors[i] = self.first_candidate(step);
        }
    }

    // Whether an atom is free and has the key of a.
    fn is_free(&self, a: u16, b: u16) -> bool {
        image(&self.back, b).is_none() && self.graph1.same_key(a, self.graph2, b)
    }

    // The first atom from one on that is free and has the key of a.
    fn free_atom(&self, a: u16, from: u16) -> Option<u16> {
        for b in usize::from(from)..self.graph2.n {
            if self.is_free(a, narrow(b)) {
                return Some(narrow(b));
            }
        }
        None
    }

    // The first half-bond of an atom from one on that leads to an atom that is free and has the key of a, with that atom.
    fn free_half(&self, a: u16, from: u16) -> Option<(u16, u16)> {
        let mut h = from;
        for _ in 0..MAX_ATOMS {
            let Half { to, next } = *self.graph2.halves.get(usize::from(h))?;
            if self.is_free(a, to) {
                return Some((h, to));
            }
            if next == 0 {
                return None;
            }
            h = next;
        }
        None
    }

    // The first candidate from one on whose atom is free and has the key of a, with that atom.
    fn free_candidate(&self, a: u16, cursor: Option<Candidate>) -> Option<(Candidate, u16)> {
        match cursor? {
            Candidate::Atom(from) => {
                let b = self.free_atom(a, from)?;
                Some((Candidate::Atom(b), b))
            }
            Candidate::Half(from) => {
                let (h, b) = self.free_half(a, from)?;
                Some((Candidate::Half(h), b))
            }
        }
    }

    // Whether the atom a may go to b beside those that are placed.
    fn fits(&self, a: u16, b: u16) -> bool {
        keeps(self.graph1, a, self.graph2, b, &self.there, &self.back)
            && keeps(self.graph2, b, self.graph1, a, &self.back, &self.there)
    }

    // Places the atom a at b.
    fn place(&mut self, a: u16, b: u16) {
        if usize::from(a) < MAX_ATOMS && usize::from(b) < MAX_ATOMS {
            self.there[usize::from(a)] = Some(b);
            self.back[usize::from(b)] = Some(a);
        }
    }

    // Takes back the atom of a step.
    fn take_back(&mut self, i: usize) {
        if let Some(step) = self.plan.step(i) {
            if let Some(b) = image(&self.there, step.atom) {
                if usize::from(b) < MAX_ATOMS {
                    self.back[usize::from(b)] = None;
                }
            }
        }
    }

    // Tries the next candidate at a step; answers the step to go on at, none where the first atom of a part has no candidate left.
    fn advance(&mut self, i: usize) -> Option<usize> {
        let step = self.plan.step(i)?;
        let Some((c, b)) = self.free_candidate(step.atom, self.cursors[i]) else {
            step.from?;
            let before = i.checked_sub(1)?;
            self.take_back(before);
            return Some(before);
        };
        self.cursors[i] = c.after(self.graph2);
        if !self.fits(step.atom, b) {
            return Some(i);
        }
        self.place(step.atom, b);
        self.begin(i + 1);
        Some(i + 1)
    }

    // What a step costs.
    fn cost(&self, i: usize) -> usize {
        match self.plan.step(i) {
            Some(step) => self.graph1.neighbours(step.atom).count(),
            None => 0,
        }
    }

    // Whether all atoms were placed within a budget.
    fn run(&mut self, budget: usize) -> bool {
        self.begin(0);
        let mut i = 0;
        let mut left = budget;
        // Stays: the budget falls by what a step costs, which is not always 1, so there is no index to go over.
        while 0 < left {
            if self.graph1.n <= i {
                return true;
            }
            left = spend(left, self.cost(i));
            match self.advance(i) {
                Some(next) => i = next,
                None => return false,
            }
        }
        i == self.graph1.n
    }

    // The images of the atoms, as far as there is room.
    fn fill_atoms(&self, t: &mut [u16]) {
        for (cell, image) in t.iter_mut().zip(self.there.iter()).take(self.graph1.n) {
            *cell = image.unwrap_or(NONE);
        }
    }

    // The image of a bond.
    fn bond_image(&self, k: usize) -> Option<u16>
        requires { k < max_bonds }
    {
        let first = self.graph1.end(narrow(2 * k + 2))?;
        let second = self.graph1.end(narrow(2 * k + 1))?;
        let a = image(&self.there, first)?;
        let b = image(&self.there, second)?;
        self.graph2.bond_between(a, b)
    }

    // The images of m bonds, as far as there is room.
    fn fill_bonds(&self, m: usize, u: &mut [u16])
        requires { m ≤ max_bonds }
    {
        for k in 0..m {
            if k < u.len() {
                u[k] = self.bond_image(k).unwrap_or(NONE);
            }
        }
    }
}

// internal: guesses the images t of the atoms and u of the bonds of a molecule in another with as many of both, within a budget of steps; atoms go to atoms with equal keys. Answers whether there is a guess.
#[inline(never)]
pub fn guess(
    drawing1: Drawing,
    drawing2: Drawing,
    n: usize,
    m: usize,
    budget: usize,
    t: &mut [u16],
    u: &mut [u16],
) -> bool
    requires { (n ≤ max_atoms) × (m ≤ max_bonds) }
{
    let mut graph1 = Graph::new(drawing1.keys, n);
    let mut graph2 = Graph::new(drawing2.keys, n);
    let mut plan = Plan::new();
    graph1.link(drawing1.bonds, m);
    graph2.link(drawing2.bonds, m);
    plan.queue_all(&graph1);
    let mut search = Search {
        graph1: &graph1,
        graph2: &graph2,
        plan: &plan,
        cursors: [None; MAX_ATOMS],
        there: [None; MAX_ATOMS],
        back: [None; MAX_ATOMS],
    };
    if !search.run(budget) {
        return false;
    }
    search.fill_atoms(t);
    search.fill_bonds(m, u);
    true
}

// internal: true only if the second molecule is a redrawing of the first: a guess within the budget shows it. False says nothing.
pub fn shows_redrawing(
    tables1: Tables,
    keys1: &[u64],
    tables2: Tables,
    keys2: &[u64],
    budget: usize,
) -> bool
    requires valid { Valid tables1.atoms.now tables1.bonds.now tables1.n tables1.m }
    requires valid_2 { Valid tables2.atoms.now tables2.bonds.now tables2.n tables2.m }
    ensures { result ≡ true → Redrawing (molecule tables1.entry.atoms.now tables1.entry.bonds.now tables1.entry.n tables1.entry.m) (molecule tables2.entry.atoms.now tables2.entry.bonds.now tables2.entry.n tables2.entry.m) }
{
    let Tables {
        bonds: bonds1,
        n,
        m,
        ..
    } = tables1;
    let Tables { bonds: bonds2, .. } = tables2;
    if n != tables2.n || m != tables2.m {
        return false;
    }
    let mut t = [0u16; MAX_ATOMS];
    let mut u = [0u16; MAX_BONDS];
    let drawing1 = Drawing {
        bonds: bonds1,
        keys: keys1,
    };
    let drawing2 = Drawing {
        bonds: bonds2,
        keys: keys2,
    };
    if !guess(drawing1, drawing2, n, m, budget, &mut t, &mut u) {
        return false;
    }
    redrawing_check::is_redrawing(tables1, tables2, &t, &u)
}
