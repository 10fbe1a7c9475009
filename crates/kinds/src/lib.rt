// The kinds of bonds: what each adds to a bond sum, its symbol, a mark seen from the other end, and how two meet at a bridge.
#![tactic(auto)]

ghost use Rattle.std.specs.Prelude.{◌≡◌};
ghost use Rattle.kinds.specs.Kind.{is_mark, given, order, symbol_kind, bond_symbol, mark_of, turned, meet, clash};

// Stays: a kind is a number. It is a cell of tables and of reading states that C lends, where any number may stand and is taken as it is, and the
// definitions of specs/Kind.antt say what holds of each number.

// The kind of a double bond, as a cell of a table holds it.
pub const DOUBLE: i32 = 2;

// The mark `/`.
pub const UP: u8 = 4;

// The mark `\`.
pub const DOWN: u8 = 5;

// The largest kind, as a cell of a table holds it.
pub const MAX_KIND: i32 = 5;

// What a bond of a kind adds to a bond sum; 0 where there is no such kind.
#[tactic(auto, unfolding(crate::specs::Kind::order))]
pub fn order(kind: usize) -> usize
    ensures { result ≡ order kind }
{
    match kind {
        0 => 1,
        1..=3 => kind,
        4 | 5 => 1,
        _ => 0,
    }
}

// internal: the kind of a bond symbol, if a byte is one.
#[tactic(auto, unfolding(crate::specs::Kind::symbol_kind))]
pub fn symbol_kind(b: u8) -> Option<u8>
    ensures { result ≡ given (symbol_kind b) }
{
    match b {
        b'-' => Some(1),
        b'=' => Some(2),
        b'#' => Some(3),
        b'/' => Some(4),
        b'\\' => Some(5),
        _ => None,
    }
}

// internal: the symbol of a kind, if it has one.
#[tactic(auto, unfolding(crate::specs::Kind::bond_symbol))]
pub fn symbol(kind: usize) -> Option<u8>
    ensures { result ≡ given (bond_symbol kind) }
{
    match kind {
        1 => Some(b'-'),
        2 => Some(b'='),
        3 => Some(b'#'),
        4 => Some(b'/'),
        5 => Some(b'\\'),
        _ => None,
    }
}

// internal: whether a kind is a mark.
pub fn is_mark(kind: usize) -> bool
    ensures { result ≡ is_mark kind }
{
    (kind == 4) | (kind == 5)
}

// internal: the mark of a kind, if it is one.
#[tactic(auto, unfolding(crate::specs::Kind::mark_of))]
pub fn mark(kind: usize) -> Option<u8>
    ensures { result ≡ given (mark_of kind) }
{
    match kind {
        4 => Some(UP),
        5 => Some(DOWN),
        _ => None,
    }
}

// internal: a kind seen from the bond's other end: `/` and `\` are turned, all else stays.
#[tactic(auto, unfolding(crate::specs::Kind::turned))]
pub fn turned(kind: u8) -> u8
    ensures { result ≡ turned kind }
{
    match kind {
        UP => DOWN,
        DOWN => UP,
        _ => kind,
    }
}

// internal: the kind of a bridge as seen from its opening, j standing there and k at its closing.
pub fn meet(j: u8, k: u8) -> u8
    ensures { result ≡ meet j k }
{
    if k == 0 {
        return j;
    }
    let back = turned(k);
    back
}

// internal: whether the kinds at the ends of a bridge clash: j at its opening, k at its closing.
pub fn clash(j: u8, k: u8) -> bool
    ensures { result ≡ clash j k }
{
    let back = turned(k);
    (j != 0) & (k != 0) & (j != back)
}
