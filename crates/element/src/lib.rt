// Element symbols: found from bytes, and spelled. The rows `A` to `Z` hold the atomic numbers of the symbols of two letters by the place of the second, `a` to `z`; each says its symbols.
#![tactic(auto)]

ghost use Rattle.std.specs.Prelude.{◌≡◌, [], ◌∷◌, ◌+◌, ◌<◌};
ghost use Rattle.element.specs.Lookup.{number_of, selected_of, single_of, nonzero, symbol_alone, symbol_of, letter_of, bare, bytes_of, selected_bytes, spelling};

// Stays: a row for each letter with its symbols beside it; one table would have five rows of zeros, and an index to compute from the letter.
// Ac Ag Al Am Ar As At Au.
const A: [u8; 26] = *b"\0\0\x59\0\0\0\x2f\0\0\0\0\x0d\x5f\0\0\0\0\x12\x21\x55\x4f\0\0\0\0\0";

// Ba Be Bh Bi Bk Br.
const B: [u8; 26] = *b"\x38\0\0\0\x04\0\0\x6b\x53\0\x61\0\0\0\0\0\0\x23\0\0\0\0\0\0\0\0";

// Ca Cd Ce Cf Cl Cm Cn Co Cr Cs Cu.
const C: [u8; 26] = *b"\x14\0\0\x30\x3a\x62\0\0\0\0\0\x11\x60\x70\x1b\0\0\x18\x37\0\x1d\0\0\0\0\0";

// Db Ds Dy.
const D: [u8; 26] = *b"\0\x69\0\0\0\0\0\0\0\0\0\0\0\0\0\0\0\0\x6e\0\0\0\0\0\x42\0";

// Er Es Eu.
const E: [u8; 26] = *b"\0\0\0\0\0\0\0\0\0\0\0\0\0\0\0\0\0\x44\x63\0\x3f\0\0\0\0\0";

// Fe Fl Fm Fr.
const F: [u8; 26] = *b"\0\0\0\0\x1a\0\0\0\0\0\0\x72\x64\0\0\0\0\x57\0\0\0\0\0\0\0\0";

// Ga Gd Ge.
const G: [u8; 26] = *b"\x1f\0\0\x40\x20\0\0\0\0\0\0\0\0\0\0\0\0\0\0\0\0\0\0\0\0\0";

// He Hf Hg Ho Hs.
const H: [u8; 26] = *b"\0\0\0\0\x02\x48\x50\0\0\0\0\0\0\0\x43\0\0\0\x6c\0\0\0\0\0\0\0";

// In Ir.
const I: [u8; 26] = *b"\0\0\0\0\0\0\0\0\0\0\0\0\0\x31\0\0\0\x4d\0\0\0\0\0\0\0\0";

// Kr.
const K: [u8; 26] = *b"\0\0\0\0\0\0\0\0\0\0\0\0\0\0\0\0\0\x24\0\0\0\0\0\0\0\0";

// La Li Lr Lu Lv.
const L: [u8; 26] = *b"\x39\0\0\0\0\0\0\0\x03\0\0\0\0\0\0\0\0\x67\0\0\x47\x74\0\0\0\0";

// Mc Md Mg Mn Mo Mt.
const M: [u8; 26] = *b"\0\0\x73\x65\0\0\x0c\0\0\0\0\0\0\x19\x2a\0\0\0\0\x6d\0\0\0\0\0\0";

// Na Nb Nd Ne Nh Ni No Np.
const N: [u8; 26] = *b"\x0b\x29\0\x3c\x0a\0\0\x71\x1c\0\0\0\0\0\x66\x5d\0\0\0\0\0\0\0\0\0\0";

// Og Os.
const O: [u8; 26] = *b"\0\0\0\0\0\0\x76\0\0\0\0\0\0\0\0\0\0\0\x4c\0\0\0\0\0\0\0";

// Pa Pb Pd Pm Po Pr Pt Pu.
const P: [u8; 26] = *b"\x5b\x52\0\x2e\0\0\0\0\0\0\0\0\x3d\0\x54\0\0\x3b\0\x4e\x5e\0\0\0\0\0";

// Ra Rb Re Rf Rg Rh Rn Ru.
const R: [u8; 26] = *b"\x58\x25\0\0\x4b\x68\x6f\x2d\0\0\0\0\0\x56\0\0\0\0\0\0\x2c\0\0\0\0\0";

// Sb Sc Se Sg Si Sm Sn Sr.
const S: [u8; 26] = *b"\0\x33\x15\0\x22\0\x6a\0\x0e\0\0\0\x3e\x32\0\0\0\x26\0\0\0\0\0\0\0\0";

// Ta Tb Tc Te Th Ti Tl Tm Ts.
const T: [u8; 26] = *b"\x49\x41\x2b\0\x34\0\0\x5a\x16\0\0\x51\x45\0\0\0\0\0\x75\0\0\0\0\0\0\0";

// Xe.
const X: [u8; 26] = *b"\0\0\0\0\x36\0\0\0\0\0\0\0\0\0\0\0\0\0\0\0\0\0\0\0\0\0";

// Yb.
const Y: [u8; 26] = *b"\0\x46\0\0\0\0\0\0\0\0\0\0\0\0\0\0\0\0\0\0\0\0\0\0\0\0";

// Zn Zr.
const Z: [u8; 26] = *b"\0\0\0\0\0\0\0\0\0\0\0\0\0\x1e\0\0\0\x28\0\0\0\0\0\0\0\0";

// The atomic numbers of the symbols of one letter, `A` to `Z`; HALF where only longer symbols begin with it.
const SINGLES: [u8; 26] =
    *b"\xff\x05\x06\xff\xff\x09\xff\x01\x35\0\x13\xff\xff\x07\x08\x0f\0\xff\x10\xff\x5c\x17\x4a\xff\x27\xff";

// In SINGLES, no atomic number.
const HALF: u8 = 255;

// `*` and the 118 symbols, two bytes each.
const SPELLED: [u8; 238] = *b"*\0H\0HeLiBeB\0C\0N\0O\0F\0NeNaMgAlSiP\0S\0ClArK\0\
    CaScTiV\0CrMnFeCoNiCuZnGaGeAsSeBrKrRbSrY\0\
    ZrNbMoTcRuRhPdAgCdInSnSbTeI\0XeCsBaLaCePr\
    NdPmSmEuGdTbDyHoErTmYbLuHfTaW\0ReOsIrPtAu\
    HgTlPbBiPoAtRnFrRaAcThPaU\0NpPuAmCmBkCfEs\
    FmMdNoLrRfDbSgBhHsMtDsRgCnNhFlMcLvTsOg";

// What stands at the place of a bracket's symbol.
// Stays: five answers, each taken by an arm of its own; an option round the others would nest Half.
#[derive(Clone, Copy)]
pub enum Symbol {
    // A symbol of two letters: its atomic number.
    Long(u8),
    // A symbol of one letter, or `*` with 0.
    Brief(u8),
    // A selected letter: its atomic number.
    Selected(u8),
    // The first byte begins a symbol that does not stand here.
    Half,
    // The first byte begins no symbol.
    Nothing,
}

// What begins outside brackets.
// Stays: five answers, each taken by an arm of its own.
#[derive(Clone, Copy)]
pub enum Letter {
    // A letter by itself: its atomic number, 0 for `*`.
    Plain(u8),
    // A selected letter: its atomic number.
    Selected(u8),
    // `A` or `T`, with which `At` and `Ts` begin.
    Half,
    // `[`.
    Bracket,
    Nothing,
}

// The bytes of a symbol; the second is 0 where there is one letter.
// Stays: a look-up takes 0 for a letter that is not there, so what was spelled is found again as it is.
#[derive(Clone, Copy)]
pub struct Spelling {
    pub first: u8,
    pub second: u8,
}

// The atomic number of a symbol of two letters, the second by its place in the alphabet; 0 where there is none.
fn in_row(a: u8, i: usize) -> u8
    requires { i < 26 }
    ensures { result ≡ number_of (a ∷ (97 + i) ∷ []) }
{
    match a {
        b'A' => A[i],
        b'B' => B[i],
        b'C' => C[i],
        b'D' => D[i],
        b'E' => E[i],
        b'F' => F[i],
        b'G' => G[i],
        b'H' => H[i],
        b'I' => I[i],
        b'K' => K[i],
        b'L' => L[i],
        b'M' => M[i],
        b'N' => N[i],
        b'O' => O[i],
        b'P' => P[i],
        b'R' => R[i],
        b'S' => S[i],
        b'T' => T[i],
        b'X' => X[i],
        b'Y' => Y[i],
        b'Z' => Z[i],
        _ => 0,
    }
}

// The atomic number of a symbol of two letters.
fn pair(a: u8, b: u8) -> Option<u8>
    ensures { result ≡ nonzero (number_of (a ∷ b ∷ [])) }
{
    if (b < b'a') | (b'z' < b) {
        return None;
    }
    match in_row(a, (b - b'a') as usize) {
        0 => None,
        n => Some(n),
    }
}

// What an entry of SINGLES says.
fn meaning(entry: u8) -> Symbol
    ensures { result ≡ symbol_alone entry }
{
    match entry {
        0 => Symbol::Nothing,
        HALF => Symbol::Half,
        n => Symbol::Brief(n),
    }
}

// What a letter is by itself: a symbol, or the first of longer ones only.
fn single(a: u8) -> Symbol
    ensures { result ≡ symbol_alone (single_of a) }
{
    if (a < b'A') | (b'Z' < a) {
        return Symbol::Nothing;
    }
    meaning(SINGLES[(a - b'A') as usize])
}

// The atomic number of a selected letter.
#[tactic(auto, unfolding(crate::specs::Lookup::selected_of))]
fn selected(b: u8) -> Option<u8>
    ensures { result ≡ nonzero (selected_of b) }
{
    match b {
        b'c' => Some(6),
        b'n' => Some(7),
        b'o' => Some(8),
        b'p' => Some(15),
        b's' => Some(16),
        _ => None,
    }
}

// What stands at the last byte of a text.
fn alone(a: u8) -> Symbol
    ensures { result ≡ symbol_of a 0 }
{
    if a == b'*' {
        return Symbol::Brief(0);
    }
    match selected(a) {
        Some(e) => Symbol::Selected(e),
        None => single(a),
    }
}

// The symbol at two bytes in brackets; b is 0 where a is the last byte.
pub fn lookup(a: u8, b: u8) -> Symbol
    ensures { result ≡ symbol_of a b }
{
    match pair(a, b) {
        Some(n) => Symbol::Long(n),
        None => alone(a),
    }
}

// What an atom's first byte outside brackets is.
#[tactic(auto, unfolding(crate::specs::Lookup::letter_of, crate::specs::Lookup::selected_of, crate::specs::Lookup::number_of, crate::specs::Lookup::index_from, crate::specs::Symbols::same_bytes, crate::specs::Symbols::symbols, crate::specs::Symbols::among, crate::specs::Symbols::letters))]
pub fn atom_start(b: u8) -> Letter
    ensures { result ≡ letter_of b }
{
    match b {
        b'*' => Letter::Plain(0),
        b'B' => Letter::Plain(5),
        b'C' => Letter::Plain(6),
        b'N' => Letter::Plain(7),
        b'O' => Letter::Plain(8),
        b'F' => Letter::Plain(9),
        b'P' => Letter::Plain(15),
        b'S' => Letter::Plain(16),
        b'I' => Letter::Plain(53),
        b'c' => Letter::Selected(6),
        b'n' => Letter::Selected(7),
        b'o' => Letter::Selected(8),
        b'p' => Letter::Selected(15),
        b's' => Letter::Selected(16),
        b'A' | b'T' => Letter::Half,
        b'[' => Letter::Bracket,
        _ => Letter::Nothing,
    }
}

// Whether an element stands outside brackets.
#[tactic(auto, unfolding(crate::specs::Lookup::bare, crate::specs::Symbols::among))]
pub fn is_bare(e: u8) -> bool
    ensures { result ≡ bare e }
{
    matches!(e, 0 | 5 | 6 | 7 | 8 | 9 | 15 | 16 | 17 | 35 | 53 | 85 | 117)
}

// A symbol of one letter.
fn one(first: u8) -> Spelling
    ensures { result ≡ spelling (first ∷ []) }
{
    Spelling { first, second: 0 }
}

// A symbol of two letters.
fn two(first: u8, second: u8) -> Spelling
    ensures { result ≡ spelling (first ∷ second ∷ []) }
{
    Spelling { first, second }
}

// The symbol of an element from the table; no bytes above 118.
fn spell_rare(e: u8) -> Spelling
    ensures { result ≡ spelling (bytes_of e) }
{
    if e > 118 {
        return Spelling {
            first: 0,
            second: 0,
        };
    }
    let k = 2 * e as usize;
    Spelling {
        first: SPELLED[k],
        second: SPELLED[k + 1],
    }
}

// The symbol of an element; no bytes above 118. The common ones need no table.
#[tactic(auto, unfolding(crate::specs::Lookup::bytes_of, crate::specs::Symbols::symbols))]
pub fn spell(e: u8) -> Spelling
    ensures { result ≡ spelling (bytes_of e) }
{
    match e {
        5 => one(b'B'),
        6 => one(b'C'),
        7 => one(b'N'),
        8 => one(b'O'),
        9 => one(b'F'),
        15 => one(b'P'),
        16 => one(b'S'),
        17 => two(b'C', b'l'),
        35 => two(b'B', b'r'),
        53 => one(b'I'),
        _ => spell_rare(e),
    }
}

// The selected letter of an element; no bytes where there is none.
#[tactic(auto, unfolding(crate::specs::Lookup::selected_bytes))]
pub fn spell_selected(e: u8) -> Spelling
    ensures { result ≡ spelling (selected_bytes e) }
{
    let first = match e {
        6 => b'c',
        7 => b'n',
        8 => b'o',
        15 => b'p',
        16 => b's',
        _ => 0,
    };
    Spelling { first, second: 0 }
}
