// The calls for a text in pieces (02, P11), for C and Rust.
ghost use Rattle.std.specs.Prelude.{◌≡◌};
ghost use Rattle.reading_pieces.specs.Calls.{start_of, fed_of, end_of};
ghost use Rattle.balsa.specs.Pieces.{fed_reply_of, fed_out};

use reader_pieces::Fed;
use reading_pieces::Paused;

// What a call hands back: the code with its offset, at an accepted end the counts of atoms, of bonds and of over-full atoms outside
// brackets, else counts of 0; and the state for the next call.
#[repr(C)]
#[derive(Clone, Copy)]
pub struct FedReply {
    pub code: u32,
    pub place: usize,
    pub atoms: usize,
    pub bonds: usize,
    pub overfull: usize,
    pub state: Paused,
}

// An answer in plain numbers.
fn fed_reply(f: Fed) -> FedReply
    ensures { result ≡ fed_reply_of f }
{
    let state = f.state;
    FedReply {
        code: f.code as u32,
        place: f.place,
        atoms: f.atoms,
        bonds: f.bonds,
        overfull: f.overfull,
        state,
    }
}

// Begins a reading in pieces: 0 or 1.
#[unsafe(no_mangle)]
pub extern "C" fn balsa_start(atoms: &mut [i32], bonds: &mut [i32]) -> FedReply
    ensures { fed_out result atoms.new bonds.new ≡ start_of atoms.old bonds.old }
{
    fed_reply(reader_pieces::start(atoms, bonds))
}

// Reads a piece: 0, 1, 25, 24, or 2 to 9 with the offset.
#[unsafe(no_mangle)]
pub extern "C" fn balsa_feed(
    state: Paused,
    piece: &[u8],
    atoms: &mut [i32],
    bonds: &mut [i32],
) -> FedReply
    ensures { fed_out result atoms.new bonds.new ≡ fed_of state piece.now atoms.old bonds.old }
{
    fed_reply(reader_pieces::feed(state, piece, atoms, bonds))
}

// Says that the text has ended: 0 with the counts, 1, 25, 24, or 2 to 11 or 20 to 23 with the offset.
#[unsafe(no_mangle)]
pub extern "C" fn balsa_end(state: Paused, atoms: &mut [i32], bonds: &mut [i32]) -> FedReply
    ensures { fed_out result atoms.new bonds.new ≡ end_of state atoms.old bonds.old }
{
    fed_reply(reader_pieces::end(state, atoms, bonds))
}
