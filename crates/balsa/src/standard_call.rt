// The call from a text to the text kekulized, for C and Rust.
ghost use Rattle.std.specs.Prelude.{◌≡◌};
ghost use Rattle.standard.specs.Standard.{standard_of};
ghost use Rattle.balsa.specs.Standard.{standard_reply_of, standard_out};

use reader::answer::TextRefusal;
use standard::Written;

// What the call hands back: code 0 with the counts of atoms, of bonds and of over-full atoms outside brackets and the length of the text,
// or the refusal's code with its place, the counts and the length being 0.
#[repr(C)]
#[derive(Clone, Copy)]
pub struct StandardReply {
    pub code: u32,
    pub place: usize,
    pub atoms: usize,
    pub bonds: usize,
    pub overfull: usize,
    pub length: usize,
}

// An answer in plain numbers.
impl From<Result<Written, TextRefusal>> for StandardReply {
    ghost from_gives = { λ s r. r ≡ standard_reply_of s };

    fn from(s: Result<Written, TextRefusal>) -> StandardReply {
        match s {
            Ok(written) => StandardReply {
                code: 0,
                place: 0,
                atoms: written.counts.atoms,
                bonds: written.counts.bonds,
                overfull: written.counts.overfull,
                length: written.length,
            },
            Err(e) => StandardReply {
                code: refusal::code(e.refusal) as u32,
                place: e.at,
                atoms: 0,
                bonds: 0,
                overfull: 0,
                length: 0,
            },
        }
    }
}

// Reads a text, kekulizes it by its first matching and writes it: 0 with the counts and the length, or the first refusal among these with its place.
#[unsafe(no_mangle)]
pub extern "C" fn balsa_standardize(text: &[u8], out: &mut [u8]) -> StandardReply
    ensures { standard_out result out.new ≡ standard_of text.now out.old }
{
    StandardReply::from(standard::standardize(text, out))
}
