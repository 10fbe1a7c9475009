// The call for the key of a molecule, for C and Rust.
ghost use Rattle.std.specs.Prelude.{◌≡◌};
ghost use Rattle.molecule_key.specs.Keyed.{told, keyed_of};
ghost use Rattle.balsa.specs.Keys.{key_reply};

use refusal::Refusal;
use table::Tables;

// What the key's call hands back: code 0 with the key, or the refusal's code with 0.
#[repr(C)]
#[derive(Clone, Copy)]
pub struct KeyReply {
    pub code: u32,
    pub key: u64,
}

// An answer of the key's call in plain numbers.
impl From<Result<u64, Refusal>> for KeyReply {
    ghost from_gives = { λ answer r. r ≡ key_reply (told answer) };

    fn from(answer: Result<u64, Refusal>) -> KeyReply {
        match answer {
            Ok(key) => KeyReply { code: 0, key },
            Err(r) => KeyReply {
                code: refusal::code(r) as u32,
                key: 0,
            },
        }
    }
}

// The key of the molecule of the tables, equal for redrawings: 0, 1 or 13.
#[unsafe(no_mangle)]
pub extern "C" fn balsa_key(atoms: &[i32], bonds: &[i32], n: usize, m: usize) -> KeyReply
    ensures { result ≡ key_reply (keyed_of atoms.now bonds.now n m) }
{
    KeyReply::from(molecule_key::key(Tables { atoms, bonds, n, m }))
}
