// The call for the same compound, drawn differently (02, P4), for C and Rust.
ghost use Rattle.std.specs.Prelude.{◌≡◌};
ghost use Rattle.same_model.specs.Same.{molecule, same_reply, same_of};

use table::Tables;

// Whether two molecules are the same compound, with both rows and the renumbering: 0 yes, 254 no, 1, 13 or 19.
#[unsafe(no_mangle)]
pub extern "C" fn balsa_same(
    atoms1: &[i32],
    bonds1: &[i32],
    n1: usize,
    m1: usize,
    atoms2: &[i32],
    bonds2: &[i32],
    n2: usize,
    m2: usize,
    row1: &mut [u8],
    row2: &mut [u8],
    ren: &mut [u16],
) -> u32
    ensures { same_reply result row1.new row2.new ren.new ≡ same_of (molecule atoms1.now bonds1.now n1 m1) (molecule atoms2.now bonds2.now n2 m2) row1.old row2.old ren.old }
{
    let answer = same::same(
        Tables {
            atoms: atoms1,
            bonds: bonds1,
            n: n1,
            m: m1,
        },
        Tables {
            atoms: atoms2,
            bonds: bonds2,
            n: n2,
            m: m2,
        },
        row1,
        row2,
        ren,
    );
    same::sameness_code(answer) as u32
}
