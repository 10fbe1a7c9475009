// The withdrawal check: a withdrawn text is withdrawn in every drawing.
#![tactic(auto)]

ghost use Rattle.std.specs.Prelude.{◌≡◌};
ghost use Rattle.withdrawal.specs.Withdrawal.{withdraw_of, Answered};
ghost use Rattle.withdrawal.specs.Answer.{error_code, error_place, withdrew_out, out_of};
ghost use Rattle.withdrawal.specs.declared.WithdrawError.TheVariants.{Register, Text};

use reader::answer::TextRefusal;
use register::RegisterError;
use register::contents::SIZE;
use table::{ATOM_CELLS, BOND_CELLS, MAX_ATOMS, MAX_BONDS};
use walk::Withdrawn;

pub mod verdict;
pub mod walk;

// Why a call refuses: the register is refused, or the text.
#[derive(Clone, Copy)]
pub enum WithdrawError {
    Register(RegisterError),
    Text(TextRefusal),
}

impl From<RegisterError> for WithdrawError {
    ghost from_gives = { λ r e. e ≡ Register r };

    fn from(r: RegisterError) -> WithdrawError {
        WithdrawError::Register(r)
    }
}

impl From<TextRefusal> for WithdrawError {
    ghost from_gives = { λ r e. e ≡ Text r };

    fn from(r: TextRefusal) -> WithdrawError {
        WithdrawError::Text(r)
    }
}

// The code of a refusal.
impl From<WithdrawError> for u32 {
    ghost from_gives = { λ e c. c ≡ error_code e };

    fn from(e: WithdrawError) -> u32 {
        match e {
            WithdrawError::Register(r) => u32::from(r),
            WithdrawError::Text(r) => refusal::code(r.refusal) as u32,
        }
    }
}

impl WithdrawError {
    // The place of a refusal: that of the text, and 0 of a register.
    pub fn place(self) -> usize
        ensures { result ≡ error_place self }
    {
        match self {
            WithdrawError::Register(_) => 0,
            WithdrawError::Text(r) => r.at,
        }
    }
}

// Withdraws a text: it becomes a body of the register, with a tag. 1 first, then reading's refusal with its place, then 17 and 18; a refusal changes nothing.
#[tactic(auto, using(crate::proofs::Calls::code_not_zero), unfolding(crate::specs::Withdrawal::withdraw_of, crate::specs::Withdrawal::read_text))]
pub fn withdraw(held: &mut [u8], tag: u16, text: &[u8]) -> Result<(), WithdrawError>
    ensures { withdrew_out result held.new ≡ withdraw_of held.old tag text.now }
{
    if held.len() < SIZE {
        return Err(WithdrawError::Register(RegisterError::Short));
    }
    let mut atoms = [0i32; ATOM_CELLS * MAX_ATOMS];
    let mut bonds = [0i32; BOND_CELLS * MAX_BONDS];
    reader::read(text, &mut atoms, &mut bonds)?;
    register::add(held, tag, text)?;
    Ok(())
}

// Whether the compound of a text is withdrawn, in any drawing: 1 and 17 first, then reading's refusal with its place; withdrawn, with the tag and place of the first entry found to be a redrawing;
// else undecided, with the place of the first entry that could not be decided; else clear.
pub fn withdrawn(held: &[u8], text: &[u8]) -> Result<Withdrawn, WithdrawError>
    ensures { Answered held.now text.now (out_of result) }
{
    register::ready(held)?;
    let mut atoms = [0i32; ATOM_CELLS * MAX_ATOMS];
    let mut bonds = [0i32; BOND_CELLS * MAX_BONDS];
    let counts = reader::read(text, &mut atoms, &mut bonds)?;
    Ok(walk::ask(held, &mut atoms, &mut bonds, counts.atoms, counts.bonds))
}
