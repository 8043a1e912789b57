// How the code of a function reaches the objects of its activation.
ghost use Rattle.std.specs.Prelude.{◌≡◌, ◌<◌, ◌∷◌, []};
ghost use Rattle.gen_small.specs.Items.{Op};
ghost use Rattle.gen_small.specs.Code as code;

use crate::registers::{EAX, EBP};
use isa386::{Dw, Ins, Opnd, Way};

/// The memory so many bytes, at least 1, below the base of the activation.
pub fn below(depth: u32) -> Opnd
    requires inside { 0 < depth }
    ensures operand { result ≡ code.below depth }
{
    Opnd::Mem {
        base: Some(EBP),
        index: None,
        disp: 0u32.wrapping_sub(depth).cast_signed(),
        width: Dw::D32,
    }
}

/// Loads a number of 32 bits into %eax.
pub fn load(operand: Opnd) -> Ins
    ensures code { Op result ∷ [] ≡ code.load_from (operand ∷ []) }
{
    Ins::Move(Way::ToRegister, EAX, operand)
}

/// Stores %eax into a place of 32 bits.
pub fn store(operand: Opnd) -> Ins
    ensures code { Op result ∷ [] ≡ code.store_to (operand ∷ []) }
{
    Ins::Move(Way::ToOperand, EAX, operand)
}
