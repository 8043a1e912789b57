// The operators that marks spell, and how tightly they bind.
ghost use Rattle.std.specs.Prelude.{◌≡◌};
ghost use Rattle.c_grammar.specs.Words as w;

use c_tree::{AssignOp, BinaryOp, StepOp, UnaryOp};

/// The assignment that the mark at this place of the list of marks spells.
pub fn assignment_operator(mark: u8) -> Option<AssignOp>
    ensures value { result ≡ w.assign_of mark }
{
    match mark {
        32 => Some(AssignOp::Set),
        13 => Some(AssignOp::Add),
        14 => Some(AssignOp::Sub),
        15 => Some(AssignOp::Mul),
        16 => Some(AssignOp::Div),
        17 => Some(AssignOp::Rem),
        18 => Some(AssignOp::And),
        19 => Some(AssignOp::Or),
        20 => Some(AssignOp::Xor),
        0 => Some(AssignOp::Shl),
        1 => Some(AssignOp::Shr),
        _ => None,
    }
}

/// The binary operator that the mark at this place of the list of marks spells.
pub fn binary_operator(mark: u8) -> Option<BinaryOp>
    ensures value { result ≡ w.binary_of mark }
{
    match mark {
        12 => Some(BinaryOp::Either),
        11 => Some(BinaryOp::Both),
        39 => Some(BinaryOp::Or),
        40 => Some(BinaryOp::Xor),
        38 => Some(BinaryOp::And),
        9 => Some(BinaryOp::Eq),
        10 => Some(BinaryOp::Ne),
        43 => Some(BinaryOp::Lt),
        44 => Some(BinaryOp::Gt),
        7 => Some(BinaryOp::Le),
        8 => Some(BinaryOp::Ge),
        5 => Some(BinaryOp::Shl),
        6 => Some(BinaryOp::Shr),
        33 => Some(BinaryOp::Add),
        34 => Some(BinaryOp::Sub),
        35 => Some(BinaryOp::Mul),
        36 => Some(BinaryOp::Div),
        37 => Some(BinaryOp::Rem),
        _ => None,
    }
}

/// How tightly a binary operator binds, from 4 for the loosest to 13.
pub fn binary_level(op: BinaryOp) -> u8
    ensures value { result ≡ w.binary_level op }
{
    match op {
        BinaryOp::Either => 4,
        BinaryOp::Both => 5,
        BinaryOp::Or => 6,
        BinaryOp::Xor => 7,
        BinaryOp::And => 8,
        BinaryOp::Eq | BinaryOp::Ne => 9,
        BinaryOp::Lt | BinaryOp::Gt | BinaryOp::Le | BinaryOp::Ge => 10,
        BinaryOp::Shl | BinaryOp::Shr => 11,
        BinaryOp::Add | BinaryOp::Sub => 12,
        BinaryOp::Mul | BinaryOp::Div | BinaryOp::Rem => 13,
    }
}

/// The operator before an operand that the mark at this place of the list of marks spells.
pub fn prefix_operator(mark: u8) -> Option<UnaryOp>
    ensures value { result ≡ w.unary_of mark }
{
    match mark {
        35 => Some(UnaryOp::Deref),
        38 => Some(UnaryOp::Address),
        34 => Some(UnaryOp::Neg),
        42 => Some(UnaryOp::Not),
        41 => Some(UnaryOp::Flip),
        2 => Some(UnaryOp::Inc),
        3 => Some(UnaryOp::Dec),
        _ => None,
    }
}

/// The operator behind an operand that the mark at this place of the list of marks spells.
pub fn postfix_operator(mark: u8) -> Option<StepOp>
    ensures value { result ≡ w.step_of mark }
{
    match mark {
        2 => Some(StepOp::Inc),
        3 => Some(StepOp::Dec),
        _ => None,
    }
}
