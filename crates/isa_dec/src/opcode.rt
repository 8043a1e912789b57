// The opcode map.
ghost use Rattle.std.specs.Prelude.{◌≡◌, ◌<◌, ◌≤◌};
ghost use Rattle.isa_dec.specs.OpcodeAt.{cond_at, arith_at, arith_form, single_form, one_byte, two_bytes, word_form, repeated_form};

use crate::form::{ByteForm, Form, NumberForm, NumberedForm, OperandForm, WholeForm};
use isa386::{ArithOp, Cond, Narrow, Way, WidenOp};

fn condition(code: u8) -> Option<Cond>
    ensures { result ≡ cond_at code }
{
    match code {
        0x0 => Some(Cond::Overflow),
        0x1 => Some(Cond::NotOverflow),
        0x2 => Some(Cond::Below),
        0x3 => Some(Cond::AboveOrEqual),
        0x4 => Some(Cond::Equal),
        0x5 => Some(Cond::NotEqual),
        0x6 => Some(Cond::BelowOrEqual),
        0x7 => Some(Cond::Above),
        0x8 => Some(Cond::Sign),
        0x9 => Some(Cond::NotSign),
        0xC => Some(Cond::Less),
        0xD => Some(Cond::GreaterOrEqual),
        0xE => Some(Cond::LessOrEqual),
        0xF => Some(Cond::Greater),
        _ => None,
    }
}

pub(crate) fn arithmetic(digit: u8) -> Option<ArithOp>
    ensures { result ≡ arith_at digit }
{
    match digit {
        0 => Some(ArithOp::Add),
        1 => Some(ArithOp::Or),
        4 => Some(ArithOp::And),
        5 => Some(ArithOp::Sub),
        6 => Some(ArithOp::Xor),
        7 => Some(ArithOp::Cmp),
        _ => None,
    }
}

// Opcodes 8 * digit + 1 and 8 * digit + 3.
fn arithmetic_form(b: u8) -> Option<Form>
    ensures { result ≡ arith_form b }
{
    let Some(op) = arithmetic(b / 8) else {
        return None;
    };
    if b % 8 == 1 {
        Some(Form::Operand(OperandForm::ToForm(op)))
    } else if b % 8 == 3 {
        Some(Form::Operand(OperandForm::FromForm(op)))
    } else {
        None
    }
}

fn single(b: u8) -> Option<Form>
    ensures { result ≡ single_form b }
{
    match b {
        0x68 => Some(Form::Number(NumberForm::PushNumber)),
        0x81 => Some(Form::Numbered(NumberedForm::ArithNumbered)),
        0x85 => Some(Form::Operand(OperandForm::TestForm)),
        0x88 => Some(Form::Operand(OperandForm::NarrowForm(Narrow::ByteToOperand))),
        0x89 => Some(Form::Operand(OperandForm::MoveForm(Way::ToOperand))),
        0x8A => Some(Form::Operand(OperandForm::NarrowForm(Narrow::ByteToRegister))),
        0x8B => Some(Form::Operand(OperandForm::MoveForm(Way::ToRegister))),
        0x8D => Some(Form::Operand(OperandForm::LeaForm)),
        0x90 => Some(Form::Whole(WholeForm::NopForm)),
        0x99 => Some(Form::Whole(WholeForm::CltdForm)),
        0xC3 => Some(Form::Whole(WholeForm::RetForm)),
        0xC7 => Some(Form::Numbered(NumberedForm::MoveNumbered)),
        0xC9 => Some(Form::Whole(WholeForm::LeaveForm)),
        0xCC => Some(Form::Whole(WholeForm::Int3Form)),
        0xD3 => Some(Form::Operand(OperandForm::ShiftForm)),
        0xE8 => Some(Form::Number(NumberForm::CallNear)),
        0xE9 => Some(Form::Number(NumberForm::JumpNear)),
        0xEB => Some(Form::Byte(ByteForm::ShortJump)),
        0xF7 => Some(Form::Operand(OperandForm::GroupForm)),
        0xFC => Some(Form::Whole(WholeForm::CldForm)),
        0xFF => Some(Form::Operand(OperandForm::CallForm)),
        _ => None,
    }
}

// The opcodes of one byte.
pub(crate) fn one_byte_form(b: u8) -> Option<Form>
    ensures { result ≡ one_byte b }
{
    if b < 0x40 {
        arithmetic_form(b)
    } else if 0x50 <= b && b < 0x58 {
        Some(Form::Whole(WholeForm::PushForm(b - 0x50)))
    } else if 0x58 <= b && b < 0x60 {
        Some(Form::Whole(WholeForm::PopForm(b - 0x58)))
    } else if 0x70 <= b && b < 0x80 {
        match condition(b - 0x70) {
            Some(c) => Some(Form::Byte(ByteForm::ShortBranch(c))),
            None => None,
        }
    } else if 0xB8 <= b && b < 0xC0 {
        Some(Form::Number(NumberForm::MoveNumber(b - 0xB8)))
    } else {
        single(b)
    }
}

// The opcodes behind 0F.
pub(crate) fn two_byte_form(b: u8) -> Option<Form>
    ensures { result ≡ two_bytes b }
{
    if 0x80 <= b && b < 0x90 {
        match condition(b - 0x80) {
            Some(c) => Some(Form::Number(NumberForm::BranchNear(c))),
            None => None,
        }
    } else if 0x90 <= b && b < 0xA0 {
        match condition(b - 0x90) {
            Some(c) => Some(Form::Operand(OperandForm::SetForm(c))),
            None => None,
        }
    } else {
        match b {
            0xAF => Some(Form::Operand(OperandForm::ImulForm)),
            0xB6 => Some(Form::Operand(OperandForm::WidenForm(WidenOp::ZeroByte))),
            0xB7 => Some(Form::Operand(OperandForm::WidenForm(WidenOp::ZeroWord))),
            0xBE => Some(Form::Operand(OperandForm::WidenForm(WidenOp::SignedByte))),
            0xBF => Some(Form::Operand(OperandForm::WidenForm(WidenOp::SignedWord))),
            _ => None,
        }
    }
}

// The opcode behind 66.
pub(crate) fn word_opcode(b: u8) -> Option<Form>
    ensures { result ≡ word_form b }
{
    if b == 0x89 {
        Some(Form::Operand(OperandForm::NarrowForm(Narrow::WordToOperand)))
    } else {
        None
    }
}

// The opcodes behind F3.
pub(crate) fn repeated(b: u8) -> Option<Form>
    ensures { result ≡ repeated_form b }
{
    if b == 0xA4 {
        Some(Form::Whole(WholeForm::MovsbForm))
    } else if b == 0xAA {
        Some(Form::Whole(WholeForm::StosbForm))
    } else {
        None
    }
}
