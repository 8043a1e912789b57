// The fields of an instruction that can hold an address.
ghost use Rattle.std.specs.Prelude.{ℕ, ◌≡◌, ◌<◌, ◌≤◌, ◌^◌, ◌↔◌, ◌++◌, length, IsTrue, IsSome, IfSome};
ghost use Rattle.isa386.specs.Encoding.{number, encoding};
ghost use Rattle.isa386.specs.Row.{IsOperand, IsAddress, IsRow};
ghost use Rattle.isa386.specs.Parts.{operand_of};
ghost use Rattle.isa386.specs.Fields.{displaced, has_field, put, front, some_front, back};

use crate::encoder::{opcode_for, opcode_len, operand_for, operand_len_of};
use crate::{Callee, Dest, Dw, Ins, Opnd, StackOp};

/// A field of four bytes that can hold an address.
#[derive(Debug, Clone, Copy, PartialEq, Eq)]
pub enum Field {
    /// The displacement of a memory operand.
    Disp,
    /// The immediate number.
    Imm,
    /// The distance of a jump or call.
    Target,
}

fn operand_displaced(x: u32, rm: Opnd) -> Opnd
    ensures value { result ≡ displaced x rm }
    ensures row { IsOperand rm → IsOperand result }
    ensures memory { IsAddress rm → IsAddress result }
{
    match rm {
        Opnd::Mem {
            base,
            index,
            width: Dw::D32,
            ..
        } => Opnd::Mem {
            base,
            index,
            disp: x.cast_signed(),
            width: Dw::D32,
        },
        rm => rm,
    }
}

fn with_displacement(i: &Ins, x: u32) -> Ins
    ensures value { result ≡ put Field.Disp x i.now }
    ensures row { IsRow i.now → IsRow result }
{
    match *i {
        Ins::Move(way, r, rm) => Ins::Move(way, r, operand_displaced(x, rm)),
        Ins::MoveImm(Dest::Operand(rm), n) => {
            Ins::MoveImm(Dest::Operand(operand_displaced(x, rm)), n)
        }
        Ins::MoveNarrow(op, r, rm) => Ins::MoveNarrow(op, r, operand_displaced(x, rm)),
        Ins::Lea(r, m) => Ins::Lea(r, operand_displaced(x, m)),
        Ins::ArithTo(op, r, rm) => Ins::ArithTo(op, r, operand_displaced(x, rm)),
        Ins::ArithFrom(op, r, rm) => Ins::ArithFrom(op, r, operand_displaced(x, rm)),
        Ins::ArithImm(op, rm, n) => Ins::ArithImm(op, operand_displaced(x, rm), n),
        Ins::Test(r, rm) => Ins::Test(r, operand_displaced(x, rm)),
        Ins::Imul(r, rm) => Ins::Imul(r, operand_displaced(x, rm)),
        Ins::Unary(op, rm) => Ins::Unary(op, operand_displaced(x, rm)),
        Ins::Divide(op, rm) => Ins::Divide(op, operand_displaced(x, rm)),
        Ins::Shift(op, rm) => Ins::Shift(op, operand_displaced(x, rm)),
        Ins::Set(cc, rm) => Ins::Set(cc, operand_displaced(x, rm)),
        Ins::Widen(op, r, rm) => Ins::Widen(op, r, operand_displaced(x, rm)),
        Ins::Call(Callee::Indirect(rm)) => Ins::Call(Callee::Indirect(operand_displaced(x, rm))),
        other => other,
    }
}

fn with_immediate(i: &Ins, x: u32) -> Ins
    ensures value { result ≡ put Field.Imm x i.now }
    ensures row { IsRow i.now → IsRow result }
{
    match *i {
        Ins::MoveImm(dest, _) => Ins::MoveImm(dest, x),
        Ins::Stack(StackOp::PushImm(_)) => Ins::Stack(StackOp::PushImm(x)),
        Ins::ArithImm(op, rm, _) => Ins::ArithImm(op, rm, x),
        other => other,
    }
}

fn with_distance(i: &Ins, x: u32) -> Ins
    ensures value { result ≡ put Field.Target x i.now }
    ensures row { IsRow i.now → IsRow result }
{
    match *i {
        Ins::Call(Callee::Relative(_)) => Ins::Call(Callee::Relative(x.cast_signed())),
        Ins::Jump(crate::Target::Near(_)) => Ins::Jump(crate::Target::Near(x.cast_signed())),
        Ins::Branch(cc, crate::Target::Near(_)) => {
            Ins::Branch(cc, crate::Target::Near(x.cast_signed()))
        }
        other => other,
    }
}

/// The instruction with `x` in this field, and the instruction itself where it has no such field.
pub fn with_field(i: &Ins, field: Field, x: u32) -> Ins
    ensures value { result ≡ put field x i.now }
    ensures row { IsRow i.now → IsRow result }
    ensures bytes { IsTrue (has_field field i.now) → encoding result ≡ front field i.now ++ (number x ++ back field i.now) }
{
    match field {
        Field::Disp => with_displacement(i, x),
        Field::Imm => with_immediate(i, x),
        Field::Target => with_distance(i, x),
    }
}

fn has(i: &Ins, field: Field) -> bool
    ensures { result ≡ has_field field i.now }
{
    match field {
        Field::Disp => matches!(operand_for(i), Some((_, Opnd::Mem { width: Dw::D32, .. }))),
        Field::Imm => matches!(
            *i,
            Ins::MoveImm(_, _) | Ins::Stack(StackOp::PushImm(_)) | Ins::ArithImm(_, _, _)
        ),
        Field::Target => matches!(
            *i,
            Ins::Call(Callee::Relative(_))
                | Ins::Jump(crate::Target::Near(_))
                | Ins::Branch(_, crate::Target::Near(_))
        ),
    }
}

fn front_len(i: &Ins) -> u8
    ensures value { result ≡ length (some_front (operand_of i.now)) }
    ensures small { result ≤ 2 }
{
    match operand_for(i) {
        None => 0,
        Some((_, Opnd::Reg(_))) | Some((_, Opnd::Mem { index: None, .. })) => 1,
        Some((_, Opnd::Mem { index: Some(_), .. })) => 2,
    }
}

/// The place of a field in the instruction's bytes. None exactly where the instruction has no such
/// field.
#[tactic(auto, using(crate::proofs::Fields::fronts))]
pub fn field_at(i: &Ins, field: Field) -> Option<u8>
    ensures has { IsSome result ↔ IsTrue (has_field field i.now) }
    ensures place { IfSome result (λ at. at ≡ length (front field i.now)) }
{
    if !has(i, field) {
        return None;
    }
    let opcode = opcode_len(opcode_for(i));
    match field {
        Field::Disp => Some(opcode + front_len(i)),
        Field::Imm | Field::Target => Some(opcode + operand_len_of(i)),
    }
}
