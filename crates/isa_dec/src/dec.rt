// What bytes begin with.
//
// What is inlined here is inlined so that an instruction comes to the machine's step in registers:
// copied from answer to answer, it would take most of the step's time.
ghost use Rattle.std.specs.Prelude.{ℕ, ◌≡◌, ◌<◌, ◌≤◌, ◌+◌, suc, length};
ghost use Rattle.isa386.specs.Encoding.{operand as operand_bytes};
ghost use Rattle.isa_dec.specs.Decoded.{found, whole_ins, byte_row, number_row, accepts, row_of, opcode_size, operand_row, accepts_numbered, numbered_of, extra, numbered_row, with_form, far_call_at, page_at, page_form, decoded};
ghost use Rattle.isa_dec.specs.Reads.{Reads};
ghost use Rattle.isa_dec.specs.declared.dec.Dec.{Dec};

use crate::form::{ByteForm, Form, NumberForm, NumberedForm, OperandForm, WholeForm};
use crate::opcode::{arithmetic, one_byte_form, repeated, two_byte_form, word_opcode};
use crate::operand::{OperandPart, number, operand};
use isa386::{
    ArithOp, Callee, Dest, DivideOp, Dw, Ins, Narrow, Opnd, PlainOp, ShiftOp, StackOp, StringOp,
    Target, UnaryOp,
};

/// What some bytes begin with.
#[derive(Debug, Clone, Copy, PartialEq, Eq)]
pub enum Dec {
    /// An instruction and the number of its bytes.
    Ins(Ins, u8),
    /// Too few bytes: they are a proper front of an instruction's.
    Short,
    /// No instruction, and none that these bytes are a front of.
    Unknown,
}

// The map of opcodes behind a first byte.
#[derive(Clone, Copy)]
enum Page {
    TwoBytes,
    Word,
    Repeated,
}

// The bytes of lcall behind its opcode.
const FAR_POINTER: [u8; 6] = [0, 0, 0, 0, 7, 0];

// A row that is an opcode alone.
fn whole(form: WholeForm) -> Dec
    ensures { result ≡ found (whole_ins form) }
{
    match form {
        WholeForm::PushForm(r) => Dec::Ins(Ins::Stack(StackOp::Push(r)), 1),
        WholeForm::PopForm(r) => Dec::Ins(Ins::Stack(StackOp::Pop(r)), 1),
        WholeForm::CltdForm => Dec::Ins(Ins::Cltd, 1),
        WholeForm::RetForm => Dec::Ins(Ins::Plain(PlainOp::Ret), 1),
        WholeForm::LeaveForm => Dec::Ins(Ins::Plain(PlainOp::Leave), 1),
        WholeForm::NopForm => Dec::Ins(Ins::Plain(PlainOp::Nop), 1),
        WholeForm::Int3Form => Dec::Ins(Ins::Int3, 1),
        WholeForm::MovsbForm => Dec::Ins(Ins::Str(StringOp::RepMovsb), 2),
        WholeForm::StosbForm => Dec::Ins(Ins::Str(StringOp::RepStosb), 2),
        WholeForm::CldForm => Dec::Ins(Ins::Str(StringOp::Cld), 1),
    }
}

// A row that ends with a signed byte.
fn with_byte(form: ByteForm, rest: &[u8]) -> Dec
    ensures { result ≡ byte_row form rest.now }
{
    let Some((byte, _)) = rest.split_first() else {
        return Dec::Short;
    };
    let target = Target::Short(byte.cast_signed());
    match form {
        ByteForm::ShortJump => Dec::Ins(Ins::Jump(target), 2),
        ByteForm::ShortBranch(c) => Dec::Ins(Ins::Branch(c, target), 2),
    }
}

// A row that is an opcode and a number.
fn with_number(form: NumberForm, rest: &[u8]) -> Dec
    ensures { result ≡ number_row form rest.now }
{
    let Some(n) = number(rest, 0) else {
        return Dec::Short;
    };
    let distance = n.cast_signed();
    match form {
        NumberForm::MoveNumber(r) => Dec::Ins(Ins::MoveImm(Dest::Register(r), n), 5),
        NumberForm::PushNumber => Dec::Ins(Ins::Stack(StackOp::PushImm(n)), 5),
        NumberForm::CallNear => Dec::Ins(Ins::Call(Callee::Relative(distance)), 5),
        NumberForm::JumpNear => Dec::Ins(Ins::Jump(Target::Near(distance)), 5),
        NumberForm::BranchNear(c) => Dec::Ins(Ins::Branch(c, Target::Near(distance)), 6),
    }
}

// Whether a ModRM byte can stand behind this opcode.
fn is_accepted(form: OperandForm, modrm: u8) -> bool
    ensures { result ≡ accepts form modrm }
{
    let digit = modrm / 8 % 8;
    match form {
        OperandForm::LeaForm => modrm < 192,
        OperandForm::GroupForm => digit == 2 || digit == 3 || digit == 6 || digit == 7,
        OperandForm::ShiftForm => digit == 4 || digit == 5 || digit == 7,
        OperandForm::SetForm(_) => digit == 0,
        OperandForm::CallForm => digit == 2,
        _ => true,
    }
}

// The row of an opcode and the reg field of its ModRM byte.
#[inline(always)]
fn row(form: OperandForm, reg: u8, rm: Opnd) -> Ins
    ensures { result ≡ row_of form reg rm }
{
    match form {
        OperandForm::MoveForm(way) => Ins::Move(way, reg, rm),
        OperandForm::NarrowForm(op) => Ins::MoveNarrow(op, reg, rm),
        OperandForm::LeaForm => Ins::Lea(reg, rm),
        OperandForm::ToForm(op) => Ins::ArithTo(op, reg, rm),
        OperandForm::FromForm(op) => Ins::ArithFrom(op, reg, rm),
        OperandForm::TestForm => Ins::Test(reg, rm),
        OperandForm::ImulForm => Ins::Imul(reg, rm),
        OperandForm::GroupForm => {
            if reg == 2 {
                Ins::Unary(UnaryOp::Not, rm)
            } else if reg == 3 {
                Ins::Unary(UnaryOp::Neg, rm)
            } else if reg == 6 {
                Ins::Divide(DivideOp::Unsigned, rm)
            } else {
                Ins::Divide(DivideOp::Signed, rm)
            }
        }
        OperandForm::ShiftForm => {
            if reg == 4 {
                Ins::Shift(ShiftOp::Left, rm)
            } else if reg == 5 {
                Ins::Shift(ShiftOp::Right, rm)
            } else {
                Ins::Shift(ShiftOp::Arithmetic, rm)
            }
        }
        OperandForm::SetForm(c) => Ins::Set(c, rm),
        OperandForm::WidenForm(op) => Ins::Widen(op, reg, rm),
        OperandForm::CallForm => Ins::Call(Callee::Indirect(rm)),
    }
}

// The number of bytes of an opcode that an operand follows.
fn opcode_len(form: OperandForm) -> u8
    ensures value { result ≡ opcode_size form }
    ensures small { result ≤ 2 }
{
    match form {
        OperandForm::NarrowForm(Narrow::WordToOperand)
        | OperandForm::ImulForm
        | OperandForm::SetForm(_)
        | OperandForm::WidenForm(_) => 2,
        _ => 1,
    }
}

// The number of an operand's bytes behind its ModRM byte.
fn extra_len(rm: Opnd) -> u8
    ensures value { result ≡ extra rm }
    ensures small { result ≤ 5 }
{
    match rm {
        Opnd::Reg(_) => 0,
        Opnd::Mem { index, width, .. } => {
            let sib = if index.is_some() { 1 } else { 0 };
            match width {
                Dw::D0 => sib,
                Dw::D8 => sib + 1,
                Dw::D32 => sib + 4,
            }
        }
    }
}

// A row that ends with an operand.
#[tactic(auto, using(crate::proofs::Lengths::row_length))]
#[inline(always)]
fn with_operand(form: OperandForm, rest: &[u8]) -> Dec
    ensures { result ≡ operand_row form rest.now }
{
    let Some((modrm, rest)) = rest.split_first() else {
        return Dec::Short;
    };
    if !is_accepted(form, *modrm) {
        return Dec::Unknown;
    }
    match operand(*modrm, rest) {
        OperandPart::Is(rm) => Dec::Ins(
            row(form, *modrm / 8 % 8, rm),
            opcode_len(form) + 1 + extra_len(rm),
        ),
        OperandPart::Cut => Dec::Short,
        OperandPart::Wrong => Dec::Unknown,
    }
}

// The row of an opcode whose operand a number follows, if the reg field of the ModRM byte is one of its.
fn numbered(form: NumberedForm, reg: u8, rm: Opnd, n: u32) -> Ins
    ensures { result ≡ numbered_of form reg rm n }
{
    match form {
        NumberedForm::MoveNumbered => Ins::MoveImm(Dest::Operand(rm), n),
        NumberedForm::ArithNumbered => match arithmetic(reg) {
            Some(op) => Ins::ArithImm(op, rm, n),
            None => Ins::ArithImm(ArithOp::Cmp, rm, n),
        },
    }
}

fn is_accepted_numbered(form: NumberedForm, modrm: u8) -> bool
    ensures { result ≡ accepts_numbered form modrm }
{
    let digit = modrm / 8 % 8;
    match form {
        NumberedForm::MoveNumbered => digit == 0,
        NumberedForm::ArithNumbered => digit != 2 && digit != 3,
    }
}

// A row that ends with an operand and a number.
#[tactic(auto, using(crate::proofs::Lengths::numbered_row_length))]
#[inline(always)]
fn with_operand_and_number(form: NumberedForm, rest: &[u8]) -> Dec
    ensures { result ≡ numbered_row form rest.now }
{
    let Some((modrm, rest)) = rest.split_first() else {
        return Dec::Short;
    };
    if !is_accepted_numbered(form, *modrm) {
        return Dec::Unknown;
    }
    match operand(*modrm, rest) {
        OperandPart::Is(rm) => match number(rest, usize::from(extra_len(rm))) {
            Some(n) => Dec::Ins(numbered(form, *modrm / 8 % 8, rm, n), 6 + extra_len(rm)),
            None => Dec::Short,
        },
        OperandPart::Cut => Dec::Short,
        OperandPart::Wrong => Dec::Unknown,
    }
}

#[inline(always)]
fn in_form(form: Option<Form>, rest: &[u8]) -> Dec
    ensures { result ≡ with_form form rest.now }
{
    match form {
        None => Dec::Unknown,
        Some(Form::Whole(form)) => whole(form),
        Some(Form::Byte(form)) => with_byte(form, rest),
        Some(Form::Number(form)) => with_number(form, rest),
        Some(Form::Operand(form)) => with_operand(form, rest),
        Some(Form::Numbered(form)) => with_operand_and_number(form, rest),
    }
}

#[inline(always)]
fn form_on(page: Page, b: u8) -> Option<Form>
    ensures { result ≡ page_form page b }
{
    match page {
        Page::TwoBytes => two_byte_form(b),
        Page::Word => word_opcode(b),
        Page::Repeated => repeated(b),
    }
}

fn far_call(rest: &[u8]) -> Dec
    ensures { result ≡ far_call_at rest.now }
{
    if rest.starts_with(&FAR_POINTER) {
        Dec::Ins(Ins::Lcall, 7)
    } else if FAR_POINTER.starts_with(rest) {
        Dec::Short
    } else {
        Dec::Unknown
    }
}

// The page of the opcodes that begin with this byte, if they have a second one.
fn page_of(first: u8) -> Option<Page>
    ensures { result ≡ page_at first }
{
    match first {
        0x0F => Some(Page::TwoBytes),
        0x66 => Some(Page::Word),
        0xF3 => Some(Page::Repeated),
        _ => None,
    }
}

#[tactic(auto, unfolding(crate::specs::Decoded::decoded))]
#[inline(always)]
fn first_instruction(b: &[u8]) -> Dec
    ensures { result ≡ decoded b.now }
{
    let Some((first, rest)) = b.split_first() else {
        return Dec::Short;
    };
    if *first == 0x9A {
        return far_call(rest);
    }
    let (form, rest) = match page_of(*first) {
        None => (one_byte_form(*first), rest),
        Some(page) => match rest.split_first() {
            None => return Dec::Short,
            Some((second, rest)) => (form_on(page, *second), rest),
        },
    };
    in_form(form, rest)
}

/// What the bytes begin with. An instruction keeps its spelling: the width of its displacement, and
/// whether a SIB byte stands.
///
/// `Ins` comes exactly where the bytes of a row of the table stand first, `Short` exactly where the bytes
/// are a proper front of a row's, and `Unknown` exactly where neither holds.
#[inline(always)]
pub fn decode(b: &[u8]) -> Dec
    ensures reads { Reads b.now result }
    ensures only { (d : Dec) → Reads b.now d → d ≡ result }
    ensures same { result ≡ decoded b.now }
{
    first_instruction(b)
}
