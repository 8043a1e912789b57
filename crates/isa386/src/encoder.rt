// The bytes of an instruction: its opcode, its operand and its number.
ghost use Rattle.std.specs.Prelude.{ℕ, ℤ, ◌≡◌, ◌<◌, ◌≤◌, ◌+◌, ◌^◌, [], ◌++◌, length, Some, IfSome};
ghost use Rattle.std.specs.Int.{w8, cast_unsigned};
ghost use Rattle.arrayvec.specs.ArrayVec.{array_vec_len};
ghost use Rattle.isa386.specs.Encoding.{modrm, sib, mode, arith_digit, cond_code, number, displacement, operand, encoding};
ghost use Rattle.isa386.specs.Parts.{IsOpcode, opcode_of, opcode_bytes, operand_of, tail_of, tail_bytes, operand_bytes};
ghost use Rattle.isa386.specs.Row.{IsDisplacement, IsIndex, IsOperand, IsRow};

use crate::{
    ArithOp, Callee, Cond, Dest, DivideOp, Dw, Ins, Narrow, Opnd, PlainOp, ShiftOp, StackOp,
    StringOp, Target, UnaryOp, Way, WidenOp,
};
use arrayvec::ArrayVec;

// The bytes before the operand.
#[derive(Clone, Copy)]
pub(crate) enum Opcode {
    One(u8),
    /// An opcode plus the number of a register.
    Plus(u8, u8),
    Two(u8, u8),
    FarCall,
}

// The number behind the operand.
#[derive(Clone, Copy)]
enum Tail {
    Nothing,
    Byte(i8),
    Number(u32),
}

fn digit(op: ArithOp) -> u8
    ensures value { result ≡ arith_digit op }
    ensures small { result < 8 }
{
    match op {
        ArithOp::Add => 0,
        ArithOp::Or => 1,
        ArithOp::And => 4,
        ArithOp::Sub => 5,
        ArithOp::Xor => 6,
        ArithOp::Cmp => 7,
    }
}

fn code(cc: Cond) -> u8
    ensures value { result ≡ cond_code cc }
    ensures small { result < 16 }
{
    match cc {
        Cond::Overflow => 0x0,
        Cond::NotOverflow => 0x1,
        Cond::Below => 0x2,
        Cond::AboveOrEqual => 0x3,
        Cond::Equal => 0x4,
        Cond::NotEqual => 0x5,
        Cond::BelowOrEqual => 0x6,
        Cond::Above => 0x7,
        Cond::Sign => 0x8,
        Cond::NotSign => 0x9,
        Cond::Less => 0xC,
        Cond::GreaterOrEqual => 0xD,
        Cond::LessOrEqual => 0xE,
        Cond::Greater => 0xF,
    }
}

pub(crate) fn opcode_for(i: &Ins) -> Opcode
    ensures value { result ≡ opcode_of i.now }
    ensures row { IsRow i.now → IsOpcode result }
{
    match *i {
        Ins::Move(Way::ToOperand, _, _) => Opcode::One(0x89),
        Ins::Move(Way::ToRegister, _, _) => Opcode::One(0x8B),
        Ins::MoveImm(Dest::Register(r), _) => Opcode::Plus(0xB8, r),
        Ins::MoveImm(Dest::Operand(_), _) => Opcode::One(0xC7),
        Ins::MoveNarrow(Narrow::ByteToOperand, _, _) => Opcode::One(0x88),
        Ins::MoveNarrow(Narrow::ByteToRegister, _, _) => Opcode::One(0x8A),
        Ins::MoveNarrow(Narrow::WordToOperand, _, _) => Opcode::Two(0x66, 0x89),
        Ins::Lea(_, _) => Opcode::One(0x8D),
        Ins::Stack(StackOp::Push(r)) => Opcode::Plus(0x50, r),
        Ins::Stack(StackOp::PushImm(_)) => Opcode::One(0x68),
        Ins::Stack(StackOp::Pop(r)) => Opcode::Plus(0x58, r),
        Ins::ArithTo(op, _, _) => Opcode::One(8 * digit(op) + 1),
        Ins::ArithFrom(op, _, _) => Opcode::One(8 * digit(op) + 3),
        Ins::ArithImm(_, _, _) => Opcode::One(0x81),
        Ins::Test(_, _) => Opcode::One(0x85),
        Ins::Imul(_, _) => Opcode::Two(0x0F, 0xAF),
        Ins::Unary(_, _) | Ins::Divide(_, _) => Opcode::One(0xF7),
        Ins::Cltd => Opcode::One(0x99),
        Ins::Shift(_, _) => Opcode::One(0xD3),
        Ins::Set(cc, _) => Opcode::Two(0x0F, 0x90 + code(cc)),
        Ins::Widen(WidenOp::SignedByte, _, _) => Opcode::Two(0x0F, 0xBE),
        Ins::Widen(WidenOp::SignedWord, _, _) => Opcode::Two(0x0F, 0xBF),
        Ins::Widen(WidenOp::ZeroByte, _, _) => Opcode::Two(0x0F, 0xB6),
        Ins::Widen(WidenOp::ZeroWord, _, _) => Opcode::Two(0x0F, 0xB7),
        Ins::Call(Callee::Relative(_)) => Opcode::One(0xE8),
        Ins::Call(Callee::Indirect(_)) => Opcode::One(0xFF),
        Ins::Jump(Target::Near(_)) => Opcode::One(0xE9),
        Ins::Jump(Target::Short(_)) => Opcode::One(0xEB),
        Ins::Branch(cc, Target::Near(_)) => Opcode::Two(0x0F, 0x80 + code(cc)),
        Ins::Branch(cc, Target::Short(_)) => Opcode::One(0x70 + code(cc)),
        Ins::Plain(PlainOp::Ret) => Opcode::One(0xC3),
        Ins::Plain(PlainOp::Leave) => Opcode::One(0xC9),
        Ins::Plain(PlainOp::Nop) => Opcode::One(0x90),
        Ins::Int3 => Opcode::One(0xCC),
        Ins::Str(StringOp::RepMovsb) => Opcode::Two(0xF3, 0xA4),
        Ins::Str(StringOp::RepStosb) => Opcode::Two(0xF3, 0xAA),
        Ins::Str(StringOp::Cld) => Opcode::One(0xFC),
        Ins::Lcall => Opcode::FarCall,
    }
}

pub(crate) fn operand_for(i: &Ins) -> Option<(u8, Opnd)>
    ensures value { result ≡ operand_of i.now }
    ensures row { IsRow i.now → IfSome result (λ p. (p.0 < 8) × IsOperand p.1) }
{
    match *i {
        Ins::Move(_, r, rm)
        | Ins::MoveNarrow(_, r, rm)
        | Ins::Lea(r, rm)
        | Ins::ArithTo(_, r, rm)
        | Ins::ArithFrom(_, r, rm)
        | Ins::Test(r, rm)
        | Ins::Imul(r, rm)
        | Ins::Widen(_, r, rm) => Some((r, rm)),
        Ins::MoveImm(Dest::Operand(rm), _) | Ins::Set(_, rm) => Some((0, rm)),
        Ins::ArithImm(op, rm, _) => Some((digit(op), rm)),
        Ins::Unary(UnaryOp::Not, rm) | Ins::Call(Callee::Indirect(rm)) => Some((2, rm)),
        Ins::Unary(UnaryOp::Neg, rm) => Some((3, rm)),
        Ins::Shift(ShiftOp::Left, rm) => Some((4, rm)),
        Ins::Shift(ShiftOp::Right, rm) => Some((5, rm)),
        Ins::Divide(DivideOp::Unsigned, rm) => Some((6, rm)),
        Ins::Divide(DivideOp::Signed, rm) | Ins::Shift(ShiftOp::Arithmetic, rm) => Some((7, rm)),
        _ => None,
    }
}

fn tail_for(i: &Ins) -> Tail
    ensures { result ≡ tail_of i.now }
{
    match *i {
        Ins::MoveImm(_, n) | Ins::ArithImm(_, _, n) | Ins::Stack(StackOp::PushImm(n)) => {
            Tail::Number(n)
        }
        Ins::Call(Callee::Relative(d))
        | Ins::Jump(Target::Near(d))
        | Ins::Branch(_, Target::Near(d)) => Tail::Number(d.cast_unsigned()),
        Ins::Jump(Target::Short(d)) | Ins::Branch(_, Target::Short(d)) => Tail::Byte(d),
        _ => Tail::Nothing,
    }
}

fn push_number(out: &mut ArrayVec<u8, 15>, n: u32)
    requires room { array_vec_len out.old ≤ 11 }
    ensures bytes { out.new.items ≡ out.old.items ++ number n }
    ensures len { array_vec_len out.new ≡ array_vec_len out.old + 4 }
{
    let [a, b, c, d] = n.to_le_bytes();
    out.push(a);
    out.push(b);
    out.push(c);
    out.push(d);
}

fn push_displacement(out: &mut ArrayVec<u8, 15>, width: Dw, disp: i32)
    requires room { array_vec_len out.old ≤ 11 }
    requires fits { IsDisplacement width disp }
    ensures bytes { out.new.items ≡ out.old.items ++ displacement width disp }
    ensures len { array_vec_len out.new ≤ array_vec_len out.old + 4 }
{
    match width {
        Dw::D0 => {}
        Dw::D8 => out.push((disp as i8).cast_unsigned()),
        Dw::D32 => push_number(out, disp.cast_unsigned()),
    }
}

fn mode_of(width: Dw) -> u8
    ensures value { result ≡ mode width }
    ensures small { result < 3 }
{
    match width {
        Dw::D0 => 0,
        Dw::D8 => 1,
        Dw::D32 => 2,
    }
}

fn modrm_byte(mode: u8, reg: u8, rm: u8) -> u8
    requires mode { mode < 4 }
    requires reg { reg < 8 }
    requires rm { rm < 8 }
    ensures { result ≡ modrm mode reg rm }
{
    mode * 64 + reg * 8 + rm
}

fn sib_byte(index: (u8, u8), base: u8) -> u8
    requires index { IsIndex index }
    requires base { base < 8 }
    ensures { result ≡ sib index base }
{
    let (register, scale) = index;
    modrm_byte(scale, register, base)
}

fn push_operand(out: &mut ArrayVec<u8, 15>, reg: u8, rm: Opnd)
    requires room { array_vec_len out.old ≤ 2 }
    requires reg { reg < 8 }
    requires row { IsOperand rm }
    ensures bytes { out.new.items ≡ out.old.items ++ operand reg rm }
    ensures len { array_vec_len out.new ≤ array_vec_len out.old + 6 }
{
    match rm {
        Opnd::Reg(r) => out.push(modrm_byte(3, reg, r)),
        Opnd::Mem {
            base,
            index,
            disp,
            width,
        } => {
            match (base, index) {
                (None, None) => out.push(modrm_byte(0, reg, 5)),
                (Some(base), None) => out.push(modrm_byte(mode_of(width), reg, base)),
                (None, Some(index)) => {
                    out.push(modrm_byte(0, reg, 4));
                    out.push(sib_byte(index, 5));
                }
                (Some(base), Some(index)) => {
                    out.push(modrm_byte(mode_of(width), reg, 4));
                    out.push(sib_byte(index, base));
                }
            }
            push_displacement(out, width, disp);
        }
    }
}

fn push_opcode(out: &mut ArrayVec<u8, 15>, opcode: Opcode)
    requires empty { out.old.items ≡ [] }
    requires fits { IsOpcode opcode }
    ensures bytes { out.new.items ≡ opcode_bytes opcode }
{
    match opcode {
        Opcode::One(a) => out.push(a),
        Opcode::Plus(a, r) => out.push(a + r),
        Opcode::Two(a, b) => {
            out.push(a);
            out.push(b);
        }
        Opcode::FarCall => {
            out.push(0x9A);
            out.push(0);
            out.push(0);
            out.push(0);
            out.push(0);
            out.push(7);
            out.push(0);
        }
    }
}

fn push_tail(out: &mut ArrayVec<u8, 15>, tail: Tail)
    requires room { array_vec_len out.old ≤ 11 }
    ensures bytes { out.new.items ≡ out.old.items ++ tail_bytes tail }
{
    match tail {
        Tail::Nothing => {}
        Tail::Byte(d) => out.push(d.cast_unsigned()),
        Tail::Number(n) => push_number(out, n),
    }
}

/// Writes the bytes of an instruction into `out`, which is empty.
#[tactic(auto, using(crate::proofs::Sums::parts))]
pub fn encode(i: &Ins, out: &mut ArrayVec<u8, 15>)
    requires empty { out.old.items ≡ [] }
    requires row { IsRow i.now }
    ensures bytes { out.new.items ≡ encoding i.now }
{
    push_opcode(out, opcode_for(i));
    if let Some((reg, rm)) = operand_for(i) {
        push_operand(out, reg, rm);
    }
    push_tail(out, tail_for(i));
}

pub(crate) fn opcode_len(opcode: Opcode) -> u8
    ensures value { result ≡ length (opcode_bytes opcode) }
    ensures small { result ≤ 7 }
{
    match opcode {
        Opcode::One(_) | Opcode::Plus(_, _) => 1,
        Opcode::Two(_, _) => 2,
        Opcode::FarCall => 7,
    }
}

fn displacement_len(width: Dw) -> u8
    ensures value { (d : ℤ) → length (displacement width d) ≡ result }
    ensures small { result ≤ 4 }
{
    match width {
        Dw::D0 => 0,
        Dw::D8 => 1,
        Dw::D32 => 4,
    }
}

fn operand_len(rm: Opnd) -> u8
    ensures value { (reg : ℕ) → length (operand reg rm) ≡ result }
    ensures small { result ≤ 6 }
{
    match rm {
        Opnd::Reg(_) => 1,
        Opnd::Mem {
            index: None,
            width,
            ..
        } => 1 + displacement_len(width),
        Opnd::Mem {
            index: Some(_),
            width,
            ..
        } => 2 + displacement_len(width),
    }
}

fn tail_len(tail: Tail) -> u8
    ensures value { result ≡ length (tail_bytes tail) }
    ensures small { result ≤ 4 }
{
    match tail {
        Tail::Nothing => 0,
        Tail::Byte(_) => 1,
        Tail::Number(_) => 4,
    }
}

pub(crate) fn operand_len_of(i: &Ins) -> u8
    ensures value { result ≡ length (operand_bytes (operand_of i.now)) }
    ensures small { result ≤ 6 }
{
    match operand_for(i) {
        Some((_, rm)) => operand_len(rm),
        None => 0,
    }
}

/// The number of bytes of an instruction.
#[tactic(auto, using(crate::proofs::Sums::lengths))]
pub fn len(i: &Ins) -> u8
    ensures bytes { result ≡ length (encoding i.now) }
{
    opcode_len(opcode_for(i)) + operand_len_of(i) + tail_len(tail_for(i))
}
