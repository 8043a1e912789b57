// The test whether an instruction is a row of the table.
ghost use Rattle.std.specs.Prelude.{◌≡◌, ◌<◌, ◌^◌, ◌↔◌, IsTrue};
ghost use Rattle.std.specs.Int.{w32};
ghost use Rattle.std.specs.Int.RustNames.{FitsSigned};
ghost use Rattle.isa386.specs.Row.{IsDisplacement, IsBased, IsAbsolute, IsIndex, IsMemory, IsOperand, IsAddress, IsTarget, IsRow};

use crate::{Callee, Dest, Dw, Ins, Opnd, StackOp, Target};

fn is_displacement(width: Dw, disp: i32) -> bool
    ensures { IsTrue result ↔ IsDisplacement width disp }
{
    match width {
        Dw::D0 => disp == 0,
        Dw::D8 => -128 <= disp && disp < 128,
        Dw::D32 => true,
    }
}

fn is_based(base: u8, width: Dw, disp: i32) -> bool
    ensures { IsTrue result ↔ IsBased base width disp }
{
    base < 8 && !(base == 5 && width == Dw::D0) && is_displacement(width, disp)
}

fn is_absolute(width: Dw, disp: i32) -> bool
    ensures { IsTrue result ↔ IsAbsolute width disp }
{
    let _disp = disp;
    width == Dw::D32
}

fn is_index(index: (u8, u8)) -> bool
    ensures { IsTrue result ↔ IsIndex index }
{
    let (register, scale) = index;
    register < 8 && scale < 4 && (register != 4 || scale == 0)
}

fn is_memory(base: Option<u8>, index: Option<(u8, u8)>, disp: i32, width: Dw) -> bool
    ensures { IsTrue result ↔ IsMemory base index disp width }
{
    match (base, index) {
        (None, None) => is_absolute(width, disp),
        (Some(base), None) => base != 4 && is_based(base, width, disp),
        (None, Some(index)) => is_index(index) && is_absolute(width, disp),
        (Some(base), Some(index)) => is_index(index) && is_based(base, width, disp),
    }
}

fn is_operand(operand: Opnd) -> bool
    ensures { IsTrue result ↔ IsOperand operand }
{
    match operand {
        Opnd::Reg(r) => r < 8,
        Opnd::Mem {
            base,
            index,
            disp,
            width,
        } => is_memory(base, index, disp, width),
    }
}

fn is_address(operand: Opnd) -> bool
    ensures { IsTrue result ↔ IsAddress operand }
{
    match operand {
        Opnd::Reg(_) => false,
        Opnd::Mem {
            base,
            index,
            disp,
            width,
        } => is_memory(base, index, disp, width),
    }
}

// Each number of four bytes can be an immediate.
fn is_immediate(_n: u32) -> bool
    ensures { IsTrue result ↔ (_n < 2 ^ 32) }
{
    true
}

// Each signed number of four bytes can be a distance.
fn is_distance(_d: i32) -> bool
    ensures { IsTrue result ↔ FitsSigned w32 _d }
{
    true
}

fn is_target(target: Target) -> bool
    ensures { IsTrue result ↔ IsTarget target }
{
    match target {
        Target::Near(d) => is_distance(d),
        Target::Short(_) => true,
    }
}

/// Whether the instruction is a row of the table: its registers and scales exist, and its displacement
/// has a width that its operand can have.
pub fn is_row(i: &Ins) -> bool
    ensures row { IsTrue result ↔ IsRow i.now }
{
    match *i {
        Ins::Move(_, r, rm)
        | Ins::MoveNarrow(_, r, rm)
        | Ins::ArithTo(_, r, rm)
        | Ins::ArithFrom(_, r, rm)
        | Ins::Test(r, rm)
        | Ins::Imul(r, rm)
        | Ins::Widen(_, r, rm) => r < 8 && is_operand(rm),
        Ins::Lea(r, m) => r < 8 && is_address(m),
        Ins::MoveImm(Dest::Register(r), n) => r < 8 && is_immediate(n),
        Ins::MoveImm(Dest::Operand(rm), n) | Ins::ArithImm(_, rm, n) => {
            is_operand(rm) && is_immediate(n)
        }
        Ins::Unary(_, rm)
        | Ins::Divide(_, rm)
        | Ins::Shift(_, rm)
        | Ins::Set(_, rm)
        | Ins::Call(Callee::Indirect(rm)) => is_operand(rm),
        Ins::Stack(StackOp::Push(r)) | Ins::Stack(StackOp::Pop(r)) => r < 8,
        Ins::Stack(StackOp::PushImm(n)) => is_immediate(n),
        Ins::Call(Callee::Relative(d)) => is_distance(d),
        Ins::Jump(target) | Ins::Branch(_, target) => is_target(target),
        Ins::Cltd | Ins::Plain(_) | Ins::Int3 | Ins::Str(_) | Ins::Lcall => true,
    }
}
