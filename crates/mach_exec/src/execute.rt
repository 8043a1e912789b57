// The row of an instruction.
ghost use Rattle.std.specs.Prelude.{◌≡◌};
ghost use Rattle.mach_exec.specs.Effect.{outcome};
ghost use Rattle.mach_exec.specs.Execute.{executed};

use crate::arith::{arith_from, arith_number, arith_to, extend_sign, multiply, test_bits, unary};
use crate::control::{branch, call, jump, plain};
use crate::divide::divide;
use crate::shift::shift;
use crate::strings::string;
use crate::transfer::{
    load_address, on_stack, set_byte, transfer, transfer_narrow, transfer_number, widen,
};
use crate::{Cpu, Event};
use isa386::Ins;
use mach_mem::Regions;

/// Executes an instruction, where `next` is the address behind it.
#[tactic(auto, unfolding(crate::specs::Execute::executed))]
pub(crate) fn execute(cpu: &mut Cpu, mem: &mut Regions, i: Ins, next: u32) -> Event
    ensures { outcome result cpu.new mem.new ≡ executed cpu.old mem.old i next }
{
    match i {
        Ins::Move(way, r, rm) => transfer(cpu, mem, way, r, rm, next),
        Ins::MoveImm(dest, n) => transfer_number(cpu, mem, dest, n, next),
        Ins::MoveNarrow(op, r, rm) => transfer_narrow(cpu, mem, op, r, rm, next),
        Ins::Lea(r, rm) => load_address(cpu, mem, r, rm, next),
        Ins::Stack(op) => on_stack(cpu, mem, op, next),
        Ins::ArithTo(op, r, rm) => arith_to(cpu, mem, op, r, rm, next),
        Ins::ArithFrom(op, r, rm) => arith_from(cpu, mem, op, r, rm, next),
        Ins::ArithImm(op, rm, n) => arith_number(cpu, mem, op, rm, n, next),
        Ins::Test(r, rm) => test_bits(cpu, mem, r, rm, next),
        Ins::Imul(r, rm) => multiply(cpu, mem, r, rm, next),
        Ins::Unary(op, rm) => unary(cpu, mem, op, rm, next),
        Ins::Divide(op, rm) => divide(cpu, mem, op, rm, next),
        Ins::Cltd => extend_sign(cpu, mem, next),
        Ins::Shift(op, rm) => shift(cpu, mem, op, rm, next),
        Ins::Set(condition, rm) => set_byte(cpu, mem, condition, rm, next),
        Ins::Widen(op, r, rm) => widen(cpu, mem, op, r, rm, next),
        Ins::Call(callee) => call(cpu, mem, callee, next),
        Ins::Jump(to) => jump(cpu, mem, to, next),
        Ins::Branch(condition, to) => branch(cpu, mem, condition, to, next),
        Ins::Plain(op) => plain(cpu, mem, op, next),
        Ins::Int3 => {
            cpu.eip = next;
            Event::Trap
        }
        Ins::Str(op) => string(cpu, mem, op, next),
        Ins::Lcall => {
            cpu.eip = next;
            Event::System
        }
    }
}
