// Shifts.
ghost use Rattle.std.specs.Prelude.{◌≡◌, ◌<◌};
ghost use Rattle.isa386.specs.declared.Ins.TheVariants.{Shift};
ghost use Rattle.mach_exec.specs.Flags.{shift_result, shift_carry, shift_overflow, shift_flags};
ghost use Rattle.mach_exec.specs.Effect.{outcome};
ghost use Rattle.mach_exec.specs.Execute.{executed};

use crate::effect::{ECX, store};
use crate::flags::{Flags, differ, of_result, sign};
use crate::operand::{place_of, value};
use crate::{Cpu, Event};
use isa386::{Opnd, ShiftOp};
use mach_mem::Regions;

fn shifted(op: ShiftOp, a: u32, k: u32) -> u32
    requires { k < 32 }
    ensures { result ≡ shift_result op a k }
{
    match op {
        ShiftOp::Left => a << k,
        ShiftOp::Right => a >> k,
        ShiftOp::Arithmetic => { if sign(a) { !(!a >> k) } else { a >> k } }
    }
}

// The last bit that leaves.
fn last_bit(op: ShiftOp, a: u32, k: u32) -> bool
    requires some { 0 < k }
    requires small { k < 32 }
    ensures { result ≡ shift_carry op a k }
{
    match op {
        ShiftOp::Left => (a >> (32 - k)) % 2 == 1,
        ShiftOp::Right | ShiftOp::Arithmetic => (a >> (k - 1)) % 2 == 1,
    }
}

// Whether a shift by 1 changes the sign.
fn changes_sign(op: ShiftOp, a: u32) -> bool
    ensures { result ≡ shift_overflow op a }
{
    match op {
        ShiftOp::Left => differ(sign(a), sign(a << 1)),
        ShiftOp::Right => sign(a),
        ShiftOp::Arithmetic => false,
    }
}

fn of_shift(old: Flags, op: ShiftOp, a: u32, k: u32) -> Flags
    requires { k < 32 }
    ensures { result ≡ shift_flags old op a k }
{
    if k == 0 {
        return old;
    }
    let overflow = if k == 1 { changes_sign(op, a) } else { old.of };
    of_result(shifted(op, a, k), last_bit(op, a, k), overflow)
}

/// `shll %cl, rm`, `shrl %cl, rm` and `sarl %cl, rm`
#[tactic(auto, unfolding(crate::specs::Execute::executed))]
pub(crate) fn shift(cpu: &mut Cpu, mem: &mut Regions, op: ShiftOp, rm: Opnd, next: u32) -> Event
    ensures { outcome result cpu.new mem.new ≡ executed cpu.old mem.old (Shift op rm) next }
{
    let at = place_of(cpu, rm);
    let Some(a) = value(cpu, mem, at) else {
        return Event::Signal(11);
    };
    let k = cpu.reg(ECX) % 32;
    let f = of_shift(cpu.flags(), op, a, k);
    store(cpu, mem, at, shifted(op, a, k), f, next)
}
