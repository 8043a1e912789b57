// Calls, jumps, and the instructions that stop.
ghost use Rattle.std.specs.Prelude.{◌≡◌};
ghost use Rattle.isa386.specs.declared.Ins.TheVariants.{Call, Jump, Branch, Plain};
ghost use Rattle.mach_exec.specs.Effect.{outcome};
ghost use Rattle.mach_exec.specs.Execute.{target, executed};

use crate::effect::{EBP, ESP, go_on, push, set};
use crate::flags::holds;
use crate::operand::{place_of, value};
use crate::{Cpu, Event};
use isa386::{Callee, Cond, PlainOp, Target};
use mach_mem::{Regions, read32};

// The address at a distance from the next instruction.
fn target_of(next: u32, to: Target) -> u32
    ensures { result ≡ target next to }
{
    match to {
        Target::Near(d) => next.wrapping_add(d.cast_unsigned()),
        Target::Short(d) => next.wrapping_add(i32::from(d).cast_unsigned()),
    }
}

/// `call l` and `call *rm`
#[tactic(auto, unfolding(crate::specs::Execute::executed))]
pub(crate) fn call(cpu: &mut Cpu, mem: &mut Regions, callee: Callee, next: u32) -> Event
    ensures { outcome result cpu.new mem.new ≡ executed cpu.old mem.old (Call callee) next }
{
    match callee {
        Callee::Relative(d) => push(cpu, mem, next, next.wrapping_add(d.cast_unsigned())),
        Callee::Indirect(rm) => {
            let at = place_of(cpu, rm);
            match value(cpu, mem, at) {
                Some(to) => push(cpu, mem, next, to),
                None => Event::Signal(11),
            }
        }
    }
}

/// `jmp l`
#[tactic(auto, unfolding(crate::specs::Execute::executed))]
pub(crate) fn jump(cpu: &mut Cpu, mem: &Regions, to: Target, next: u32) -> Event
    ensures { outcome result cpu.new mem.now ≡ executed cpu.old mem.now (Jump to) next }
{
    go_on(cpu, target_of(next, to))
}

/// `jcc l`
#[tactic(auto, unfolding(crate::specs::Execute::executed))]
pub(crate) fn branch(cpu: &mut Cpu, mem: &Regions, condition: Cond, to: Target, next: u32) -> Event
    ensures { outcome result cpu.new mem.now ≡ executed cpu.old mem.now (Branch condition to) next }
{
    if holds(condition, cpu.flags()) {
        go_on(cpu, target_of(next, to))
    } else {
        go_on(cpu, next)
    }
}

/// `ret`, `leave` and `nop`
#[tactic(auto, unfolding(crate::specs::Execute::executed))]
pub(crate) fn plain(cpu: &mut Cpu, mem: &Regions, op: PlainOp, next: u32) -> Event
    ensures { outcome result cpu.new mem.now ≡ executed cpu.old mem.now (Plain op) next }
{
    match op {
        PlainOp::Ret => {
            let top = cpu.reg(ESP);
            match read32(mem, top) {
                Some(v) => set(cpu, ESP, top.wrapping_add(4), v),
                None => Event::Signal(11),
            }
        }
        PlainOp::Leave => {
            let base = cpu.reg(EBP);
            match read32(mem, base) {
                Some(v) => {
                    cpu.set_reg(ESP, base.wrapping_add(4));
                    set(cpu, EBP, v, next)
                }
                None => Event::Signal(11),
            }
        }
        PlainOp::Nop => go_on(cpu, next),
    }
}
