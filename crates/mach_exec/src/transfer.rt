// The instructions that move data.
ghost use Rattle.std.specs.Prelude.{◌≡◌};
ghost use Rattle.isa386.specs.declared.Ins.TheVariants.{Move, MoveImm, MoveNarrow, Lea, Stack, Set, Widen};
ghost use Rattle.mach_exec.specs.Operand.{place_of};
ghost use Rattle.mach_exec.specs.Effect.{outcome};
ghost use Rattle.mach_exec.specs.Word.{signed_byte, signed_word};
ghost use Rattle.mach_exec.specs.Execute.{widened, executed};

use crate::effect::{ESP, push, set, store, store8, store16};
use crate::flags::holds;
use crate::operand::{address_of, place_of, value, value8, value16};
use crate::{Cpu, Event};
use isa386::{Cond, Dest, Narrow, Opnd, StackOp, Way, WidenOp};
use mach_mem::{Regions, read32};

/// `movl r, rm` and `movl rm, r`
#[tactic(auto, unfolding(crate::specs::Execute::executed))]
pub(crate) fn transfer(
    cpu: &mut Cpu,
    mem: &mut Regions,
    way: Way,
    r: u8,
    rm: Opnd,
    next: u32,
) -> Event
    ensures { outcome result cpu.new mem.new ≡ executed cpu.old mem.old (Move way r rm) next }
{
    let at = place_of(cpu, rm);
    match way {
        Way::ToOperand => {
            let v = cpu.reg(r);
            let f = cpu.flags();
            store(cpu, mem, at, v, f, next)
        }
        Way::ToRegister => match value(cpu, mem, at) {
            Some(v) => set(cpu, r, v, next),
            None => Event::Signal(11),
        },
    }
}

/// `movl $n, r` and `movl $n, rm`
#[tactic(auto, unfolding(crate::specs::Execute::executed))]
pub(crate) fn transfer_number(
    cpu: &mut Cpu,
    mem: &mut Regions,
    dest: Dest,
    n: u32,
    next: u32,
) -> Event
    ensures { outcome result cpu.new mem.new ≡ executed cpu.old mem.old (MoveImm dest n) next }
{
    match dest {
        Dest::Register(r) => set(cpu, r, n, next),
        Dest::Operand(rm) => {
            let at = place_of(cpu, rm);
            let f = cpu.flags();
            store(cpu, mem, at, n, f, next)
        }
    }
}

/// `movb r8, rm8`, `movb rm8, r8` and `movw r16, rm16`
#[tactic(auto, unfolding(crate::specs::Execute::executed))]
pub(crate) fn transfer_narrow(
    cpu: &mut Cpu,
    mem: &mut Regions,
    op: Narrow,
    r: u8,
    rm: Opnd,
    next: u32,
) -> Event
    ensures { outcome result cpu.new mem.new ≡ executed cpu.old mem.old (MoveNarrow op r rm) next }
{
    let at = place_of(cpu, rm);
    match op {
        Narrow::ByteToOperand => {
            let b = cpu.reg8(r);
            store8(cpu, mem, at, b, next)
        }
        Narrow::ByteToRegister => match value8(cpu, mem, at) {
            Some(b) => {
                cpu.set_reg8(r, b);
                cpu.eip = next;
                Event::Next
            }
            None => Event::Signal(11),
        },
        Narrow::WordToOperand => {
            let w = cpu.reg16(r);
            store16(cpu, mem, at, w, next)
        }
    }
}

/// `leal m, r`
#[tactic(auto, unfolding(crate::specs::Execute::executed))]
pub(crate) fn load_address(cpu: &mut Cpu, mem: &Regions, r: u8, rm: Opnd, next: u32) -> Event
    ensures { outcome result cpu.new mem.now ≡ executed cpu.old mem.now (Lea r rm) next }
{
    let at = address_of(place_of(cpu, rm));
    set(cpu, r, at, next)
}

/// `pushl r`, `pushl $n` and `popl r`
#[tactic(auto, unfolding(crate::specs::Execute::executed))]
pub(crate) fn on_stack(cpu: &mut Cpu, mem: &mut Regions, op: StackOp, next: u32) -> Event
    ensures { outcome result cpu.new mem.new ≡ executed cpu.old mem.old (Stack op) next }
{
    match op {
        StackOp::Push(r) => {
            let v = cpu.reg(r);
            push(cpu, mem, v, next)
        }
        StackOp::PushImm(n) => push(cpu, mem, n, next),
        StackOp::Pop(r) => {
            let top = cpu.reg(ESP);
            match read32(mem, top) {
                Some(v) => {
                    cpu.set_reg(ESP, top.wrapping_add(4));
                    set(cpu, r, v, next)
                }
                None => Event::Signal(11),
            }
        }
    }
}

/// `setcc rm8`
#[tactic(auto, unfolding(crate::specs::Execute::executed))]
pub(crate) fn set_byte(
    cpu: &mut Cpu,
    mem: &mut Regions,
    condition: Cond,
    rm: Opnd,
    next: u32,
) -> Event
    ensures { outcome result cpu.new mem.new ≡ executed cpu.old mem.old (Set condition rm) next }
{
    let at = place_of(cpu, rm);
    let b = if holds(condition, cpu.flags()) { 1 } else { 0 };
    store8(cpu, mem, at, b, next)
}

fn signed_byte(b: u8) -> u32
    ensures { result ≡ signed_byte b }
{
    if b >= 0x80 {
        u32::from(b) + 0xFFFF_FF00
    } else {
        u32::from(b)
    }
}

fn signed_word(w: u16) -> u32
    ensures { result ≡ signed_word w }
{
    if w >= 0x8000 {
        u32::from(w) + 0xFFFF_0000
    } else {
        u32::from(w)
    }
}

// The number that a narrow operand is widened to.
fn widened(cpu: &Cpu, mem: &Regions, op: WidenOp, rm: Opnd) -> Option<u32>
    ensures { result ≡ widened cpu.now mem.now op (place_of cpu.now rm) }
{
    let at = place_of(cpu, rm);
    match op {
        WidenOp::SignedByte => Some(signed_byte(value8(cpu, mem, at)?)),
        WidenOp::SignedWord => Some(signed_word(value16(cpu, mem, at)?)),
        WidenOp::ZeroByte => Some(u32::from(value8(cpu, mem, at)?)),
        WidenOp::ZeroWord => Some(u32::from(value16(cpu, mem, at)?)),
    }
}

/// `movsbl rm, r` and its kind
#[tactic(auto, unfolding(crate::specs::Execute::executed))]
pub(crate) fn widen(cpu: &mut Cpu, mem: &Regions, op: WidenOp, r: u8, rm: Opnd, next: u32) -> Event
    ensures { outcome result cpu.new mem.now ≡ executed cpu.old mem.now (Widen op r rm) next }
{
    match widened(cpu, mem, op, rm) {
        Some(v) => set(cpu, r, v, next),
        None => Event::Signal(11),
    }
}
