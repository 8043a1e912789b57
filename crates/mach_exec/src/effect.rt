// The ways in which an instruction goes on.
ghost use Rattle.std.specs.Prelude.{◌≡◌};
ghost use Rattle.mach_exec.specs.Operand.{with_reg, with_flags, at_next};
ghost use Rattle.mach_exec.specs.Effect.{outcome, storing, storing8, storing16, pushing};

use crate::flags::Flags;
use crate::operand::Place;
use crate::{Cpu, Event};
use mach_mem::Regions;

pub(crate) const EAX: u8 = 0;

pub(crate) const ECX: u8 = 1;

pub(crate) const EDX: u8 = 2;

pub(crate) const ESP: u8 = 4;

pub(crate) const EBP: u8 = 5;

pub(crate) const ESI: u8 = 6;

pub(crate) const EDI: u8 = 7;

/// On to the next instruction.
pub(crate) fn go_on(cpu: &mut Cpu, next: u32) -> Event
    ensures event { result ≡ Event.Next }
    ensures cpu { cpu.new ≡ at_next cpu.old next }
{
    cpu.eip = next;
    Event::Next
}

/// Sets a register, and goes on.
pub(crate) fn set(cpu: &mut Cpu, r: u8, v: u32, next: u32) -> Event
    ensures event { result ≡ Event.Next }
    ensures cpu { cpu.new ≡ with_reg (at_next cpu.old next) r v }
{
    cpu.set_reg(r, v);
    go_on(cpu, next)
}

/// Puts a number into a place, sets the flags, and goes on.
pub(crate) fn store(
    cpu: &mut Cpu,
    mem: &mut Regions,
    at: Place,
    v: u32,
    f: Flags,
    next: u32,
) -> Event
    ensures { outcome result cpu.new mem.new ≡ storing cpu.old mem.old at v (with_flags (at_next cpu.old next) f) }
{
    match at {
        Place::Register(r) => cpu.set_reg(r, v),
        Place::Memory(at) => {
            if !mem.write32(at, v) {
                return Event::Signal(11);
            }
        }
    }
    cpu.set_flags(f);
    go_on(cpu, next)
}

/// Puts a number of 16 bits into a place, and goes on.
pub(crate) fn store16(cpu: &mut Cpu, mem: &mut Regions, at: Place, w: u16, next: u32) -> Event
    ensures { outcome result cpu.new mem.new ≡ storing16 cpu.old mem.old at w (at_next cpu.old next) }
{
    match at {
        Place::Register(r) => cpu.set_reg16(r, w),
        Place::Memory(at) => {
            if !mem.write16(at, w) {
                return Event::Signal(11);
            }
        }
    }
    go_on(cpu, next)
}

/// Puts a byte into a place, and goes on.
pub(crate) fn store8(cpu: &mut Cpu, mem: &mut Regions, at: Place, b: u8, next: u32) -> Event
    ensures { outcome result cpu.new mem.new ≡ storing8 cpu.old mem.old at b (at_next cpu.old next) }
{
    match at {
        Place::Register(r) => cpu.set_reg8(r, b),
        Place::Memory(at) => {
            if !mem.write8(at, b) {
                return Event::Signal(11);
            }
        }
    }
    go_on(cpu, next)
}

/// Pushes a number, and goes on at `next`.
pub(crate) fn push(cpu: &mut Cpu, mem: &mut Regions, v: u32, next: u32) -> Event
    ensures { outcome result cpu.new mem.new ≡ pushing cpu.old mem.old v (at_next cpu.old next) }
{
    let top = cpu.reg(ESP).wrapping_sub(4);
    if !mem.write32(top, v) {
        return Event::Signal(11);
    }
    set(cpu, ESP, top, next)
}
