// Repeated moves and fills of bytes.
ghost use Rattle.std.specs.Prelude.{◌≡◌};
ghost use Rattle.mach_mem.specs.Space.{is_writable};
ghost use Rattle.isa386.specs.declared.Ins.TheVariants.{Str};
ghost use Rattle.mach_exec.specs.Strings.{is_readable, each_byte, copied, filled};
ghost use Rattle.mach_exec.specs.Effect.{outcome};
ghost use Rattle.mach_exec.specs.Execute.{moving, filling, executed};

use crate::effect::{EAX, ECX, EDI, ESI, go_on, set};
use crate::{Cpu, Event};
use isa386::StringOp;
use mach_mem::{Mem, Regions};

/// Whether each of the n bytes from an address on can be read. Addresses wrap.
#[tactic(auto, using(crate::proofs::EachByte::each_byte_steps))]
pub fn can_read_all(mem: &Regions, at: u32, n: u32) -> bool
    ensures { result ≡ each_byte (is_readable mem.now) at n }
{
    for k in 0..n {
        if mem.read8(at.wrapping_add(k)).is_none() {
            return false;
        }
    }
    true
}

#[tactic(auto, using(crate::proofs::EachByte::each_byte_steps))]
fn can_write_all(mem: &Regions, at: u32, n: u32) -> bool
    ensures { result ≡ each_byte (is_writable mem.now) at n }
{
    for k in 0..n {
        if !mem.can_write(at.wrapping_add(k)) {
            return false;
        }
    }
    true
}

// Moves bytes one after the other, from the lowest address on.
#[tactic(auto, using(crate::proofs::EachByte::moves))]
fn copy_up(mem: &mut Regions, from: u32, to: u32, n: u32)
    ensures { mem.new ≡ copied mem.old from to n }
{
    for k in 0..n {
        let b = mem.read8(from.wrapping_add(k)).unwrap_or(0);
        mem.write8(to.wrapping_add(k), b);
    }
}

#[tactic(auto, using(crate::proofs::EachByte::moves))]
fn fill(mem: &mut Regions, at: u32, b: u8, n: u32)
    ensures { mem.new ≡ filled mem.old at b n }
{
    for k in 0..n {
        mem.write8(at.wrapping_add(k), b);
    }
}

fn move_bytes(cpu: &mut Cpu, mem: &mut Regions, next: u32) -> Event
    ensures { outcome result cpu.new mem.new ≡ moving cpu.old mem.old next }
{
    let n = cpu.reg(ECX);
    let from = cpu.reg(ESI);
    let to = cpu.reg(EDI);
    if !(can_read_all(mem, from, n) && can_write_all(mem, to, n)) {
        return Event::Signal(11);
    }
    copy_up(mem, from, to, n);
    cpu.set_reg(ECX, 0);
    cpu.set_reg(ESI, from.wrapping_add(n));
    set(cpu, EDI, to.wrapping_add(n), next)
}

fn fill_bytes(cpu: &mut Cpu, mem: &mut Regions, next: u32) -> Event
    ensures { outcome result cpu.new mem.new ≡ filling cpu.old mem.old next }
{
    let n = cpu.reg(ECX);
    let at = cpu.reg(EDI);
    if !can_write_all(mem, at, n) {
        return Event::Signal(11);
    }
    let b = cpu.reg8(EAX);
    fill(mem, at, b, n);
    cpu.set_reg(ECX, 0);
    set(cpu, EDI, at.wrapping_add(n), next)
}

/// `rep movsb`, `rep stosb` and `cld`
#[tactic(auto, unfolding(crate::specs::Execute::executed))]
pub(crate) fn string(cpu: &mut Cpu, mem: &mut Regions, op: StringOp, next: u32) -> Event
    ensures { outcome result cpu.new mem.new ≡ executed cpu.old mem.old (Str op) next }
{
    match op {
        StringOp::RepMovsb => move_bytes(cpu, mem, next),
        StringOp::RepStosb => fill_bytes(cpu, mem, next),
        StringOp::Cld => go_on(cpu, next),
    }
}
