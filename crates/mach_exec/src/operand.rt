// Registers, and the operands that an instruction names.
ghost use Rattle.std.specs.Prelude.{◌≡◌, ◌<◌, ◌≤◌, IsTrue, IsFalse};
ghost use Rattle.mach_mem.specs.Space.{byte_at};
ghost use Rattle.mach_exec.specs.Operand.{reg, with_reg, reg8, with_reg8, reg16, with_reg16, flags, with_flags, base_part, index_part, address, place_of, address_of, value, value16, value8};

use crate::Cpu;
use crate::flags::Flags;
use isa386::Opnd;
use mach_mem::{Mem, Regions, read16, read32};

/// A register by its number, or memory from an address on.
#[derive(Clone, Copy)]
pub(crate) enum Place {
    Register(u8),
    Memory(u32),
}

impl Cpu {
    pub(crate) fn reg(&self, r: u8) -> u32
        ensures { result ≡ reg self.now r }
    {
        self.regs[(r % 8) as usize]
    }

    pub(crate) fn set_reg(&mut self, r: u8, v: u32)
        ensures { self.new ≡ with_reg self.old r v }
    {
        self.regs[(r % 8) as usize] = v;
    }

    pub(crate) fn reg8(&self, r: u8) -> u8
        ensures { result ≡ reg8 self.now r }
    {
        if r < 4 {
            (self.reg(r) % 256) as u8
        } else {
            (self.reg(r - 4) / 256 % 256) as u8
        }
    }

    pub(crate) fn set_reg8(&mut self, r: u8, b: u8)
        ensures { self.new ≡ with_reg8 self.old r b }
    {
        if r < 4 {
            let v = self.reg(r) / 256 * 256 + u32::from(b);
            self.set_reg(r, v);
        } else {
            let v = self.reg(r - 4);
            self.set_reg(r - 4, v / 65536 * 65536 + u32::from(b) * 256 + v % 256);
        }
    }

    pub(crate) fn reg16(&self, r: u8) -> u16
        ensures { result ≡ reg16 self.now r }
    {
        (self.reg(r) % 65536) as u16
    }

    pub(crate) fn set_reg16(&mut self, r: u8, w: u16)
        ensures { self.new ≡ with_reg16 self.old r w }
    {
        let v = self.reg(r) / 65536 * 65536 + u32::from(w);
        self.set_reg(r, v);
    }

    pub(crate) fn flags(&self) -> Flags
        ensures { result ≡ flags self.now }
    {
        Flags {
            cf: self.cf,
            zf: self.zf,
            sf: self.sf,
            of: self.of,
        }
    }

    pub(crate) fn set_flags(&mut self, f: Flags)
        ensures { self.new ≡ with_flags self.old f }
    {
        self.cf = f.cf;
        self.zf = f.zf;
        self.sf = f.sf;
        self.of = f.of;
    }
}

fn base_part(cpu: &Cpu, base: Option<u8>) -> u32
    ensures { result ≡ base_part cpu.now base }
{
    match base {
        None => 0,
        Some(r) => cpu.reg(r),
    }
}

fn index_part(cpu: &Cpu, index: Option<(u8, u8)>) -> u32
    ensures { result ≡ index_part cpu.now index }
{
    match index {
        None => 0,
        Some((r, scale)) => { if r == 4 { 0 } else { cpu.reg(r) << (scale % 4) } }
    }
}

/// Where an operand lies.
pub(crate) fn place_of(cpu: &Cpu, rm: Opnd) -> Place
    ensures { result ≡ place_of cpu.now rm }
{
    match rm {
        Opnd::Reg(r) => Place::Register(r),
        Opnd::Mem {
            base,
            index,
            disp,
            ..
        } => {
            let sum = base_part(cpu, base).wrapping_add(index_part(cpu, index));
            Place::Memory(sum.wrapping_add(disp.cast_unsigned()))
        }
    }
}

/// The number in a place; `None` exactly where one of its bytes lies outside the regions.
pub(crate) fn value(cpu: &Cpu, mem: &Regions, at: Place) -> Option<u32>
    ensures { result ≡ value cpu.now mem.now at }
{
    match at {
        Place::Register(r) => Some(cpu.reg(r)),
        Place::Memory(at) => read32(mem, at),
    }
}

/// The same of 16 bits.
pub(crate) fn value16(cpu: &Cpu, mem: &Regions, at: Place) -> Option<u16>
    ensures { result ≡ value16 cpu.now mem.now at }
{
    match at {
        Place::Register(r) => Some(cpu.reg16(r)),
        Place::Memory(at) => read16(mem, at),
    }
}

/// The same of a byte.
pub(crate) fn value8(cpu: &Cpu, mem: &Regions, at: Place) -> Option<u8>
    ensures { result ≡ value8 cpu.now mem.now at }
{
    match at {
        Place::Register(r) => Some(cpu.reg8(r)),
        Place::Memory(at) => mem.read8(at),
    }
}

/// The address of an operand in memory.
pub(crate) fn address_of(at: Place) -> u32
    ensures { result ≡ address_of at }
{
    match at {
        Place::Register(r) => u32::from(r),
        Place::Memory(at) => at,
    }
}
