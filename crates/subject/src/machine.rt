// A program on the machine.
ghost use Rattle.std.specs.Prelude.{◌≡◌, ◌≤◌, IsErrOf, length};
ghost use Rattle.mach_mem.specs.Addresses.{text_room};
ghost use Rattle.outside.specs.Causes.{Rose};
ghost use Rattle.subject.specs.RunsText.{RunsText};

use crate::process::{Halt, execute};
use mach_exec::Cpu;
use mach_mem::Regions;
use outside::Sink;
use std::alloc::Global;

// The first address of .text.
const TEXT_START: u32 = 0x1_0000;

// The address behind the stack.
const STACK_END: u32 = 0x8000_0000;

/// Why a program didn't run to where it stops.
#[derive(Debug, Drop)]
pub enum Stuck {
    /// A write failed.
    WriteFault,
    /// Memory was wanting.
    Memory,
}

/// Runs the program of these bytes of .text, without statics, for at most `most` instructions.
pub fn run_text<S: Sink>(alloc: Global, text: &[u8], most: u64, out: &mut S) -> Result<Halt, Stuck>
    requires fits { length text.now ≤ text_room }
    ensures runs { RunsText text.now most (S.held out.old) (S.held out.new) result }
    ensures later { S.faults out.old ≤ S.faults out.new }
    ensures failed { IsErrOf result Stuck.WriteFault → Rose (S.faults out.old) (S.faults out.new) }
{
    let Ok(mut memory) = Regions::new(alloc, text, &[], 0) else {
        return Err(Stuck::Memory);
    };
    let mut cpu = Cpu {
        regs: [0, 0, 0, 0, STACK_END, 0, 0, 0],
        eip: TEXT_START,
        cf: false,
        zf: false,
        sf: false,
        of: false,
    };
    match execute(&mut cpu, &mut memory, most, out) {
        Ok(halt) => Ok(halt),
        Err(_) => Err(Stuck::WriteFault),
    }
}
