// One instruction.
ghost use Rattle.std.specs.Prelude.{◌≡◌, ◌<◌, ◌≤◌};
ghost use Rattle.mach_exec.specs.Effect.{Outcome, outcome};
ghost use Rattle.mach_exec.specs.Step.{text_from, decided, stepped, Steps};

use crate::execute::execute;
use isa_dec::{Dec, decode};
use mach_mem::Regions;

const TEXT: u32 = 0x10000;

/// The registers and flags.
#[derive(Drop)]
pub struct Cpu {
    /// eax, ecx, edx, ebx, esp, ebp, esi, edi.
    pub regs: [u32; 8],
    /// The address of the next instruction.
    pub eip: u32,
    /// Carry.
    pub cf: bool,
    /// Zero.
    pub zf: bool,
    /// Sign.
    pub sf: bool,
    /// Overflow.
    pub of: bool,
}

/// What a step ends with.
#[derive(Debug, Drop)]
pub enum Event {
    /// The instruction was executed.
    Next,
    /// A breakpoint: eip is past it, and nothing else has changed.
    Trap,
    /// A system call: eip is past it, and nothing else has changed.
    System,
    /// This signal, with nothing changed: 4 for bytes that are no instruction, 8 for a division that has
    /// no quotient of 32 bits, 11 for memory that can't be fetched, read or written.
    Signal(u8),
}

// The bytes of .text from this address on, none outside it.
fn bytes_from(mem: &Regions, at: u32) -> &[u8]
    ensures { result.now ≡ text_from mem.now at }
{
    let text = mem.text();
    let end = text.len();
    if at < TEXT || (at - TEXT) as usize >= end {
        return &text[end..];
    }
    &text[(at - TEXT) as usize..]
}

/// Executes the instruction at eip, as the 80386 manual describes it. It takes no memory and always
/// returns. A fault in any of its operands leaves everything as it was, a repeated one included.
#[tactic(auto, unfolding(crate::specs::Step::stepped))]
pub fn step(cpu: &mut Cpu, mem: &mut Regions) -> Event
    ensures table { Steps cpu.old mem.old (outcome result cpu.new mem.new) }
    ensures event { result ≡ (stepped cpu.old mem.old).event }
    ensures cpu { cpu.new ≡ (stepped cpu.old mem.old).cpu }
    ensures mem { mem.new ≡ (stepped cpu.old mem.old).mem }
{
    match decode(bytes_from(mem, cpu.eip)) {
        Dec::Short => Event::Signal(11),
        Dec::Unknown => Event::Signal(4),
        Dec::Ins(i, len) => {
            let next = cpu.eip.wrapping_add(u32::from(len));
            execute(cpu, mem, i, next)
        }
    }
}
