// A process on the machine: its instructions one after the other, and its system calls performed.
ghost use Rattle.std.specs.Prelude.{◌≡◌, ◌≤◌, ◌++◌, ℕ, [], List, IfOk, OnOk, OnErr, None};
ghost use Rattle.mach_exec.specs.System.{Called, argument, called, with_cf};
ghost use Rattle.mach_exec.specs.Operand.{with_reg};
ghost use Rattle.mach_exec.specs.Registers.{eax};
ghost use Rattle.mach_exec.specs.Strings.{bytes_from};
ghost use Rattle.mach_exec.specs.Process.{Process, Goes, advanced};
ghost use Rattle.outside.specs.Causes.{Rose};
ghost use Rattle.subject.specs.Output.{Moves, GainsFront};
ghost use Rattle.subject.specs.Process.{process_at, exit_status, cpu_behind, output_of, by_place, exit_called, transfer_called, read_called, write_called, written, progressed, StopsBefore, StopsWith, Breaks};

use crate::output::Output;
use mach_exec::{Cpu, Event, can_read_all, step};
use mach_mem::{Mem, Regions, read32};
use outside::{Failed, Sink};

// The places of registers.
const EAX: usize = 0;

const ESP: usize = 4;

// The signal of a breakpoint that nobody set.
const TRAPPED: u8 = 5;

// The errors of system calls: no such descriptor, a place that can't be reached, no such call.
const BAD_DESCRIPTOR: u32 = 9;

const BAD_PLACE: u32 = 14;

const BAD_CALL: u32 = 22;

// The most bytes of one write.
const MOST: u32 = 4096;

/// How a process has stopped.
#[derive(Debug, Drop)]
pub enum Halt {
    /// It exited with this status.
    Exited(u8),
    /// This signal ended it.
    Raised(u8),
    /// It has executed as many instructions as it may, and goes on.
    Spent,
}

// What one instruction led to.
#[derive(Debug, Drop)]
enum Progress {
    Goes,
    Exits(u8),
    Raises(u8),
}

// A system call returns: a number in eax, which is an error where CF is set.
fn give(cpu: &mut Cpu, number: u32, failed: bool)
    ensures { cpu.new ≡ with_cf (with_reg cpu.old eax number) failed }
{
    cpu.regs[EAX] = number;
    cpu.cf = failed;
}

// An argument of a system call, which stands so many bytes above esp.
fn argument(cpu: &Cpu, memory: &Regions, at: u32) -> Option<u32>
    ensures { result ≡ argument cpu.now memory.now at }
{
    read32(memory, cpu.regs[ESP].wrapping_add(at))
}

// The place and the number of bytes of a read or write, or the error with which it fails.
fn place(cpu: &Cpu, memory: &Regions, descriptor: u32) -> Result<(u32, u32), u32>
    ensures { (f : ℕ → ℕ → Called) → transfer_called cpu.now memory.now descriptor f ≡ by_place cpu.now memory.now result f }
{
    let Some(given) = argument(cpu, memory, 4) else {
        return Err(BAD_PLACE);
    };
    let Some(at) = argument(cpu, memory, 8) else {
        return Err(BAD_PLACE);
    };
    let Some(count) = argument(cpu, memory, 12) else {
        return Err(BAD_PLACE);
    };
    if given == descriptor {
        Ok((at, count))
    } else {
        Err(BAD_DESCRIPTOR)
    }
}

// Puts out the bytes from a place on.
fn put_bytes<S: Sink>(
    memory: &Regions,
    at: u32,
    count: u32,
    output: &mut Output,
    out: &mut S,
) -> Result<(), Failed>
    ensures moved { OnOk result (Moves (S.held out.old) (S.held out.new) output.old output.new (bytes_from memory.now at count)) }
    ensures front { OnErr result (GainsFront (S.held out.old) (S.held out.new) (output.old ++ bytes_from memory.now at count)) }
    ensures later { S.faults out.old ≤ S.faults out.new }
    ensures failed { OnErr result (Rose (S.faults out.old) (S.faults out.new)) }
{
    for k in 0..count {
        let byte = memory.read8(at.wrapping_add(k)).unwrap_or(0);
        output.push(out, byte)?;
    }
    Ok(())
}

// The status of an exit, unless it fails.
fn exit(cpu: &mut Cpu, memory: &Regions) -> Option<u8>
    ensures status { result ≡ exit_status (exit_called cpu.old memory.now) }
    ensures cpu { cpu.new ≡ cpu_behind cpu.old (exit_called cpu.old memory.now) }
{
    match argument(cpu, memory, 4) {
        Some(status) => Some((status % 256) as u8),
        None => {
            give(cpu, BAD_PLACE, true);
            None
        }
    }
}

// A read, which finds no input.
fn read(cpu: &mut Cpu, memory: &Regions)
    ensures { cpu.new ≡ cpu_behind cpu.old (read_called cpu.old memory.now) }
{
    match place(cpu, memory, 0) {
        Ok(_) => give(cpu, 0, false),
        Err(error) => give(cpu, error, true),
    }
}

// A write.
fn write<S: Sink>(
    cpu: &mut Cpu,
    memory: &Regions,
    output: &mut Output,
    out: &mut S,
) -> Result<(), Failed>
    ensures cpu { OnOk result (cpu.new ≡ cpu_behind cpu.old (write_called cpu.old memory.now)) }
    ensures moved { OnOk result (Moves (S.held out.old) (S.held out.new) output.old output.new (output_of (write_called cpu.old memory.now))) }
    ensures front { OnErr result (GainsFront (S.held out.old) (S.held out.new) (output.old ++ output_of (write_called cpu.old memory.now))) }
    ensures later { S.faults out.old ≤ S.faults out.new }
    ensures failed { OnErr result (Rose (S.faults out.old) (S.faults out.new)) }
{
    match place(cpu, memory, 1) {
        Ok((at, count)) => {
            let count = count.min(MOST);
            if can_read_all(memory, at, count) {
                put_bytes(memory, at, count, output, out)?;
                give(cpu, count, false);
            } else {
                give(cpu, BAD_PLACE, true);
            }
        }
        Err(error) => give(cpu, error, true),
    }
    Ok(())
}

// Performs the system call whose number is in eax. The answer is the status of an exit.
#[tactic(auto, unfolding(mach_exec::specs::System::called))]
fn perform<S: Sink>(
    cpu: &mut Cpu,
    memory: &Regions,
    output: &mut Output,
    out: &mut S,
) -> Result<Option<u8>, Failed>
    ensures status { IfOk result (λ s. s ≡ exit_status (called cpu.old memory.now [])) }
    ensures cpu { OnOk result (cpu.new ≡ cpu_behind cpu.old (called cpu.old memory.now [])) }
    ensures moved { OnOk result (Moves (S.held out.old) (S.held out.new) output.old output.new (output_of (called cpu.old memory.now []))) }
    ensures returns { OnErr result (exit_status (called cpu.old memory.now []) ≡ None) }
    ensures front { OnErr result (GainsFront (S.held out.old) (S.held out.new) (output.old ++ output_of (called cpu.old memory.now []))) }
    ensures later { S.faults out.old ≤ S.faults out.new }
    ensures failed { OnErr result (Rose (S.faults out.old) (S.faults out.new)) }
{
    match cpu.regs[EAX] {
        1 => return Ok(exit(cpu, memory)),
        3 => read(cpu, memory),
        4 => write(cpu, memory, output, out)?,
        _ => give(cpu, BAD_CALL, true),
    }
    Ok(None)
}

// One instruction, and the system call that it asks for.
fn advance<S: Sink>(
    cpu: &mut Cpu,
    memory: &mut Regions,
    output: &mut Output,
    out: &mut S,
) -> Result<Progress, Failed>
    ensures progress { IfOk result (λ p. (before : List ℕ) → advanced (process_at cpu.old memory.old before) ≡ progressed p (process_at cpu.new memory.new (before ++ written cpu.old memory.old))) }
    ensures moved { OnOk result (Moves (S.held out.old) (S.held out.new) output.old output.new (written cpu.old memory.old)) }
    ensures writes { OnErr result ((before : List ℕ) → (p : Process) × (advanced (process_at cpu.old memory.old before) ≡ Goes p) × (p.output ≡ before ++ written cpu.old memory.old)) }
    ensures front { OnErr result (GainsFront (S.held out.old) (S.held out.new) (output.old ++ written cpu.old memory.old)) }
    ensures later { S.faults out.old ≤ S.faults out.new }
    ensures failed { OnErr result (Rose (S.faults out.old) (S.faults out.new)) }
{
    match step(cpu, memory) {
        Event::Next => Ok(Progress::Goes),
        Event::System => match perform(cpu, memory, output, out)? {
            Some(status) => Ok(Progress::Exits(status)),
            None => Ok(Progress::Goes),
        },
        Event::Trap => Ok(Progress::Raises(TRAPPED)),
        Event::Signal(signal) => Ok(Progress::Raises(signal)),
    }
}

// Executes the process until it stops.
fn run_on<S: Sink>(
    cpu: &mut Cpu,
    memory: &mut Regions,
    most: u64,
    output: &mut Output,
    out: &mut S,
) -> Result<Halt, Failed>
    requires none_waits { output.old ≡ [] }
    ensures stops { IfOk result (λ h. StopsBefore (process_at cpu.old memory.old []) most (S.held out.old) (S.held out.new) output.new h) }
    ensures breaks { OnErr result (Breaks (process_at cpu.old memory.old []) most (S.held out.old) (S.held out.new)) }
    ensures later { S.faults out.old ≤ S.faults out.new }
    ensures failed { OnErr result (Rose (S.faults out.old) (S.faults out.new)) }
{
    for _done in 0..most {
        match advance(cpu, memory, output, out)? {
            Progress::Goes => {}
            Progress::Exits(status) => return Ok(Halt::Exited(status)),
            Progress::Raises(signal) => return Ok(Halt::Raised(signal)),
        }
    }
    Ok(Halt::Spent)
}

/// Executes the process with these registers and this memory and without input, until it exits, a
/// signal ends it, or it has executed `most` instructions. Its output goes to `out`, to the last
/// byte. `Failed` comes only where the count of `out` rose, and `out` then gained a front of the
/// output.
pub fn execute<S: Sink>(
    cpu: &mut Cpu,
    memory: &mut Regions,
    most: u64,
    out: &mut S,
) -> Result<Halt, Failed>
    ensures stops { IfOk result (λ h. StopsWith (process_at cpu.old memory.old []) most (S.held out.old) (S.held out.new) h) }
    ensures breaks { OnErr result (Breaks (process_at cpu.old memory.old []) most (S.held out.old) (S.held out.new)) }
    ensures later { S.faults out.old ≤ S.faults out.new }
    ensures failed { OnErr result (Rose (S.faults out.old) (S.faults out.new)) }
{
    let mut output = Output::new();
    let halt = run_on(cpu, memory, most, &mut output, out)?;
    output.drain(out)?;
    Ok(halt)
}
