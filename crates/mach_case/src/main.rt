//! Executes one instruction of each case on standard input, so that the 386 can be compared with another.
//!
//! A case is a line of words in hexadecimal: the bytes of the instruction, which stands at 0x10000 at
//! the end of .text; eax, ecx, edx, ebx, esp, ebp, esi, edi; the flags as eflags holds them; and the
//! bytes from 0x400000 on, behind which zeros stand up to 0x401000. The answer is a line: `next`,
//! `trap`, `system` or `signal`, the signal's number or 0, the registers, eip, the flags, and the bytes.
#![tactic(auto)]

use anyhow::{Context, Result, ensure};
use mach_exec::{Cpu, Event, step};
use mach_mem::{Mem, Regions};
use std::alloc::{AllocError, Global};
use std::fmt::Write;
use std::str::SplitWhitespace;

const TEXT: u32 = 0x10000;

const STATICS: u32 = 0x400000;

// The statics of a case end where a page ends.
const PAGE: usize = 4096;

// The flags as eflags holds them.
const CARRY: u32 = 0x001;

const ZERO: u32 = 0x040;

const SIGN: u32 = 0x080;

const OVERFLOW: u32 = 0x800;

#[derive(Drop)]
struct Case {
    cpu: Cpu,
    code: Vec<u8>,
    statics: Vec<u8>,
}

fn next_number(words: &mut SplitWhitespace<'_>) -> Result<u32> {
    let word = words.next().context("a number is missing")?;
    Ok(u32::from_str_radix(word, 16)?)
}

fn next_bytes(alloc: Global, words: &mut SplitWhitespace<'_>) -> Result<Vec<u8>> {
    let word = words.next().context("bytes are missing")?;
    let mut bytes = Vec::new(alloc);
    for pair in word.as_bytes().chunks(2) {
        let mut byte = 0u32;
        for digit in pair {
            let value = char::from(*digit).to_digit(16).context("no digit")?;
            byte = byte.wrapping_mul(16).wrapping_add(value);
        }
        bytes.push((byte % 256) as u8)?;
    }
    Ok(bytes)
}

fn next_registers(words: &mut SplitWhitespace<'_>) -> Result<[u32; 8]> {
    let mut regs = [0; 8];
    for k in 0..8 {
        regs[k] = next_number(words)?;
    }
    Ok(regs)
}

fn has(flags: u32, flag: u32) -> bool {
    flags & flag != 0
}

fn flags_of(cpu: &Cpu) -> u32 {
    let carry = if cpu.cf { CARRY } else { 0 };
    let zero = if cpu.zf { ZERO } else { 0 };
    let sign = if cpu.sf { SIGN } else { 0 };
    let overflow = if cpu.of { OVERFLOW } else { 0 };
    carry | zero | sign | overflow
}

fn put_event(text: &mut String, event: &Event) -> Result<(), AllocError> {
    match event {
        Event::Next => text.push_str("next 0"),
        Event::Trap => text.push_str("trap 0"),
        Event::System => text.push_str("system 0"),
        Event::Signal(n) => write!(text, "signal {n}"),
    }
}

fn memory_of(alloc: Global, code: &[u8], statics: &[u8]) -> Result<Regions> {
    ensure!(code.len() <= PAGE, "too long an instruction");
    ensure!(statics.len() <= PAGE, "too many bytes");
    let rest = PAGE - statics.len();
    Ok(Regions::new(alloc, code, statics, rest as u32)?)
}

impl Case {
    /// The case of a line.
    fn read(alloc: Global, line: &str) -> Result<Case> {
        let mut words = line.split_whitespace();
        let code = next_bytes(alloc, &mut words)?;
        let regs = next_registers(&mut words)?;
        let flags = next_number(&mut words)?;
        let statics = next_bytes(alloc, &mut words)?;
        Ok(Case {
            cpu: Cpu {
                regs,
                eip: TEXT,
                cf: has(flags, CARRY),
                zf: has(flags, ZERO),
                sf: has(flags, SIGN),
                of: has(flags, OVERFLOW),
            },
            code,
            statics,
        })
    }

    /// What the instruction leaves, as a line.
    fn run(mut self, alloc: Global) -> Result<String> {
        let mut memory = memory_of(alloc, &self.code, &self.statics)?;
        let event = step(&mut self.cpu, &mut memory);
        let mut text = String::new(alloc);
        put_event(&mut text, &event)?;
        for v in self.cpu.regs {
            write!(&mut text, " {v:08x}")?;
        }
        let eip = self.cpu.eip;
        let flags = flags_of(&self.cpu);
        write!(&mut text, " {eip:08x} {flags:03x} ")?;
        for k in 0..self.statics.len() {
            let byte = memory
                .read8(STATICS.wrapping_add((k % PAGE) as u32))
                .unwrap_or(0);
            write!(&mut text, "{byte:02x}")?;
        }
        Ok(text)
    }
}

fn main(rt: HostRuntime) -> anyhow::Result<()> {
    for line in rt.lines(rt.alloc()) {
        let case = Case::read(rt.alloc(), line?.as_str())?;
        let text = case.run(rt.alloc())?;
        println!(rt; "{text}")?;
    }
    Ok(())
}
