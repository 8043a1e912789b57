// What no clause says: that the step is a program that ends, on instructions of several rows.
use mach_exec::{Cpu, Event, step};
use mach_mem::{Regions, read32};
use std::test::Fail;

fn cpu_at(eip: u32) -> Cpu {
    Cpu {
        regs: [0, 0, 0, 0, 0x8000_0000, 0, 0, 0],
        eip,
        cf: false,
        zf: false,
        sf: false,
        of: false,
    }
}

#[test]
fn a_number_is_pushed_and_the_system_is_called(rt: HostRuntime) -> Result<(), Fail> {
    let text = [
        0x68, 4, 3, 2, 1, 0xB8, 1, 0, 0, 0, 0x9A, 0, 0, 0, 0, 7, 0, 0x90,
    ];
    let mut memory = Regions::new(rt.alloc(), &text, &[], 0)?;
    let mut cpu = cpu_at(0x10000);
    assert!(rt; matches!(step(&mut cpu, &mut memory), Event::Next));
    assert_eq!(rt; read32(&memory, 0x7FFF_FFFC), Some(0x01020304));
    assert_eq!(rt; cpu.regs[4], 0x7FFF_FFFC);
    assert!(rt; matches!(step(&mut cpu, &mut memory), Event::Next));
    assert_eq!(rt; cpu.regs[0], 1);
    assert!(rt; matches!(step(&mut cpu, &mut memory), Event::System));
    assert_eq!(rt; cpu.eip, 0x10011);
    assert!(rt; matches!(step(&mut cpu, &mut memory), Event::Next));
    assert!(rt; matches!(step(&mut cpu, &mut memory), Event::Signal(11)));
    Ok(())
}

#[test]
fn two_numbers_are_added_and_filled(rt: HostRuntime) -> Result<(), Fail> {
    // addl $0x7FFFFFFF, %eax; jo to the next; rep stosb; idivl %ecx
    let text = [
        0x81, 0xC0, 0xFF, 0xFF, 0xFF, 0x7F, 0x70, 0, 0xF3, 0xAA, 0xF7, 0xF9,
    ];
    let mut memory = Regions::new(rt.alloc(), &text, &[], 0)?;
    let mut cpu = cpu_at(0x10000);
    cpu.regs[0] = 1;
    cpu.regs[1] = 4;
    cpu.regs[7] = 0x7FFF_FFFC;
    assert!(rt; matches!(step(&mut cpu, &mut memory), Event::Next));
    assert_eq!(rt; cpu.regs[0], 0x8000_0000);
    assert!(rt; cpu.of && cpu.sf && !cpu.cf && !cpu.zf);
    cpu.regs[0] = 0x8000_00AB;
    assert!(rt; matches!(step(&mut cpu, &mut memory), Event::Next));
    assert!(rt; matches!(step(&mut cpu, &mut memory), Event::Next));
    assert_eq!(rt; read32(&memory, 0x7FFF_FFFC), Some(0xABAB_ABAB));
    assert_eq!(rt; cpu.regs[7], 0x8000_0000);
    assert!(rt; matches!(step(&mut cpu, &mut memory), Event::Signal(8)));
    Ok(())
}
