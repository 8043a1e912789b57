use isa_dec::{Dec, decode};
use isa386::{Dest, Dw, Ins, Opnd, PlainOp, Way};
use std::test::Fail;

// By the opcode map: 1 is an instruction of one byte, s begins a longer one, a dot begins none.
const FIRST_BYTES: &[u8; 256] = b".s.s.....s.s...s\
    ................\
    .s.s.....s.s....\
    .s.s.....s.s....\
    ................\
    1111111111111111\
    ......s.s.......\
    ssssssssss..ssss\
    .s...s..ssss.s..\
    1........1s.....\
    ................\
    ........ssssssss\
    ...1...s.1..1...\
    ...s............\
    ........ss.s....\
    ...s...s....1..s";

fn kind(dec: Dec) -> u8 {
    match dec {
        Dec::Ins(_, _) => b'1',
        Dec::Short => b's',
        Dec::Unknown => b'.',
    }
}

#[test]
fn each_first_byte_is_in_the_map(rt: HostRuntime) -> Result<(), Fail> {
    for first in 0..=255u8 {
        assert_eq!(rt;
            kind(decode(&[first])),
            FIRST_BYTES[first as usize],
            "{first}"
        );
    }
    Ok(())
}

#[test]
fn fronts_and_strangers_are_told_apart(rt: HostRuntime) -> Result<(), Fail> {
    assert_eq!(rt; decode(&[]), Dec::Short);
    assert_eq!(rt; decode(&[0x0F]), Dec::Short);
    assert_eq!(rt; decode(&[0x0F, 0x8A]), Dec::Unknown);
    assert_eq!(rt;
        decode(&[0x90, 0x0F]),
        Dec::Ins(Ins::Plain(PlainOp::Nop), 1)
    );
    Ok(())
}

#[test]
fn a_number_is_moved_to_memory(rt: HostRuntime) -> Result<(), Fail> {
    let memory = Opnd::Mem {
        base: None,
        index: None,
        disp: 0x400000,
        width: Dw::D32,
    };
    let ins = Ins::MoveImm(Dest::Operand(memory), 7);
    let bytes = [0xC7, 0x05, 0, 0, 0x40, 0, 7, 0, 0, 0];
    assert_eq!(rt; decode(&bytes), Dec::Ins(ins, 10));
    Ok(())
}

#[test]
fn a_local_is_loaded(rt: HostRuntime) -> Result<(), Fail> {
    let local = Opnd::Mem {
        base: Some(5),
        index: None,
        disp: -4,
        width: Dw::D32,
    };
    let ins = Ins::Move(Way::ToRegister, 0, local);
    let bytes = [0x8B, 0x85, 0xFC, 0xFF, 0xFF, 0xFF];
    assert_eq!(rt; decode(&bytes), Dec::Ins(ins, 6));
    Ok(())
}
