use arrayvec::ArrayVec;
use isa386::{Dest, Dw, Field, Ins, Opnd, Way, encode, field_at, is_row, len};
use std::test::Fail;

const MEMORY: Opnd = Opnd::Mem {
    base: None,
    index: None,
    disp: 0x400000,
    width: Dw::D32,
};

#[test]
fn a_number_is_moved_to_memory(rt: HostRuntime) -> Result<(), Fail> {
    let ins = Ins::MoveImm(Dest::Operand(MEMORY), 7);
    let mut out = ArrayVec::new();
    encode(&ins, &mut out);
    let bytes = [0xC7, 0x05, 0, 0, 0x40, 0, 7, 0, 0, 0];
    assert_eq!(rt; out.as_slice(), bytes.as_slice());
    assert_eq!(rt; len(&ins), 10);
    assert_eq!(rt; field_at(&ins, Field::Disp), Some(2));
    assert_eq!(rt; field_at(&ins, Field::Imm), Some(6));
    assert_eq!(rt; field_at(&ins, Field::Target), None);
    Ok(())
}

#[test]
fn a_local_is_loaded(rt: HostRuntime) -> Result<(), Fail> {
    let local = Opnd::Mem {
        base: Some(5),
        index: None,
        disp: -4,
        width: Dw::D32,
    };
    let ins = Ins::Move(Way::ToRegister, 0, local);
    let mut out = ArrayVec::new();
    encode(&ins, &mut out);
    let bytes = [0x8B, 0x85, 0xFC, 0xFF, 0xFF, 0xFF];
    assert_eq!(rt; out.as_slice(), bytes.as_slice());
    Ok(())
}

#[test]
fn esp_needs_a_sib_byte(rt: HostRuntime) -> Result<(), Fail> {
    let plain = Opnd::Mem {
        base: Some(4),
        index: None,
        disp: 8,
        width: Dw::D8,
    };
    let with_sib = Opnd::Mem {
        base: Some(4),
        index: Some((4, 0)),
        disp: 8,
        width: Dw::D8,
    };
    assert!(rt; !is_row(&Ins::Lea(0, plain)));
    assert!(rt; is_row(&Ins::Lea(0, with_sib)));
    assert!(rt; !is_row(&Ins::Lea(0, Opnd::Reg(1))));
    Ok(())
}
