// Records in place, against their bytes by hand.
use coff_rec::{AuxKind, AuxRec, C_EXT, LineRec, Reloc, SymRec, aux_kind};
use std::test::Fail;

#[test]
fn a_symbol_in_place(rt: HostRuntime) -> Result<(), Fail> {
    let mut bytes = [0xFF; 20];
    let symbol = SymRec {
        n_name: *b"main\0\0\0\0",
        n_value: 0x0001_00A4,
        n_scnum: -2,
        n_type: 0x24,
        n_sclass: C_EXT,
        n_numaux: 1,
    };
    symbol.put(&mut bytes, 1);
    let written = [
        0xFF, b'm', b'a', b'i', b'n', 0, 0, 0, 0, 0xA4, 0x00, 0x01, 0x00, 0xFE, 0xFF, 0x24, 0x00,
        2, 1, 0xFF,
    ];
    assert_eq!(rt; bytes, written);
    assert_eq!(rt; SymRec::get(&bytes, 1).n_scnum, -2);
    Ok(())
}

#[test]
fn an_entry_of_a_function(rt: HostRuntime) -> Result<(), Fail> {
    let bytes = [0, 0, 0, 0, 23, 0, 0, 0, 187, 0, 0, 0, 8, 0, 0, 0, 0, 0];
    let entry = AuxRec::get(&bytes, 0, C_EXT, 0x24);
    assert_eq!(rt; aux_kind(C_EXT, 0x24), AuxKind::Function);
    assert_eq!(rt; entry.x_fsize, 23);
    assert_eq!(rt; entry.x_lnnoptr, 187);
    assert_eq!(rt; entry.x_endndx, 8);
    Ok(())
}

#[test]
fn relocations_and_lines(rt: HostRuntime) -> Result<(), Fail> {
    let bytes = [6, 0, 0, 0, 14, 0, 0, 0, 6, 0, 7, 0, 0, 0, 2, 0];
    assert_eq!(rt; Reloc::get(&bytes, 0).r_symndx, 14);
    assert_eq!(rt; Reloc::get(&bytes, 0).r_type, 6);
    assert_eq!(rt; LineRec::get(&bytes, 10).l_addr, 7);
    assert_eq!(rt; LineRec::get(&bytes, 10).l_lnno, 2);
    Ok(())
}
