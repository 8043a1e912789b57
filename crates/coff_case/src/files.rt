// A whole file, against its bytes by hand.
use coff_rec::{FileHead, Parts, Records, SecHead, whole};
use std::alloc::{AllocError, Global};
use std::test::Fail;

/// The header of a section that begins at address 0.
fn section(name: [u8; 8], size: u32, place: u32, flags: u32) -> SecHead {
    SecHead {
        s_name: name,
        s_paddr: 0,
        s_vaddr: 0,
        s_size: size,
        s_scnptr: place,
        s_relptr: 0,
        s_lnnoptr: 0,
        s_nreloc: 0,
        s_nlnno: 0,
        s_flags: flags,
    }
}

/// A file of one section with the byte of `ret`, and no symbols.
fn file(alloc: Global) -> Result<Vec<u8>, AllocError> {
    let mut secs = Vec::new(alloc);
    secs.push(section(*b".text\0\0\0", 1, 60, 0x20))?;
    let mut text = Vec::new(alloc);
    text.push(0xC3)?;
    let mut strings = Vec::new(alloc);
    strings.extend_from_slice(&[4, 0, 0, 0])?;
    let parts = Parts {
        head: FileHead {
            f_magic: 0x14C,
            f_nscns: 1,
            f_timdat: 0,
            f_symptr: 61,
            f_nsyms: 0,
            f_opthdr: 0,
            f_flags: 0x104,
        },
        opt: None,
        secs: Records::of(secs),
        text: Records::of(text),
        init: Records::of(Vec::new(alloc)),
        text_relocs: Records::of(Vec::new(alloc)),
        init_relocs: Records::of(Vec::new(alloc)),
        lines: Records::of(Vec::new(alloc)),
        syms: Records::of(Vec::new(alloc)),
        auxs: Records::of(Vec::new(alloc)),
        strings: Records::of(strings),
    };
    whole(alloc, &parts)
}

/// The file header, the section header, the byte, the string table.
const WRITTEN: &[u8] = &[
    0x4C, 0x01, 0x01, 0x00, 0, 0, 0, 0, 61, 0, 0, 0, 0, 0, 0, 0, 0, 0, 0x04, 0x01, b'.', b't',
    b'e', b'x', b't', 0, 0, 0, 0, 0, 0, 0, 0, 0, 0, 0, 1, 0, 0, 0, 60, 0, 0, 0, 0, 0, 0, 0, 0, 0,
    0, 0, 0, 0, 0, 0, 0x20, 0, 0, 0, 0xC3, 4, 0, 0, 0,
];

#[test]
fn a_file_is_its_parts(rt: HostRuntime) -> Result<(), Fail> {
    assert_eq!(rt; file(rt.alloc())?.as_slice(), WRITTEN);
    Ok(())
}
