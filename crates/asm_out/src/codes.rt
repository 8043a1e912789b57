// Numbers of a file's headers (a.out(4)).

/// The magic number of an object for the 80386.
pub const I386MAGIC: u16 = 0x14C;
/// F_AR32WR: the lowest byte of a number stands first.
pub const F_AR32WR: u16 = 0x100;
/// F_LNNO: there are no line entries.
pub const F_LNNO: u16 = 4;
/// STYP_TEXT, STYP_DATA, STYP_BSS: what a section is.
pub const STYP_TEXT: u32 = 0x20;

pub const STYP_DATA: u32 = 0x40;

pub const STYP_BSS: u32 = 0x80;
/// The greatest number of bytes of .text.
pub const MOST_TEXT: u64 = 4_128_768;
/// The greatest number of bytes of .data and .bss together.
pub const MOST_INIT: u64 = 16_777_216;
/// The greatest number of relocations of a section, and of line entries.
pub const MOST_RECORDS: u64 = 65_535;
