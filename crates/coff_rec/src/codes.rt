// The storage classes of syms(4).

/// The physical end of a function, -1 as a byte.
pub const C_EFCN: u8 = 255;
/// An automatic variable.
pub const C_AUTO: u8 = 1;
/// An external symbol.
pub const C_EXT: u8 = 2;
/// A static symbol.
pub const C_STAT: u8 = 3;
/// A register variable.
pub const C_REG: u8 = 4;
/// A member of a structure.
pub const C_MOS: u8 = 8;
/// A parameter.
pub const C_ARG: u8 = 9;
/// The tag of a structure.
pub const C_STRTAG: u8 = 10;
/// A member of a union.
pub const C_MOU: u8 = 11;
/// The tag of a union.
pub const C_UNTAG: u8 = 12;
/// A name of a type.
pub const C_TPDEF: u8 = 13;
/// The tag of an enumeration.
pub const C_ENTAG: u8 = 15;
/// A member of an enumeration.
pub const C_MOE: u8 = 16;
/// A bit field.
pub const C_FIELD: u8 = 18;
/// The begin or the end of a block, `.bb` or `.eb`.
pub const C_BLOCK: u8 = 100;
/// The begin or the end of a function's body, `.bf` or `.ef`.
pub const C_FCN: u8 = 101;
/// The end of a tag's members, `.eos`.
pub const C_EOS: u8 = 102;
/// The name of a file.
pub const C_FILE: u8 = 103;
