// The types of relocations (a.out(4)).

/// The address of the symbol, added to the field.
pub const R_DIR32: u16 = 6;
/// The same, less the address behind the field.
pub const R_PCRLONG: u16 = 0o24;
