// The codes of basic types and derivations, by syms(4).
ghost use Rattle.std.specs.Prelude.{◌≡◌};
ghost use Rattle.c_type.specs.Types.{kind_code as kind_code_lem};

use c_type::Kind;

pub const T_NULL: u16 = 0;

pub const T_CHAR: u16 = 2;

pub const T_SHORT: u16 = 3;

pub const T_INT: u16 = 4;

pub const T_LONG: u16 = 5;

pub const T_STRUCT: u16 = 8;

pub const T_UNION: u16 = 9;

pub const T_ENUM: u16 = 10;

pub const T_UCHAR: u16 = 12;

pub const T_USHORT: u16 = 13;

pub const T_UINT: u16 = 14;

pub const T_ULONG: u16 = 15;

pub const DT_PTR: u16 = 1;

pub const DT_FCN: u16 = 2;

pub const DT_ARY: u16 = 3;

/// The code of an integer type.
pub fn kind_code(kind: Kind) -> u16
    ensures { result ≡ kind_code_lem kind }
{
    match kind {
        Kind::Char => T_CHAR,
        Kind::UChar => T_UCHAR,
        Kind::Short => T_SHORT,
        Kind::UShort => T_USHORT,
        Kind::Int => T_INT,
        Kind::UInt => T_UINT,
        Kind::Long => T_LONG,
        Kind::ULong => T_ULONG,
    }
}
