// The names of the registers.
ghost use Rattle.std.specs.Prelude.{◌≡◌};
ghost use Rattle.asm_item.specs.Args.{full_register, short_register, byte_register, register_text};

use crate::args::Size;

fn full_name(r: u8) -> &'static [u8]
    ensures { result.now ≡ full_register r }
{
    match r {
        0 => b"eax",
        1 => b"ecx",
        2 => b"edx",
        3 => b"ebx",
        4 => b"esp",
        5 => b"ebp",
        6 => b"esi",
        _ => b"edi",
    }
}

fn short_name(r: u8) -> &'static [u8]
    ensures { result.now ≡ short_register r }
{
    match r {
        0 => b"ax",
        1 => b"cx",
        2 => b"dx",
        3 => b"bx",
        4 => b"sp",
        5 => b"bp",
        6 => b"si",
        _ => b"di",
    }
}

fn byte_name(r: u8) -> &'static [u8]
    ensures { result.now ≡ byte_register r }
{
    match r {
        0 => b"al",
        1 => b"cl",
        2 => b"dl",
        _ => b"bl",
    }
}

/// The name of a register of this size, without `%`. Past the last one it is the last one's.
pub fn register_name(size: Size, r: u8) -> &'static [u8]
    ensures text { result.now ≡ register_text size r }
{
    match size {
        Size::Full => full_name(r),
        Size::Short => short_name(r),
        Size::Byte => byte_name(r),
    }
}
