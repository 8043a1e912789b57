// The operand that a ModRM byte names.
ghost use Rattle.std.specs.Prelude.{◌≡◌, ◌<◌, ◌≤◌};
ghost use Rattle.isa_dec.specs.OperandAt.{number_at, displacement_at, memory_at, scaled_at, operand_at, width_of};

use isa386::{Dw, Opnd};
use num_le::get32;

/// What the bytes behind a ModRM byte begin with.
#[derive(Clone, Copy)]
pub(crate) enum OperandPart {
    Is(Opnd),
    Cut,
    Wrong,
}

// The number in the four bytes from this place on, if they are there.
pub(crate) fn number(bytes: &[u8], at: usize) -> Option<u32>
    requires { at ≤ 5 }
    ensures { result ≡ number_at at bytes.now }
{
    if bytes.len() < at + 4 {
        None
    } else {
        Some(get32(bytes, at))
    }
}

fn displacement(width: Dw, bytes: &[u8]) -> Option<i32>
    ensures { result ≡ displacement_at width bytes.now }
{
    match width {
        Dw::D0 => Some(0),
        Dw::D8 => match bytes.split_first() {
            Some((byte, _)) => Some(i32::from(byte.cast_signed())),
            None => None,
        },
        Dw::D32 => match number(bytes, 0) {
            Some(n) => Some(n.cast_signed()),
            None => None,
        },
    }
}

fn memory(base: Option<u8>, index: Option<(u8, u8)>, width: Dw, bytes: &[u8]) -> OperandPart
    ensures { result ≡ memory_at base index width bytes.now }
{
    match displacement(width, bytes) {
        Some(disp) => OperandPart::Is(Opnd::Mem {
            base,
            index,
            disp,
            width,
        }),
        None => OperandPart::Cut,
    }
}

fn width(mode: u8) -> Dw
    ensures { result ≡ width_of mode }
{
    if mode == 0 {
        Dw::D0
    } else if mode == 1 {
        Dw::D8
    } else {
        Dw::D32
    }
}

// The memory that a SIB byte names.
fn scaled(mode: u8, sib: u8, bytes: &[u8]) -> OperandPart
    ensures { result ≡ scaled_at mode sib bytes.now }
{
    let index = (sib / 8 % 8, sib / 64);
    let base = sib % 8;
    if index.0 == 4 && index.1 != 0 {
        OperandPart::Wrong
    } else if mode == 0 && base == 5 {
        memory(None, Some(index), Dw::D32, bytes)
    } else {
        memory(Some(base), Some(index), width(mode), bytes)
    }
}

// The operand that a ModRM byte and the bytes behind it spell.
#[inline(always)]
pub(crate) fn operand(modrm: u8, bytes: &[u8]) -> OperandPart
    ensures { result ≡ operand_at modrm bytes.now }
{
    let mode = modrm / 64;
    let rm = modrm % 8;
    if mode == 3 {
        OperandPart::Is(Opnd::Reg(rm))
    } else if rm == 4 {
        match bytes.split_first() {
            Some((sib, rest)) => scaled(mode, *sib, rest),
            None => OperandPart::Cut,
        }
    } else if mode == 0 && rm == 5 {
        memory(None, None, Dw::D32, bytes)
    } else {
        memory(Some(rm), None, width(mode), bytes)
    }
}
