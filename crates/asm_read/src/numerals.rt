// Numbers as they are written.
ghost use Rattle.std.specs.Prelude.{◌≡◌, ◌≤◌, ◌<◌, ◌^◌};
ghost use Rattle.asm_read.specs.Numerals as spec;

use asm_item::Number;

/// The value of a digit, or 16.
fn digit(c: u8) -> u32
    ensures { result ≡ spec.digit c }
{
    if 48 <= c && c <= 57 {
        u32::from(c - 48)
    } else if 97 <= c && c <= 102 {
        u32::from(c - 87)
    } else if 65 <= c && c <= 70 {
        u32::from(c - 55)
    } else {
        16
    }
}

/// `n` with one more digit, while it stays below 2 to the power 32.
fn longer(base: u32, n: u32, d: u32) -> Option<u32>
    requires base { base ≤ 16 }
    requires digit { d ≤ 16 }
    ensures { result ≡ spec.longer base n d }
{
    let m = u64::from(n) * u64::from(base) + u64::from(d);
    if d < base && m < 4294967296 {
        Some(m as u32)
    } else {
        None
    }
}

/// The number that digits of this base stand for.
fn digits(base: u32, w: &[u8]) -> Option<u32>
    requires { base ≤ 16 }
    ensures { result ≡ spec.digits base 0 w.now }
{
    let mut n = 0u32;
    for c in w {
        n = longer(base, n, digit(*c))?;
    }
    Some(n)
}

fn some_digits(base: u32, w: &[u8]) -> Option<u32>
    requires { base ≤ 16 }
    ensures { result ≡ spec.some_digits base w.now }
{
    if w.is_empty() {
        return None;
    }
    digits(base, w)
}

fn after_zero(w: &[u8]) -> Option<u32>
    ensures { result ≡ spec.after_zero w.now }
{
    match w {
        [] => Some(0),
        [c, rest @ ..] if *c == b'x' || *c == b'X' => some_digits(16, rest),
        _ => digits(8, w),
    }
}

/// The number that a word spells: decimal, octal behind a 0, hexadecimal behind 0x. None where it
/// spells none, or one of 2 to the power 32 or more.
pub fn numeral(w: &[u8]) -> Option<u32>
    ensures { result ≡ spec.numeral w.now }
{
    match w {
        [] => None,
        [b'0', rest @ ..] => after_zero(rest),
        _ => digits(10, w),
    }
}

/// A number of so many values, taken modulo their number.
fn within(values: u64, n: Number) -> Option<u32>
    requires many { 0 < values }
    requires few { values ≤ 2 ^ 32 }
    ensures { result ≡ spec.within values n }
{
    let size = u64::from(n.size);
    if n.minus {
        if size * 2 <= values {
            Some(((values - size) % values) as u32)
        } else {
            None
        }
    } else if size < values {
        Some(n.size)
    } else {
        None
    }
}

pub fn byte_of(n: Number) -> Option<u8>
    ensures { result ≡ spec.byte_of n }
{
    Some(within(256, n)? as u8)
}

pub fn half_of(n: Number) -> Option<u16>
    ensures { result ≡ spec.half_of n }
{
    Some(within(65536, n)? as u16)
}

pub fn full_of(n: Number) -> Option<u32>
    ensures { result ≡ spec.full_of n }
{
    within(4294967296, n)
}

pub fn signed_of(n: Number) -> Option<i32>
    ensures { result ≡ spec.signed_of n }
{
    Some(full_of(n)?.cast_signed())
}
