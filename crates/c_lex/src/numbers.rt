// The number of a run of letters and digits.
ghost use Rattle.std.specs.Prelude.{◌≡◌, ◌≤◌};
ghost use Rattle.std.specs.Option.{option_map};
ghost use Rattle.c_lex.specs.Reading as r;

use crate::bytes::{digit_value, is_digit, is_hexadecimal, is_octal};

/// The greatest number and one more: what a larger one counts as while it is read.
const TOO_LARGE: u64 = 4294967296;

/// A digit of base 8, 10 or 16.
fn is_digit_of(base: u64, byte: u8) -> bool
    ensures { result ≡ r.is_digit_of base byte }
{
    match base {
        8 => is_octal(byte),
        10 => is_digit(byte),
        _ => is_hexadecimal(byte),
    }
}

/// Whether these bytes are the suffix of a long number.
fn ended(value: u64, byte: u8, rest: &[u8]) -> Option<(u64, bool)>
    ensures { result ≡ r.ended value byte rest.now }
{
    match rest {
        [] if byte == b'l' || byte == b'L' => Some((value, true)),
        _ => None,
    }
}

/// The number that the digits of the base spell up to the end of the run, and whether it has a suffix.
fn digits(base: u64, run: &[u8]) -> Option<(u64, bool)>
    requires { base ≤ 16 }
    ensures { result ≡ r.digits base 0 run.now }
{
    let mut value: u64 = 0;
    for (i, byte) in run.iter().enumerate() {
        if !is_digit_of(base, *byte) {
            return ended(value, *byte, &run[i + 1..]);
        }
        value = (value * base + digit_value(*byte) as u64).min(TOO_LARGE);
    }
    Some((value, false))
}

fn after_x(run: &[u8]) -> Option<(u64, bool)>
    ensures { result ≡ r.after_x run.now }
{
    match run {
        [byte, ..] if is_hexadecimal(*byte) => digits(16, run),
        _ => None,
    }
}

fn after_zero(run: &[u8]) -> Option<(u64, bool)>
    ensures { result ≡ r.after_zero run.now }
{
    match run {
        [] => Some((0, false)),
        [b'x' | b'X', rest @ ..] => after_x(rest),
        _ => digits(8, run),
    }
}

/// The number of the run, at most one more than the greatest, and whether it has a suffix. None exactly where it is no
/// number.
pub fn number(run: &[u8]) -> Option<(u64, bool)>
    ensures { result ≡ r.number run.now }
{
    match run {
        [] => None,
        [b'0', rest @ ..] => after_zero(rest),
        _ => digits(10, run),
    }
}
