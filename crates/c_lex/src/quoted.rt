// Characters and texts, behind their first mark.
ghost use Rattle.std.specs.Prelude.{◌≡◌, ◌≤◌, ◌+◌, length, IfOk, IfSome, []};
ghost use Rattle.std.specs.Option.{option_map};
ghost use Rattle.c_lex.specs.Pieces as p;
ghost use Rattle.c_lex.specs.Reading as r;

use crate::bytes::is_octal;
use std::alloc::{AllocError, Global};

pub fn eat(byte: u8, bytes: &[u8]) -> Option<&[u8]>
    ensures { option_map (λ x. x.now) result ≡ r.eat byte bytes.now }
{
    match bytes {
        [b, rest @ ..] if *b == byte => Some(rest),
        _ => None,
    }
}

/// The value of an octal digit, and what follows it.
fn octal_digit(bytes: &[u8]) -> Option<(u8, &[u8])>
    ensures value { option_map (λ x. (x.0, x.1.now)) result ≡ r.octal_digit bytes.now }
    ensures low { IfSome result (λ x. x.0 ≤ 7) }
{
    match bytes {
        [b, rest @ ..] if is_octal(*b) => Some((*b - 48, rest)),
        _ => None,
    }
}

/// The low byte of at most `left` octal digits after those of `value`, and the bytes after them.
#[tactic(auto, unfolding(crate::specs::Reading::octal_from))]
fn octal_from(left: u8, value: u8, bytes: &[u8]) -> (u8, &[u8])
    ensures { (result.0, result.1.now) ≡ r.octal_from left value bytes.now }
{
    if left == 0 {
        return (value, bytes);
    }
    match octal_digit(bytes) {
        Some((digit, rest)) => {
            let longer = (value as u16 * 8 + digit as u16) % 256;
            octal_from(left - 1, longer as u8, rest)
        }
        None => (value, bytes),
    }
}

/// The byte that an escape stands for, behind its backslash.
fn escaped(byte: u8) -> u8
    ensures { result ≡ p.escaped byte }
{
    match byte {
        b'n' => 10,
        b't' => 9,
        b'b' => 8,
        b'r' => 13,
        b'f' => 12,
        b'v' => 11,
        _ => byte,
    }
}

/// The byte of an escape and the bytes after it, behind its backslash.
#[tactic(auto, unfolding(crate::specs::Reading::escape))]
fn escape(bytes: &[u8]) -> Option<(u8, &[u8])>
    ensures { option_map (λ x. (x.0, x.1.now)) result ≡ r.escape bytes.now }
{
    match bytes {
        [] => None,
        [b, rest @ ..] => {
            if is_octal(*b) {
                return Some(octal_from(3, 0, bytes));
            }
            if *b == b'\n' {
                return None;
            }
            Some((escaped(*b), rest))
        }
    }
}

/// The byte or escape before the closing mark, and the bytes after it.
#[tactic(auto, unfolding(crate::specs::Reading::item))]
fn item(close: u8, bytes: &[u8]) -> Option<(u8, &[u8])>
    ensures { option_map (λ x. (x.0, x.1.now)) result ≡ r.item close bytes.now }
{
    match bytes {
        [] => None,
        [b, rest @ ..] => {
            if *b == b'\\' {
                return escape(rest);
            }
            if *b == b'\n' || *b == close {
                return None;
            }
            Some((*b, rest))
        }
    }
}

/// The byte of a character and what follows its closing mark.
#[tactic(auto, unfolding(crate::specs::Reading::chr))]
pub fn chr(bytes: &[u8]) -> Option<(u8, &[u8])>
    ensures { option_map (λ x. (x.0, x.1.now)) result ≡ r.chr bytes.now }
{
    let (byte, rest) = item(b'\'', bytes)?;
    let after = eat(b'\'', rest)?;
    Some((byte, after))
}

/// The bytes of a text and what follows its closing mark. None exactly where the text isn't closed.
#[tactic(auto, unfolding(crate::specs::Reading::text))]
pub fn text<'a>(alloc: Global, bytes: &'a [u8]) -> Result<Option<(Vec<u8>, &'a [u8])>, AllocError>
    ensures { IfOk result (λ o. option_map (λ x. (x.0.items, x.1.now)) o ≡ r.text (length bytes.now + 1) [] bytes.now) }
{
    let mut values = Vec::new(alloc);
    let mut rest = bytes;
    for _turn in 0..=bytes.len() {
        if let Some(after) = eat(b'"', rest) {
            return Ok(Some((values, after)));
        }
        let Some((value, after)) = item(b'"', rest) else {
            return Ok(None);
        };
        values.push(value)?;
        rest = after;
    }
    Ok(None)
}

/// What follows the first `*/`.
pub fn comment(bytes: &[u8]) -> Option<&[u8]>
    ensures { option_map (λ x. x.now) result ≡ r.comment bytes.now }
{
    for i in 0..bytes.len() {
        if let [b'*', b'/', after @ ..] = &bytes[i..] {
            return Some(after);
        }
    }
    None
}
