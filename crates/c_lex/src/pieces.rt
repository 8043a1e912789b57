// The piece of a text that stands at its front.
ghost use Rattle.std.specs.Prelude.{◌≡◌, ◌+◌, length, []};
ghost use Rattle.std.specs.Option.{option_map};
ghost use Rattle.c_lex.specs.Bytes as b;
ghost use Rattle.c_lex.specs.Reading as r;
ghost use Rattle.c_lex.specs.Shown.{Shows};

use crate::Tok;
use crate::bytes::{begins_name, is_digit, is_white, name_length, run_length};
use crate::marks::{mark, word};
use crate::numbers::number;
use crate::quoted::{chr, comment, eat, text};
use num_le::Name;
use std::alloc::{AllocError, Global};

/// A piece's token, if it has one, and the bytes after it.
#[derive(Drop)]
pub struct Found<'a> {
    pub kind: Option<Tok>,
    pub rest: &'a [u8],
}

/// What is bad at the front of a text.
#[derive(Drop)]
pub enum Fault {
    Byte,
    Large,
    Comment,
    Quoted,
    Memory,
}

impl From<AllocError> for Fault {
    ghost use Rattle.c_lex.specs.declared.pieces.Fault.{Fault};
    ghost use Rattle.std.specs.Prelude.{◌≡◌};

    ghost from_gives = { λ _ e. e ≡ Fault.Memory };

    fn from(_: AllocError) -> Fault {
        Fault::Memory
    }
}

fn name_piece(alloc: Global, bytes: &[u8]) -> Result<Found<'_>, Fault>
    ensures { Shows (r.name_front (r.run_length b.is_name_byte bytes.now) bytes.now) result }
{
    let n = name_length(bytes);
    let kind = match word(&bytes[..n]) {
        Some(place) => Tok::Word(place),
        None => Tok::Name(Name::of(alloc, &bytes[..n])?),
    };
    Ok(Found {
        kind: Some(kind),
        rest: &bytes[n..],
    })
}

fn number_piece(bytes: &[u8]) -> Result<Found<'_>, Fault>
    ensures { Shows (r.number_front (r.run_length b.is_run_byte bytes.now) bytes.now) result }
{
    let n = run_length(bytes);
    match number(&bytes[..n]) {
        None => Err(Fault::Byte),
        Some((value, _)) if value > 4294967295 => Err(Fault::Large),
        Some((value, long)) => Ok(Found {
            kind: Some(Tok::Int(value as u32, long)),
            rest: &bytes[n..],
        }),
    }
}

fn chr_piece(inside: &[u8]) -> Result<Found<'_>, Fault>
    ensures { Shows (r.chr_front (r.chr inside.now)) result }
{
    match chr(inside) {
        Some((byte, rest)) => Ok(Found {
            kind: Some(Tok::Chr(byte)),
            rest,
        }),
        None => Err(Fault::Quoted),
    }
}

fn text_piece(alloc: Global, inside: &[u8]) -> Result<Found<'_>, Fault>
    ensures { Shows (r.text_front (r.text (length inside.now + 1) [] inside.now)) result }
{
    match text(alloc, inside)? {
        Some((values, rest)) => Ok(Found {
            kind: Some(Tok::Text(Name::of(alloc, &values)?)),
            rest,
        }),
        None => Err(Fault::Quoted),
    }
}

fn comment_piece(inside: &[u8]) -> Result<Found<'_>, Fault>
    ensures { Shows (r.comment_front (r.comment inside.now)) result }
{
    match comment(inside) {
        Some(rest) => Ok(Found { kind: None, rest }),
        None => Err(Fault::Comment),
    }
}

/// What follows `/*` at the front.
fn begins_comment(bytes: &[u8]) -> Option<&[u8]>
    ensures { option_map (λ x. x.now) result ≡ r.begins_comment bytes.now }
{
    eat(b'*', eat(b'/', bytes)?)
}

fn other_piece(bytes: &[u8]) -> Result<Found<'_>, Fault>
    ensures { Shows (r.other_front bytes.now (r.begins_comment bytes.now)) result }
{
    if let Some(inside) = begins_comment(bytes) {
        return comment_piece(inside);
    }
    match mark(bytes) {
        Some((place, rest)) => Ok(Found {
            kind: Some(Tok::Mark(place)),
            rest,
        }),
        None => Err(Fault::Byte),
    }
}

/// The piece at the front of a text.
#[tactic(auto, unfolding(crate::specs::Reading::front))]
pub fn piece(alloc: Global, bytes: &[u8]) -> Result<Found<'_>, Fault>
    ensures { Shows (r.front bytes.now) result }
{
    let [b, rest @ ..] = bytes else {
        return Err(Fault::Byte);
    };
    if is_white(*b) {
        return Ok(Found { kind: None, rest });
    }
    if begins_name(*b) {
        return name_piece(alloc, bytes);
    }
    if is_digit(*b) {
        return number_piece(bytes);
    }
    match *b {
        b'\'' => chr_piece(rest),
        b'"' => text_piece(alloc, rest),
        _ => other_piece(bytes),
    }
}
