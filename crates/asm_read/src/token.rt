// The tokens of a line, borrowed from it.
ghost use Rattle.std.specs.Prelude.{◌≡◌, ◌≤◌, ◌<◌, ◌+◌, length, IfOk, IfSome, drop};
ghost use Rattle.asm_read.specs.Tokens as t;
ghost use Rattle.asm_read.specs.Lex.{lex, all_shown, word_length, text_length, placed_at};

use asm_item::is_name_byte;
use std::alloc::{AllocError, Global};

/// A byte that stands for itself.
#[derive(Clone, Copy, PartialEq, Eq)]
pub enum Sign {
    Comma,
    Semicolon,
    Colon,
    Percent,
    Dollar,
    Minus,
    Plus,
    Open,
    Close,
    Star,
    /// A byte that no statement has outside quotes.
    Other(u8),
}

/// A token of a line.
#[derive(Clone, Copy)]
pub enum Token<'a> {
    /// Letters, digits, `_` and `.`
    Word(&'a [u8]),
    Mark(Sign),
    /// What stands between quotes.
    Text(&'a [u8]),
    /// A quote that isn't closed.
    Bad,
}

fn is_blank(c: u8) -> bool
    ensures { result ≡ t.is_blank_byte c }
{
    c == b' ' || (9 <= c && c <= 13)
}

fn sign_of(c: u8) -> Sign
    ensures { result ≡ t.sign_of c }
{
    match c {
        b',' => Sign::Comma,
        b';' => Sign::Semicolon,
        b':' => Sign::Colon,
        b'%' => Sign::Percent,
        b'$' => Sign::Dollar,
        b'-' => Sign::Minus,
        b'+' => Sign::Plus,
        b'(' => Sign::Open,
        b')' => Sign::Close,
        b'*' => Sign::Star,
        _ => Sign::Other(c),
    }
}

/// The end of the word that goes on at `at`.
fn word_end(line: &[u8], at: usize) -> usize
    requires { at ≤ length line.now }
    ensures value { result ≡ at + word_length (drop at line.now) }
    ensures within { result ≤ length line.now }
    ensures behind { at ≤ result }
{
    let mut i = at;
    while i < line.len() {
        if !is_name_byte(line[i]) {
            return i;
        }
        i += 1;
    }
    i
}

/// The place of the next quote.
fn text_end(line: &[u8], at: usize) -> Option<usize>
    requires { at ≤ length line.now }
    ensures value { result ≡ placed_at at (text_length (drop at line.now)) }
    ensures within { IfSome result (λ end. (at ≤ end) × (end < length line.now)) }
{
    let mut i = at;
    while i < line.len() {
        if line[i] == b'"' {
            return Some(i);
        }
        i += 1;
    }
    None
}

/// The tokens of a line, up to a comment.
pub fn tokens<'a>(alloc: Global, line: &'a [u8]) -> Result<Vec<Token<'a>>, AllocError>
    ensures { IfOk result (λ v. all_shown v.items ≡ lex line.now) }
{
    let mut out = Vec::new(alloc);
    let mut at = 0usize;
    while at < line.len() {
        let c = line[at];
        if is_name_byte(c) {
            let end = word_end(line, at);
            out.push(Token::Word(&line[at..end]))?;
            at = end;
        } else if is_blank(c) {
            at += 1;
        } else if c == b'"' {
            match text_end(line, at + 1) {
                Some(end) => {
                    out.push(Token::Text(&line[at + 1..end]))?;
                    at = end + 1;
                }
                None => {
                    out.push(Token::Bad)?;
                    return Ok(out);
                }
            }
        } else if c == b'/' {
            return Ok(out);
        } else {
            out.push(Token::Mark(sign_of(c)))?;
            at += 1;
        }
    }
    Ok(out)
}
