// The tokens of a whole text.
ghost use Rattle.std.specs.Prelude.{◌≡◌, ◌<◌, ◌++◌, [], length, map, IfOk, IfErr};
ghost use Rattle.c_lex.specs.Falls.{Falls, with_token};
ghost use Rattle.c_lex.specs.Shown.{token_of, tokens_of, shown};
ghost use Rattle.c_lex.specs.Refusals.{Refuses, refusal};

use crate::bytes::newlines;
use crate::pieces::{Fault, piece};
use crate::{Tok, Token, Tokens};
use std::alloc::{AllocError, AllocFailed, Global};

/// Why a text has no tokens, with the line of the first place that is bad.
#[derive(Debug, Drop, thiserror::Error)]
pub enum LexErr {
    /// A byte with which no token begins, or a run of letters and digits that is no number.
    #[error("line {0}: bad byte")]
    BadByte(u32),
    /// A comment that isn't closed.
    #[error("line {0}: open comment")]
    OpenComment(u32),
    /// A character or text that isn't closed.
    #[error("line {0}: open text")]
    OpenText(u32),
    /// A number above 4294967295.
    #[error("line {0}: number too large")]
    NumberTooLarge(u32),
    /// Want of memory.
    #[error("memory")]
    Memory,
}

impl<T: Drop> From<AllocFailed<T>> for LexErr {
    ghost use Rattle.c_lex.specs.declared.reader.LexErr.{LexErr};
    ghost use Rattle.std.specs.Prelude.{◌≡◌};

    ghost from_gives = { λ _ e. e ≡ LexErr.Memory };

    fn from(_: AllocFailed<T>) -> LexErr {
        LexErr::Memory
    }
}

fn refused(fault: Fault, line: u32) -> LexErr
    ensures { result ≡ refusal fault line }
{
    match fault {
        Fault::Byte => LexErr::BadByte(line),
        Fault::Large => LexErr::NumberTooLarge(line),
        Fault::Comment => LexErr::OpenComment(line),
        Fault::Quoted => LexErr::OpenText(line),
        Fault::Memory => LexErr::Memory,
    }
}

fn push(list: &mut Vec<Token>, kind: Option<Tok>, line: u32) -> Result<(), LexErr>
    ensures pushed { IfOk result (λ _. map token_of list.new.items ≡ map token_of list.old.items ++ with_token line (shown kind) []) }
    ensures memory { IfErr result (λ e. e ≡ LexErr.Memory) }
{
    if let Some(kind) = kind {
        list.push(Token { kind, line })?;
    }
    Ok(())
}

/// The tokens of a text with their lines. Each error comes exactly at the first place of the text that is bad.
///
/// The text is shorter than 4294967295 bytes, so that each of its lines has a number.
pub fn lex(alloc: Global, text: &[u8]) -> Result<Tokens, LexErr>
    requires counted { length text.now < 4294967295 }
    ensures tokens { IfOk result (λ x. Falls text.now (tokens_of x)) }
    ensures refused { IfErr result (λ e. Refuses e text.now) }
{
    let mut list = Vec::new(alloc);
    let mut rest = text;
    let mut line = 1;
    while !rest.is_empty() {
        let front = match piece(alloc, rest) {
            Ok(front) => front,
            Err(fault) => return Err(refused(fault, line)),
        };
        push(&mut list, front.kind, line)?;
        line += newlines(&rest[..rest.len() - front.rest.len()]) as u32;
        rest = front.rest;
    }
    Ok(Tokens { list })
}
