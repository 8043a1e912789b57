// The labels and statements of a text, each with its line.
ghost use Rattle.std.specs.Prelude.{◌≡◌, ◌<◌, ◌≤◌, ◌++◌, IfOk, IfSome, OnOk, map, length};
ghost use Rattle.std.specs.Option.{option_map};
ghost use Rattle.std.specs.List.{slice_split};
ghost use Rattle.asm_read.specs.Lex.{all_shown, lex, shown};
ghost use Rattle.asm_read.specs.Reading as spec;
ghost use Rattle.asm_read.specs.Shown.{shown_stmt, shown_at};
ghost use Rattle.asm_read.specs.Stmts as stmts;

use crate::arguments::arguments_at;
use crate::keywords::keyword_named;
use crate::stmts::{Stmt, make};
use crate::token::{Sign, Token, tokens};
use asm_item::{Item, is_name};
use num_le::Name;
use std::alloc::{AllocError, Global};
use std::collections::VecDeque;

/// A label or statement and its line, or None for what is none.
#[derive(Drop)]
pub struct Placed {
    pub line: u32,
    pub stmt: Option<Stmt>,
}

/// The statement of these tokens. None where they are none.
fn statement_of(alloc: Global, tokens: &[Token<'_>]) -> Result<Option<Stmt>, AllocError>
    ensures { IfOk result (λ s. stmts.or_wrong (option_map shown_stmt s) ≡ stmts.statement_at (all_shown tokens.now)) }
{
    let [Token::Word(w), rest @ ..] = tokens else {
        return Ok(None);
    };
    let Some(word) = keyword_named(w) else {
        return Ok(None);
    };
    match arguments_at(alloc, rest)? {
        None => Ok(None),
        Some(args) => make(alloc, word, &args),
    }
}

fn label_of(alloc: Global, k: &[u8]) -> Result<Option<Stmt>, AllocError>
    ensures { IfOk result (λ s. stmts.or_wrong (option_map shown_stmt s) ≡ stmts.label_at k.now) }
{
    if !is_name(k) {
        return Ok(None);
    }
    Ok(Some(Stmt::Item(Item::Label(Name::of(alloc, k)?))))
}

/// The word of a label, which has a colon behind it.
fn label_front<'a>(tokens: &[Token<'a>]) -> Option<&'a [u8]>
    ensures word { option_map (λ k. k.now) result ≡ stmts.label_front (all_shown tokens.now) }
    ensures two { IfSome result (λ k. 2 ≤ length tokens.now) }
{
    match tokens {
        [Token::Word(k), Token::Mark(Sign::Colon), ..] => Some(k),
        _ => None,
    }
}

fn is_semicolon(t: &Token<'_>) -> bool
    ensures { result ≡ stmts.is_semicolon (shown t.now) }
{
    matches!(t, Token::Mark(Sign::Semicolon))
}

/// The parts between semicolons.
fn between_semicolons<'b, 'a>(
    alloc: Global,
    tokens: &'b [Token<'a>],
) -> Result<Vec<&'b [Token<'a>]>, AllocError>
    ensures { IfOk result (λ v. map (λ x. all_shown x.now) v.items ≡ slice_split stmts.is_semicolon (all_shown tokens.now)) }
{
    tokens.split(|t| is_semicolon(t)).collect(alloc)
}

/// Puts the labels and the statement that stand between semicolons at the end.
#[tactic(auto, using(crate::proofs::Fronts::fronts))]
fn put_part(
    alloc: Global,
    line: u32,
    part: &[Token<'_>],
    out: &mut VecDeque<Placed>,
) -> Result<(), AllocError>
    ensures { OnOk result (map shown_at out.new.items ≡ map shown_at out.old.items ++ spec.at_line line (stmts.stmts_at (all_shown part.now))) }
{
    let mut rest = part;
    while let Some(k) = label_front(rest) {
        let stmt = label_of(alloc, k)?;
        out.push_back(Placed { line, stmt })?;
        rest = &rest[2..];
    }
    if rest.is_empty() {
        return Ok(());
    }
    let stmt = statement_of(alloc, rest)?;
    out.push_back(Placed { line, stmt })?;
    Ok(())
}

/// Puts the labels and statements of a line at the end.
#[tactic(auto, using(crate::proofs::Fronts::at_line_append))]
fn put_line(
    alloc: Global,
    line: u32,
    bytes: &[u8],
    out: &mut VecDeque<Placed>,
) -> Result<(), AllocError>
    ensures { OnOk result (map shown_at out.new.items ≡ map shown_at out.old.items ++ spec.at_line line (stmts.stmts_of (lex bytes.now))) }
{
    let all = tokens(alloc, bytes)?;
    for part in &between_semicolons(alloc, &all)? {
        put_part(alloc, line, part, out)?;
    }
    Ok(())
}

/// The lines of a text: a line begins behind each newline.
fn lines(alloc: Global, text: &[u8]) -> Result<Vec<&[u8]>, AllocError>
    ensures { IfOk result (λ v. map (λ x. x.now) v.items ≡ spec.lines_of text.now) }
{
    text.split(|b| *b == b'\n').collect(alloc)
}

/// The labels and statements of a text.
pub fn text_stmts(alloc: Global, text: &[u8]) -> Result<VecDeque<Placed>, AllocError>
    requires countable { length (spec.lines_of text.now) < 4294967295 }
    ensures { IfOk result (λ v. map shown_at v.items ≡ spec.text_stmts text.now) }
{
    let mut out = VecDeque::new(alloc);
    let mut number = 1u32;
    for line in &lines(alloc, text)? {
        put_line(alloc, number, line, &mut out)?;
        number += 1;
    }
    Ok(out)
}
