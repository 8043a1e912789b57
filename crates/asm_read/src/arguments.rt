// The arguments of a statement, by their tokens.
ghost use Rattle.std.specs.Prelude.{◌≡◌, IfOk, map, ◌≤◌, ◌<◌};
ghost use Rattle.std.specs.Option.{option_map};
ghost use Rattle.std.specs.List.{slice_split};
ghost use Rattle.asm_item.specs.Args.{shown_operand, shown, registers};
ghost use Rattle.asm_read.specs.Arguments as spec;
ghost use Rattle.asm_read.specs.Lex as lex;

use crate::numerals::numeral;
use crate::token::{Sign, Token};
use asm_item::{Arg, Number, Operand, Size, is_name, register_name};
use std::alloc::{AllocError, Global};

/// How many registers of this size have a name.
fn registers(size: Size) -> u8
    ensures { result ≡ registers size }
{
    match size {
        Size::Full | Size::Short => 8,
        Size::Byte => 4,
    }
}

/// The register of this size and name.
#[tactic(auto, using(crate::proofs::Registers::number_step), unfolding(crate::specs::Arguments::register_number))]
fn register_number(size: Size, w: &[u8]) -> Option<u8>
    ensures { result ≡ spec.register_number size w.now }
{
    let mut r = registers(size);
    while r > 0 {
        r -= 1;
        if w == register_name(size, r) {
            return Some(r);
        }
    }
    None
}

/// The register of this name.
fn register_named<'a>(w: &[u8]) -> Option<Operand<'a>>
    ensures { option_map shown_operand result ≡ spec.register_named w.now }
{
    if let Some(r) = register_number(Size::Full, w) {
        return Some(Operand::Register(Size::Full, r));
    }
    if let Some(r) = register_number(Size::Short, w) {
        return Some(Operand::Register(Size::Short, r));
    }
    let r = register_number(Size::Byte, w)?;
    Some(Operand::Register(Size::Byte, r))
}

/// A number with this sign.
fn sized(minus: bool, w: &[u8]) -> Option<Number>
    ensures { result ≡ spec.sized minus w.now }
{
    let size = numeral(w)?;
    Some(Number { minus, size })
}

/// A number, with `-` before it or not.
fn number_at(tokens: &[Token<'_>]) -> Option<Number>
    ensures { result ≡ spec.number_at (lex.all_shown tokens.now) }
{
    match tokens {
        [Token::Word(w)] => sized(false, w),
        [Token::Mark(Sign::Minus), Token::Word(w)] => sized(true, w),
        _ => None,
    }
}

/// A number and `(%reg)` behind it.
fn based<'a>(n: Option<Number>, tokens: &[Token<'a>]) -> Option<Operand<'a>>
    ensures { option_map shown_operand result ≡ spec.based n (lex.all_shown tokens.now) }
{
    let n = n?;
    match tokens {
        [
            Token::Mark(Sign::Percent),
            Token::Word(w),
            Token::Mark(Sign::Close),
        ] => {
            let r = register_number(Size::Full, w)?;
            Some(Operand::Base(n, r))
        }
        _ => None,
    }
}

/// A name or a number alone.
fn single<'a>(w: &'a [u8]) -> Option<Operand<'a>>
    ensures { option_map shown_operand result ≡ spec.single w.now }
{
    if is_name(w) {
        return Some(Operand::Name(w));
    }
    let n = sized(false, w)?;
    Some(Operand::Number(n))
}

/// A name and a number that is added to it.
fn plus<'a>(k: &'a [u8], tokens: &[Token<'a>]) -> Option<Operand<'a>>
    ensures { option_map shown_operand result ≡ spec.plus_at k.now (lex.all_shown tokens.now) }
{
    if !is_name(k) {
        return None;
    }
    let n = number_at(tokens)?;
    Some(Operand::Plus(k, n))
}

/// A name and a number that is taken off it.
fn minus<'a>(k: &'a [u8], tokens: &[Token<'a>]) -> Option<Operand<'a>>
    ensures { option_map shown_operand result ≡ spec.minus_at k.now (lex.all_shown tokens.now) }
{
    if !is_name(k) {
        return None;
    }
    let n = number_at(tokens)?;
    Some(Operand::Minus(k, n))
}

/// What begins with a word.
fn word_operand<'a>(w: &'a [u8], rest: &[Token<'a>]) -> Option<Operand<'a>>
    ensures { option_map shown_operand result ≡ spec.word_operand w.now (lex.all_shown rest.now) }
{
    match rest {
        [] => single(w),
        [Token::Mark(Sign::Plus), after @ ..] => plus(w, after),
        [Token::Mark(Sign::Minus), after @ ..] => minus(w, after),
        [Token::Mark(Sign::Open), after @ ..] => based(sized(false, w), after),
        _ => None,
    }
}

/// What begins with `-` and a word.
fn minus_operand<'a>(w: &[u8], rest: &[Token<'a>]) -> Option<Operand<'a>>
    ensures { option_map shown_operand result ≡ spec.minus_operand w.now (lex.all_shown rest.now) }
{
    match rest {
        [] => {
            let n = sized(true, w)?;
            Some(Operand::Number(n))
        }
        [Token::Mark(Sign::Open), after @ ..] => based(sized(true, w), after),
        _ => None,
    }
}

/// What may stand alone or behind `*`.
fn operand_at<'a>(tokens: &[Token<'a>]) -> Option<Operand<'a>>
    ensures { option_map shown_operand result ≡ spec.operand_at (lex.all_shown tokens.now) }
{
    match tokens {
        [Token::Word(w), rest @ ..] => word_operand(w, rest),
        [Token::Mark(Sign::Percent), Token::Word(w)] => register_named(w),
        [Token::Mark(Sign::Minus), Token::Word(w), rest @ ..] => minus_operand(w, rest),
        [Token::Mark(Sign::Open), rest @ ..] => based(
            Some(Number {
                minus: false,
                size: 0,
            }),
            rest,
        ),
        _ => None,
    }
}

/// Behind `$`.
fn immediate_at<'a>(tokens: &[Token<'a>]) -> Option<Arg<'a>>
    ensures { option_map shown result ≡ spec.immediate_at (lex.all_shown tokens.now) }
{
    if let [Token::Word(w)] = tokens
        && is_name(w)
    {
        return Some(Arg::ImmName(w));
    }
    let n = number_at(tokens)?;
    Some(Arg::Imm(n))
}

fn plain_at<'a>(tokens: &[Token<'a>]) -> Option<Arg<'a>>
    ensures { option_map shown result ≡ spec.plain_at (lex.all_shown tokens.now) }
{
    let o = operand_at(tokens)?;
    Some(Arg::Plain(o))
}

fn star_at<'a>(tokens: &[Token<'a>]) -> Option<Arg<'a>>
    ensures { option_map shown result ≡ spec.star_at (lex.all_shown tokens.now) }
{
    let o = operand_at(tokens)?;
    Some(Arg::Star(o))
}

/// A word alone, where `.` is the present place.
fn word_at<'a>(w: &[u8], tokens: &[Token<'a>]) -> Option<Arg<'a>>
    ensures { option_map shown result ≡ spec.word_at w.now (lex.all_shown tokens.now) }
{
    if w == b".".as_slice() {
        return Some(Arg::Here);
    }
    plain_at(tokens)
}

/// What begins with a mark, where `rest` stands behind the mark.
fn mark_at<'a>(s: Sign, tokens: &[Token<'a>], rest: &[Token<'a>]) -> Option<Arg<'a>>
    ensures { option_map shown result ≡ spec.mark_at s (lex.all_shown tokens.now) (lex.all_shown rest.now) }
{
    match s {
        Sign::Dollar => immediate_at(rest),
        Sign::Star => star_at(rest),
        _ => plain_at(tokens),
    }
}

/// What begins with a word, where `rest` stands behind the word.
fn word_first<'a>(w: &[u8], tokens: &[Token<'a>], rest: &[Token<'a>]) -> Option<Arg<'a>>
    ensures { option_map shown result ≡ spec.word_first w.now (lex.all_shown tokens.now) (lex.all_shown rest.now) }
{
    if rest.is_empty() {
        return word_at(w, tokens);
    }
    plain_at(tokens)
}

/// A text alone.
fn text_first<'a>(q: &'a [u8], rest: &[Token<'a>]) -> Option<Arg<'a>>
    ensures { option_map shown result ≡ spec.text_first q.now (lex.all_shown rest.now) }
{
    if rest.is_empty() {
        return Some(Arg::Text(q));
    }
    None
}

/// One argument.
fn argument_at<'a>(tokens: &[Token<'a>]) -> Option<Arg<'a>>
    ensures { option_map shown result ≡ spec.argument_at (lex.all_shown tokens.now) }
{
    match tokens {
        [] => None,
        [Token::Mark(s), rest @ ..] => mark_at(*s, tokens, rest),
        [Token::Word(w), rest @ ..] => word_first(w, tokens, rest),
        [Token::Text(q), rest @ ..] => text_first(q, rest),
        [Token::Bad, ..] => None,
    }
}

fn is_comma(t: &Token<'_>) -> bool
    ensures { result ≡ spec.is_comma (lex.shown t.now) }
{
    matches!(t, Token::Mark(Sign::Comma))
}

/// The parts between commas.
fn between_commas<'b, 'a>(
    alloc: Global,
    tokens: &'b [Token<'a>],
) -> Result<Vec<&'b [Token<'a>]>, AllocError>
    ensures { IfOk result (λ v. map (λ x. lex.all_shown x.now) v.items ≡ slice_split spec.is_comma (lex.all_shown tokens.now)) }
{
    tokens.split(|t| is_comma(t)).collect(alloc)
}

/// Arguments with commas between them, or none. None where a part is no argument.
pub fn arguments_at<'a>(
    alloc: Global,
    tokens: &[Token<'a>],
) -> Result<Option<Vec<Arg<'a>>>, AllocError>
    ensures { IfOk result (λ o. option_map (λ v. map shown v.items) o ≡ spec.arguments_at (lex.all_shown tokens.now)) }
{
    let mut out = Vec::new(alloc);
    if tokens.is_empty() {
        return Ok(Some(out));
    }
    for part in &between_commas(alloc, tokens)? {
        match argument_at(part) {
            Some(a) => out.push(a)?,
            None => return Ok(None),
        }
    }
    Ok(Some(out))
}
