// Statements by their rows.
ghost use Rattle.std.specs.Prelude.{◌≡◌, IfOk, map};
ghost use Rattle.std.specs.Option.{option_map};
ghost use Rattle.asm_item.specs.Args.{shown};
ghost use Rattle.asm_read.specs.Stmts as spec;
ghost use Rattle.asm_read.specs.Coded.{shown_coded};
ghost use Rattle.asm_read.specs.Shown.{shown_stmt, shown_part};

use crate::numerals::{byte_of, full_of, half_of, signed_of};
use crate::table::{Coded, alone, one, two};
use asm_item::{Arg, Item, Keyword, Label, Number, Operand, Val, Word, is_file};
use num_le::Name;
use std::alloc::{AllocError, Global};

/// A part of a group.
#[derive(Drop)]
pub enum Part {
    Val(Val),
    Scl(i32),
    Ty(u16),
    Tag(Name),
    Line(u16),
    Size(u16),
    Dims(Vec<u16>),
}

/// A label or a statement.
#[derive(Drop)]
pub enum Stmt {
    /// An item that is one statement.
    Item(Item),
    /// `.def`
    Begin(Name),
    /// A part of a group.
    Part(Part),
    /// `.endef`
    End,
}

fn name_of<'a>(a: Arg<'a>) -> Option<&'a [u8]>
    ensures { option_map (λ k. k.now) result ≡ spec.name_of (shown a.entry) }
{
    match a {
        Arg::Plain(Operand::Name(k)) => Some(k),
        _ => None,
    }
}

fn number_of(a: Arg<'_>) -> Option<Number>
    ensures { result ≡ spec.number_of (shown a.entry) }
{
    match a {
        Arg::Plain(Operand::Number(n)) => Some(n),
        _ => None,
    }
}

fn full(a: Arg<'_>) -> Option<u32>
    ensures { result ≡ spec.full (shown a.entry) }
{
    full_of(number_of(a)?)
}

fn half(a: Arg<'_>) -> Option<u16>
    ensures { result ≡ spec.half (shown a.entry) }
{
    half_of(number_of(a)?)
}

fn byte(a: Arg<'_>) -> Option<u8>
    ensures { result ≡ spec.byte (shown a.entry) }
{
    byte_of(number_of(a)?)
}

fn signed(a: Arg<'_>) -> Option<i32>
    ensures { result ≡ spec.signed (shown a.entry) }
{
    signed_of(number_of(a)?)
}

/// The number that is taken off, in 32 bits with its sign.
fn opposite(n: Number) -> Option<i32>
    ensures { result ≡ spec.opposite n }
{
    Some(0u32.wrapping_sub(full_of(n)?).cast_signed())
}

fn one_item(i: Option<Item>) -> Option<Stmt>
    ensures { option_map shown_stmt result ≡ spec.one_item i }
{
    Some(Stmt::Item(i?))
}

fn one_part(p: Option<Part>) -> Option<Stmt>
    ensures { option_map shown_stmt result ≡ spec.one_part (option_map shown_part p) }
{
    Some(Stmt::Part(p?))
}

/// The instruction, with a name of its own in its label.
fn code(alloc: Global, coded: Option<Coded<'_>>) -> Result<Option<Stmt>, AllocError>
    ensures { IfOk result (λ s. option_map shown_stmt s ≡ spec.code (option_map shown_coded coded.entry)) }
{
    let Some(c) = coded else {
        return Ok(None);
    };
    let label = match c.label {
        None => None,
        Some(l) => Some(Label {
            field: l.field,
            name: Name::of(alloc, l.name)?,
            add: l.add,
        }),
    };
    Ok(Some(Stmt::Item(Item::Code(c.ins, label))))
}

/// The name of an argument that is one.
fn own_name(alloc: Global, a: Arg<'_>) -> Result<Option<Name>, AllocError>
    ensures { IfOk result (λ k. k ≡ spec.name_of (shown a.entry)) }
{
    match name_of(a) {
        None => Ok(None),
        Some(k) => Ok(Some(Name::of(alloc, k)?)),
    }
}

fn file(alloc: Global, a: Arg<'_>) -> Result<Option<Item>, AllocError>
    ensures { IfOk result (λ i. i ≡ spec.file (shown a.entry)) }
{
    match a {
        Arg::Text(q) if is_file(q) => Ok(Some(Item::File(Name::of(alloc, q)?))),
        _ => Ok(None),
    }
}

fn word_label(alloc: Global, k: &[u8], add: Option<i32>) -> Result<Option<Word>, AllocError>
    ensures { IfOk result (λ w. w ≡ spec.word_label k.now add) }
{
    match add {
        None => Ok(None),
        Some(add) => Ok(Some(Word::Label(Name::of(alloc, k)?, add))),
    }
}

fn datum(alloc: Global, a: Arg<'_>) -> Result<Option<Word>, AllocError>
    ensures { IfOk result (λ w. w ≡ spec.datum (shown a.entry)) }
{
    match a {
        Arg::Plain(Operand::Number(n)) => Ok(full_of(n).map(|x| Word::Number(x))),
        Arg::Plain(Operand::Name(k)) => word_label(alloc, k, Some(0)),
        Arg::Plain(Operand::Plus(k, n)) => word_label(alloc, k, signed_of(n)),
        Arg::Plain(Operand::Minus(k, n)) => word_label(alloc, k, opposite(n)),
        _ => Ok(None),
    }
}

fn value(alloc: Global, a: Arg<'_>) -> Result<Option<Val>, AllocError>
    ensures { IfOk result (λ v. v ≡ spec.value (shown a.entry)) }
{
    match a {
        Arg::Plain(Operand::Number(n)) => Ok(full_of(n).map(|x| Val::Number(x))),
        Arg::Plain(Operand::Name(k)) => Ok(Some(Val::Label(Name::of(alloc, k)?))),
        Arg::Here => Ok(Some(Val::Here)),
        _ => Ok(None),
    }
}

/// One number of 16 bits for each argument.
fn each_half(alloc: Global, args: &[Arg<'_>]) -> Result<Option<Vec<u16>>, AllocError>
    ensures { IfOk result (λ o. option_map (λ v. v.items) o ≡ spec.each_half (map shown args.now)) }
{
    let mut out = Vec::new(alloc);
    for a in args {
        match half(*a) {
            Some(n) => out.push(n)?,
            None => return Ok(None),
        }
    }
    Ok(Some(out))
}

fn dimensions(alloc: Global, args: &[Arg<'_>]) -> Result<Option<Stmt>, AllocError>
    ensures { IfOk result (λ s. option_map shown_stmt s ≡ spec.one_part (spec.dimensions (map shown args.now))) }
{
    Ok(one_part(each_half(alloc, args)?.map(|ns| Part::Dims(ns))))
}

fn line_number(a: Arg<'_>) -> Option<Item>
    ensures { result ≡ spec.line_number (shown a.entry) }
{
    let n = half(a)?;
    if n == 0 {
        return None;
    }
    Some(Item::Ln(u32::from(n)))
}

fn align(a: Arg<'_>) -> Option<Item>
    ensures { result ≡ spec.align (shown a.entry) }
{
    if full(a) != Some(4) {
        return None;
    }
    Some(Item::Align)
}

fn bare_statement(alloc: Global, word: Keyword) -> Result<Option<Stmt>, AllocError>
    ensures { IfOk result (λ s. option_map shown_stmt s ≡ spec.bare_statement word) }
{
    match word {
        Keyword::Text => Ok(Some(Stmt::Item(Item::Section(1)))),
        Keyword::Init => Ok(Some(Stmt::Item(Item::Section(2)))),
        Keyword::Endef => Ok(Some(Stmt::End)),
        _ => code(alloc, alone(word)),
    }
}

/// The part of a group that a word and an argument make.
fn group_part(alloc: Global, word: Keyword, a: Arg<'_>) -> Result<Option<Part>, AllocError>
    ensures { IfOk result (λ p. option_map shown_part p ≡ spec.group_part word (shown a.entry)) }
{
    match word {
        Keyword::Val => Ok(value(alloc, a)?.map(|v| Part::Val(v))),
        Keyword::Scl => Ok(signed(a).map(|z| Part::Scl(z))),
        Keyword::Ty => Ok(half(a).map(|n| Part::Ty(n))),
        Keyword::Tag => Ok(own_name(alloc, a)?.map(|k| Part::Tag(k))),
        Keyword::Line => Ok(half(a).map(|n| Part::Line(n))),
        Keyword::Size => Ok(half(a).map(|n| Part::Size(n))),
        _ => Ok(None),
    }
}

/// The item that a directive and an argument make.
fn directive(alloc: Global, word: Keyword, a: Arg<'_>) -> Result<Option<Item>, AllocError>
    ensures { IfOk result (λ i. i ≡ spec.directive word (shown a.entry)) }
{
    match word {
        Keyword::File => file(alloc, a),
        Keyword::Globl => Ok(own_name(alloc, a)?.map(|k| Item::Globl(k))),
        Keyword::Byte => Ok(byte(a).map(|n| Item::Byte(n))),
        Keyword::Value => Ok(half(a).map(|n| Item::Value(n))),
        Keyword::Long => Ok(datum(alloc, a)?.map(|w| Item::Long(w))),
        Keyword::Zero => Ok(full(a).map(|n| Item::Zero(n))),
        Keyword::Align => Ok(align(a)),
        Keyword::Ln => Ok(line_number(a)),
        _ => Ok(None),
    }
}

fn begin(alloc: Global, a: Arg<'_>) -> Result<Option<Stmt>, AllocError>
    ensures { IfOk result (λ s. option_map shown_stmt s ≡ spec.begin_of (shown a.entry)) }
{
    Ok(own_name(alloc, a)?.map(|k| Stmt::Begin(k)))
}

fn one_statement(alloc: Global, word: Keyword, a: Arg<'_>) -> Result<Option<Stmt>, AllocError>
    ensures { IfOk result (λ s. option_map shown_stmt s ≡ spec.one_statement word (shown a.entry)) }
{
    match word {
        Keyword::File
        | Keyword::Globl
        | Keyword::Byte
        | Keyword::Value
        | Keyword::Long
        | Keyword::Zero
        | Keyword::Align
        | Keyword::Ln => Ok(one_item(directive(alloc, word, a)?)),
        Keyword::Def => begin(alloc, a),
        Keyword::Val | Keyword::Scl | Keyword::Ty | Keyword::Tag | Keyword::Line | Keyword::Size =>
            Ok(one_part(group_part(alloc, word, a)?)),
        Keyword::Dim => dimensions(alloc, &[a]),
        _ => code(alloc, one(word, a)),
    }
}

fn common(alloc: Global, word: Keyword, a: Arg<'_>, b: Arg<'_>) -> Result<Option<Item>, AllocError>
    ensures { IfOk result (λ i. i ≡ spec.common word (shown a.entry) (shown b.entry)) }
{
    let (Some(k), Some(n)) = (name_of(a), full(b)) else {
        return Ok(None);
    };
    let name = Name::of(alloc, k)?;
    match word {
        Keyword::Comm => Ok(Some(Item::Comm(name, n))),
        _ => Ok(Some(Item::Lcomm(name, n))),
    }
}

fn two_statement(
    alloc: Global,
    word: Keyword,
    a: Arg<'_>,
    b: Arg<'_>,
) -> Result<Option<Stmt>, AllocError>
    ensures { IfOk result (λ s. option_map shown_stmt s ≡ spec.two_statement word (shown a.entry) (shown b.entry)) }
{
    match word {
        Keyword::Comm | Keyword::Lcomm => Ok(one_item(common(alloc, word, a, b)?)),
        Keyword::Dim => dimensions(alloc, &[a, b]),
        _ => code(alloc, two(word, a, b)),
    }
}

fn long_statement(
    alloc: Global,
    word: Keyword,
    args: &[Arg<'_>],
) -> Result<Option<Stmt>, AllocError>
    ensures { IfOk result (λ s. option_map shown_stmt s ≡ spec.long_statement word (map shown args.now)) }
{
    match word {
        Keyword::Dim if args.len() <= 4 => dimensions(alloc, args),
        _ => Ok(None),
    }
}

/// The statement of a word and its arguments. None where there is none.
#[tactic(auto, using(crate::proofs::Rows::make_long))]
pub fn make(alloc: Global, word: Keyword, args: &[Arg<'_>]) -> Result<Option<Stmt>, AllocError>
    ensures { IfOk result (λ s. option_map shown_stmt s ≡ spec.make word (map shown args.now)) }
{
    match args {
        [] => bare_statement(alloc, word),
        [a] => one_statement(alloc, word, *a),
        [a, b] => two_statement(alloc, word, *a, *b),
        [_, _, _, ..] => long_statement(alloc, word, args),
    }
}
