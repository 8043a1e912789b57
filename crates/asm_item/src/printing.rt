// The text of items.
ghost use Rattle.std.specs.Prelude.{◌≡◌, ◌≤◌, ◌++◌, ◌∷◌, take, codes, IfOk, IsTrue, OnOk};
ghost use Rattle.asm_item.specs.Args.{shown};
ghost use Rattle.asm_item.specs.Groups as groups;
ghost use Rattle.asm_item.specs.Normal.{are_normal};
ghost use Rattle.asm_item.specs.Printed as spec;
ghost use Rattle.asm_item.specs.Rows.{row};
ghost use Rattle.asm_item.specs.Statements.{bare, with_one, with_two, line_text, further_text};

use crate::args::{Arg, Operand};
use crate::model::{DefGroup, Item, Items, Label, Val, Word};
use crate::put::{put, put_arg, put_bare, put_one, put_two};
use crate::rows::{name_and, put_code, signed_number, unsigned_number};
use crate::words::Keyword;
use isa386::Ins;
use num_le::Name;
use std::alloc::{AllocError, Global};

fn name<'a>(k: &'a [u8]) -> Arg<'a>
    ensures { shown result ≡ spec.name_argument k.now }
{
    Arg::Plain(Operand::Name(k))
}

fn number<'a>(n: u32) -> Arg<'a>
    ensures { shown result ≡ spec.number_argument n }
{
    Arg::Plain(Operand::Number(unsigned_number(n)))
}

fn datum(w: &Word) -> Arg<'_>
    ensures { shown result ≡ spec.datum_argument w.now }
{
    match w {
        Word::Number(n) => number(*n),
        Word::Label(k, add) => Arg::Plain(name_and(k.as_slice(), *add)),
    }
}

fn value(v: &Val) -> Arg<'_>
    ensures { shown result ≡ groups.value_argument v.now }
{
    match v {
        Val::Number(n) => number(*n),
        Val::Label(k) => name(k.as_slice()),
        Val::Here => Arg::Here,
    }
}

/// `; `, a word and its argument.
fn put_part(out: &mut Vec<u8>, word: Keyword, a: Arg<'_>) -> Result<(), AllocError>
    ensures { OnOk result (out.new.items ≡ out.old.items ++ groups.further_statement (with_one word (shown a.entry))) }
{
    put(out, b"; ")?;
    put_one(out, word, a)
}

fn put_val(out: &mut Vec<u8>, v: &Val) -> Result<(), AllocError>
    ensures { OnOk result (out.new.items ≡ out.old.items ++ groups.parts_text (groups.val_parts v.now)) }
{
    match v {
        Val::Number(0) => Ok(()),
        _ => put_part(out, Keyword::Val, value(v)),
    }
}

fn put_scl(out: &mut Vec<u8>, scl: i32) -> Result<(), AllocError>
    ensures { OnOk result (out.new.items ≡ out.old.items ++ groups.parts_text (groups.scl_parts scl)) }
{
    if scl == 0 {
        return Ok(());
    }
    let class = Arg::Plain(Operand::Number(signed_number(scl)));
    put_part(out, Keyword::Scl, class)
}

fn put_ty(out: &mut Vec<u8>, n: u16) -> Result<(), AllocError>
    ensures { OnOk result (out.new.items ≡ out.old.items ++ groups.parts_text (groups.number_parts groups.ty n)) }
{
    if n == 0 {
        return Ok(());
    }
    put_part(out, Keyword::Ty, number(u32::from(n)))
}

fn put_tag(out: &mut Vec<u8>, tag: &Option<Name>) -> Result<(), AllocError>
    ensures { OnOk result (out.new.items ≡ out.old.items ++ groups.parts_text (groups.tag_parts tag.now)) }
{
    match tag {
        None => Ok(()),
        Some(k) => put_part(out, Keyword::Tag, name(k.as_slice())),
    }
}

fn put_line_number(out: &mut Vec<u8>, n: u32) -> Result<(), AllocError>
    ensures { OnOk result (out.new.items ≡ out.old.items ++ groups.parts_text (groups.number_parts groups.line n)) }
{
    if n == 0 {
        return Ok(());
    }
    put_part(out, Keyword::Line, number(n))
}

fn put_size(out: &mut Vec<u8>, n: u32) -> Result<(), AllocError>
    ensures { OnOk result (out.new.items ≡ out.old.items ++ groups.parts_text (groups.number_parts groups.size n)) }
{
    if n == 0 {
        return Ok(());
    }
    put_part(out, Keyword::Size, number(n))
}

/// How many dimensions there are up to the last that isn't 0.
fn significant(dims: &[u16; 4]) -> usize
    ensures within { result ≤ 4 }
    ensures front { take result dims.now ≡ groups.significant dims.now }
{
    match dims {
        [0, 0, 0, 0] => 0,
        [_, 0, 0, 0] => 1,
        [_, _, 0, 0] => 2,
        [_, _, _, 0] => 3,
        _ => 4,
    }
}

/// A comma, a blank and a number for each of these.
fn put_further(out: &mut Vec<u8>, ns: &[u16]) -> Result<(), AllocError>
    ensures { OnOk result (out.new.items ≡ out.old.items ++ further_text (groups.numbers ns.now)) }
{
    for n in ns {
        put(out, b", ")?;
        put_arg(out, number(u32::from(*n)))?;
    }
    Ok(())
}

fn put_dims(out: &mut Vec<u8>, dims: &[u16]) -> Result<(), AllocError>
    ensures { OnOk result (out.new.items ≡ out.old.items ++ groups.parts_text (groups.dims_parts dims.now)) }
{
    match dims {
        [] => Ok(()),
        [first, rest @ ..] => {
            put_part(out, Keyword::Dim, number(u32::from(*first)))?;
            put_further(out, rest)
        }
    }
}

/// The parts of a group that are not 0 or None.
fn put_parts(out: &mut Vec<u8>, g: &DefGroup) -> Result<(), AllocError>
    ensures { OnOk result (out.new.items ≡ out.old.items ++ groups.parts_text (groups.parts_of g.now)) }
{
    put_val(out, &g.val)?;
    put_scl(out, g.scl)?;
    put_ty(out, g.ty)?;
    put_tag(out, &g.tag)?;
    put_line_number(out, g.line)?;
    put_size(out, g.size)?;
    put_dims(out, &g.dims[..significant(&g.dims)])?;
    Ok(())
}

fn put_group(out: &mut Vec<u8>, g: &DefGroup) -> Result<(), AllocError>
    ensures { OnOk result (out.new.items ≡ out.old.items ++ groups.group_text g.now) }
{
    put(out, b"\t")?;
    put_one(out, Keyword::Def, name(g.name.as_slice()))?;
    put_parts(out, g)?;
    put(out, b"; .endef\n")
}

fn put_bare_line(out: &mut Vec<u8>, word: Keyword) -> Result<(), AllocError>
    ensures { OnOk result (out.new.items ≡ out.old.items ++ line_text (bare word)) }
{
    put(out, b"\t")?;
    put_bare(out, word)?;
    put(out, b"\n")
}

fn put_line(out: &mut Vec<u8>, word: Keyword, a: Arg<'_>) -> Result<(), AllocError>
    ensures { OnOk result (out.new.items ≡ out.old.items ++ line_text (with_one word (shown a.entry))) }
{
    put(out, b"\t")?;
    put_one(out, word, a)?;
    put(out, b"\n")
}

fn put_line_of_two(out: &mut Vec<u8>, word: Keyword, k: &[u8], n: u32) -> Result<(), AllocError>
    ensures { OnOk result (out.new.items ≡ out.old.items ++ line_text (with_two word (spec.name_argument k.now) (spec.number_argument n))) }
{
    put(out, b"\t")?;
    put_two(out, word, name(k), number(n))?;
    put(out, b"\n")
}

fn put_code_line(out: &mut Vec<u8>, ins: &Ins, l: &Option<Label>) -> Result<(), AllocError>
    ensures { OnOk result (out.new.items ≡ out.old.items ++ line_text (row ins.now l.now)) }
{
    put(out, b"\t")?;
    put_code(out, ins, l)?;
    put(out, b"\n")
}

fn put_label(out: &mut Vec<u8>, k: &[u8]) -> Result<(), AllocError>
    ensures { OnOk result (out.new.items ≡ out.old.items ++ (k.now ++ codes ":\n")) }
{
    put(out, k)?;
    put(out, b":\n")
}

fn section(s: u8) -> Keyword
    ensures { bare result ≡ spec.section_statement s }
{
    if s < 2 { Keyword::Text } else { Keyword::Init }
}

fn put_item(out: &mut Vec<u8>, item: &Item) -> Result<(), AllocError>
    ensures { OnOk result (out.new.items ≡ out.old.items ++ spec.item_text item.now) }
{
    match item {
        Item::Code(ins, label) => put_code_line(out, ins, label),
        Item::Label(k) => put_label(out, k.as_slice()),
        Item::Byte(n) => put_line(out, Keyword::Byte, number(u32::from(*n))),
        Item::Value(n) => put_line(out, Keyword::Value, number(u32::from(*n))),
        Item::Long(w) => put_line(out, Keyword::Long, datum(w)),
        Item::Zero(n) => put_line(out, Keyword::Zero, number(*n)),
        Item::Align => put_line(out, Keyword::Align, number(4)),
        Item::Section(s) => put_bare_line(out, section(*s)),
        Item::Globl(k) => put_line(out, Keyword::Globl, name(k.as_slice())),
        Item::Comm(k, n) => put_line_of_two(out, Keyword::Comm, k.as_slice(), *n),
        Item::Lcomm(k, n) => put_line_of_two(out, Keyword::Lcomm, k.as_slice(), *n),
        Item::Def(g) => put_group(out, g),
        Item::Ln(n) => put_line(out, Keyword::Ln, number(*n)),
        Item::File(k) => put_line(out, Keyword::File, Arg::Text(k.as_slice())),
    }
}

/// The text of normal items ([`crate::is_normal`]): one statement a line, with a tab before it, and a group
/// on one line. Reading that text gives these items back.
pub fn print(alloc: Global, items: &Items) -> Result<Vec<u8>, AllocError>
    requires normal { IsTrue (are_normal items.now) }
    ensures text { IfOk result (λ bytes. bytes.items ≡ spec.text_of items.now) }
{
    let mut out = Vec::new(alloc);
    for item in items.as_slice() {
        put_item(&mut out, item)?;
    }
    Ok(out)
}
