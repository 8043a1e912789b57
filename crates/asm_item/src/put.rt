// Statements put at the end of a text.
ghost use Rattle.std.specs.Prelude.{◌≡◌, ◌++◌, [], ◌∷◌, OnOk};
ghost use Rattle.asm_item.specs.Args.{shown_operand, shown, number_text, operand_text, argument_text, register_text};
ghost use Rattle.asm_item.specs.Statements.{bare, with_one, with_two, statement_text};

use crate::args::{Arg, Number, Operand, Size};
use crate::registers::register_name;
use crate::words::Keyword;
use itoa::Buffer;
use std::alloc::AllocError;

pub fn put(out: &mut Vec<u8>, bytes: &[u8]) -> Result<(), AllocError>
    ensures { OnOk result (out.new.items ≡ out.old.items ++ bytes.now) }
{
    out.extend_from_slice(bytes)
}

fn put_number(out: &mut Vec<u8>, n: Number) -> Result<(), AllocError>
    ensures { OnOk result (out.new.items ≡ out.old.items ++ number_text n) }
{
    let mut buffer = Buffer::new();
    if n.minus {
        put(out, b"-")?;
    }
    put(out, buffer.format(n.size).as_bytes())
}

fn put_register(out: &mut Vec<u8>, size: Size, r: u8) -> Result<(), AllocError>
    ensures { OnOk result (out.new.items ≡ out.old.items ++ 37 ∷ register_text size r) }
{
    put(out, b"%")?;
    put(out, register_name(size, r))
}

fn put_operand(out: &mut Vec<u8>, o: Operand<'_>) -> Result<(), AllocError>
    ensures { OnOk result (out.new.items ≡ out.old.items ++ operand_text (shown_operand o.entry)) }
{
    match o {
        Operand::Register(size, r) => put_register(out, size, r),
        Operand::Number(n) => put_number(out, n),
        Operand::Name(k) => put(out, k),
        Operand::Plus(k, n) => {
            put(out, k)?;
            put(out, b" + ")?;
            put_number(out, n)
        }
        Operand::Minus(k, n) => {
            put(out, k)?;
            put(out, b" - ")?;
            put_number(out, n)
        }
        Operand::Base(n, r) => {
            put_number(out, n)?;
            put(out, b"(")?;
            put_register(out, Size::Full, r)?;
            put(out, b")")
        }
    }
}

pub fn put_arg(out: &mut Vec<u8>, a: Arg<'_>) -> Result<(), AllocError>
    ensures { OnOk result (out.new.items ≡ out.old.items ++ argument_text (shown a.entry)) }
{
    match a {
        Arg::Plain(o) => put_operand(out, o),
        Arg::Star(o) => {
            put(out, b"*")?;
            put_operand(out, o)
        }
        Arg::Imm(n) => {
            put(out, b"$")?;
            put_number(out, n)
        }
        Arg::ImmName(k) => {
            put(out, b"$")?;
            put(out, k)
        }
        Arg::Text(q) => {
            put(out, b"\"")?;
            put(out, q)?;
            put(out, b"\"")
        }
        Arg::Here => put(out, b"."),
    }
}

pub fn put_bare(out: &mut Vec<u8>, word: Keyword) -> Result<(), AllocError>
    ensures { OnOk result (out.new.items ≡ out.old.items ++ statement_text (bare word)) }
{
    put(out, word.text())
}

pub fn put_one(out: &mut Vec<u8>, word: Keyword, a: Arg<'_>) -> Result<(), AllocError>
    ensures { OnOk result (out.new.items ≡ out.old.items ++ statement_text (with_one word (shown a.entry))) }
{
    put(out, word.text())?;
    put(out, b" ")?;
    put_arg(out, a)
}

pub fn put_two(out: &mut Vec<u8>, word: Keyword, a: Arg<'_>, b: Arg<'_>) -> Result<(), AllocError>
    ensures { OnOk result (out.new.items ≡ out.old.items ++ statement_text (with_two word (shown a.entry) (shown b.entry))) }
{
    put_one(out, word, a)?;
    put(out, b", ")?;
    put_arg(out, b)
}
