// The statement of each instruction.
ghost use Rattle.std.specs.Prelude.{◌≡◌, ◌++◌, OnOk};
ghost use Rattle.std.specs.Option.{option_map};
ghost use Rattle.asm_item.specs.Args as spec;
ghost use Rattle.asm_item.specs.Args.{shown_operand, shown, unsigned, signed};
ghost use Rattle.asm_item.specs.Rows as rows;
ghost use Rattle.asm_item.specs.Statements.{statement_text};

use crate::args::{Arg, Number, Operand, Size};
use crate::model::Label;
use crate::put::{put_bare, put_one, put_two};
use crate::words::Keyword;
use isa386::{
    Callee, Dest, DivideOp, Field, Ins, Narrow, Opnd, PlainOp, StackOp, StringOp, Target, UnaryOp,
    Way, WidenOp,
};
use std::alloc::AllocError;

pub fn unsigned_number(n: u32) -> Number
    ensures { result ≡ unsigned n }
{
    Number {
        minus: false,
        size: n,
    }
}

pub fn signed_number(z: i32) -> Number
    ensures { result ≡ signed z }
{
    Number {
        minus: z < 0,
        size: z.unsigned_abs(),
    }
}

/// The label, if it stands in this field.
fn label_in<'a>(field: Field, label: &'a Option<Label>) -> Option<&'a Label>
    ensures { option_map (λ x. x.now) result ≡ rows.label_in field label.now }
{
    match label {
        Some(l) if l.field == field => Some(l),
        _ => None,
    }
}

pub fn name_and<'a>(name: &'a [u8], add: i32) -> Operand<'a>
    ensures { shown_operand result ≡ rows.name_and name.now add }
{
    if add == 0 {
        Operand::Name(name)
    } else {
        Operand::Plus(name, signed_number(add))
    }
}

fn absolute<'a>(disp: i32, label: Option<&'a Label>) -> Operand<'a>
    ensures { shown_operand result ≡ rows.absolute disp (option_map (λ x. x.now) label.entry) }
{
    match label {
        None => Operand::Number(signed_number(disp)),
        Some(l) => name_and(l.name.as_slice(), l.add),
    }
}

fn operand<'a>(size: Size, o: &Opnd, label: &'a Option<Label>) -> Operand<'a>
    ensures { shown_operand result ≡ rows.operand size o.now label.now }
{
    match o {
        Opnd::Reg(r) => Operand::Register(size, *r),
        Opnd::Mem {
            base: None,
            disp,
            ..
        } => absolute(*disp, label_in(Field::Disp, label)),
        Opnd::Mem {
            base: Some(b),
            disp,
            ..
        } => Operand::Base(signed_number(*disp), *b),
    }
}

fn rm<'a>(o: &Opnd, label: &'a Option<Label>) -> Arg<'a>
    ensures { shown result ≡ rows.rm o.now label.now }
{
    Arg::Plain(operand(Size::Full, o, label))
}

fn rm16<'a>(o: &Opnd, label: &'a Option<Label>) -> Arg<'a>
    ensures { shown result ≡ rows.rm16 o.now label.now }
{
    Arg::Plain(operand(Size::Short, o, label))
}

fn rm8<'a>(o: &Opnd, label: &'a Option<Label>) -> Arg<'a>
    ensures { shown result ≡ rows.rm8 o.now label.now }
{
    Arg::Plain(operand(Size::Byte, o, label))
}

fn full<'a>(r: u8) -> Arg<'a>
    ensures { shown result ≡ rows.full r }
{
    Arg::Plain(Operand::Register(Size::Full, r))
}

fn short<'a>(r: u8) -> Arg<'a>
    ensures { shown result ≡ rows.short r }
{
    Arg::Plain(Operand::Register(Size::Short, r))
}

fn byte<'a>(r: u8) -> Arg<'a>
    ensures { shown result ≡ rows.byte r }
{
    Arg::Plain(Operand::Register(Size::Byte, r))
}

fn immediate<'a>(n: u32, label: &'a Option<Label>) -> Arg<'a>
    ensures { shown result ≡ rows.immediate n label.now }
{
    match label_in(Field::Imm, label) {
        None => Arg::Imm(signed_number(n.cast_signed())),
        Some(l) => Arg::ImmName(l.name.as_slice()),
    }
}

fn destination<'a>(d: i32, label: &'a Option<Label>) -> Arg<'a>
    ensures { shown result ≡ rows.destination d label.now }
{
    match label_in(Field::Target, label) {
        None => Arg::Plain(Operand::Number(signed_number(d))),
        Some(l) => Arg::Plain(Operand::Name(l.name.as_slice())),
    }
}

pub fn distance(t: Target) -> i32
    ensures { result ≡ rows.distance t }
{
    match t {
        Target::Near(d) => d,
        Target::Short(d) => i32::from(d),
    }
}

pub fn source_size(op: WidenOp) -> Size
    ensures { result ≡ rows.source_size op }
{
    match op {
        WidenOp::SignedByte | WidenOp::ZeroByte => Size::Byte,
        WidenOp::SignedWord | WidenOp::ZeroWord => Size::Short,
    }
}

fn put_stack(out: &mut Vec<u8>, op: StackOp, l: &Option<Label>) -> Result<(), AllocError>
    ensures { OnOk result (out.new.items ≡ out.old.items ++ statement_text (rows.row (Ins.Stack op) l.now)) }
{
    match op {
        StackOp::Push(r) => put_one(out, Keyword::Pushl, full(r)),
        StackOp::PushImm(n) => put_one(out, Keyword::Pushl, immediate(n, l)),
        StackOp::Pop(r) => put_one(out, Keyword::Popl, full(r)),
    }
}

fn put_narrow(
    out: &mut Vec<u8>,
    op: Narrow,
    r: u8,
    o: &Opnd,
    l: &Option<Label>,
) -> Result<(), AllocError>
    ensures { OnOk result (out.new.items ≡ out.old.items ++ statement_text (rows.row (Ins.MoveNarrow op r o.now) l.now)) }
{
    match op {
        Narrow::ByteToOperand => put_two(out, Keyword::Movb, byte(r), rm8(o, l)),
        Narrow::ByteToRegister => put_two(out, Keyword::Movb, rm8(o, l), byte(r)),
        Narrow::WordToOperand => put_two(out, Keyword::Movw, short(r), rm16(o, l)),
    }
}

fn put_move_number(
    out: &mut Vec<u8>,
    dest: &Dest,
    n: u32,
    l: &Option<Label>,
) -> Result<(), AllocError>
    ensures { OnOk result (out.new.items ≡ out.old.items ++ statement_text (rows.row (Ins.MoveImm dest.now n) l.now)) }
{
    match dest {
        Dest::Register(r) => put_two(out, Keyword::Movl, immediate(n, l), full(*r)),
        Dest::Operand(o) => put_two(out, Keyword::Movl, immediate(n, l), rm(o, l)),
    }
}

fn put_unary(out: &mut Vec<u8>, op: UnaryOp, o: &Opnd, l: &Option<Label>) -> Result<(), AllocError>
    ensures { OnOk result (out.new.items ≡ out.old.items ++ statement_text (rows.row (Ins.Unary op o.now) l.now)) }
{
    match op {
        UnaryOp::Not => put_one(out, Keyword::Notl, rm(o, l)),
        UnaryOp::Neg => put_one(out, Keyword::Negl, rm(o, l)),
    }
}

fn put_divide(
    out: &mut Vec<u8>,
    op: DivideOp,
    o: &Opnd,
    l: &Option<Label>,
) -> Result<(), AllocError>
    ensures { OnOk result (out.new.items ≡ out.old.items ++ statement_text (rows.row (Ins.Divide op o.now) l.now)) }
{
    match op {
        DivideOp::Unsigned => put_one(out, Keyword::Divl, rm(o, l)),
        DivideOp::Signed => put_one(out, Keyword::Idivl, rm(o, l)),
    }
}

fn put_call(out: &mut Vec<u8>, callee: &Callee, l: &Option<Label>) -> Result<(), AllocError>
    ensures { OnOk result (out.new.items ≡ out.old.items ++ statement_text (rows.row (Ins.Call callee.now) l.now)) }
{
    match callee {
        Callee::Relative(d) => put_one(out, Keyword::Call, destination(*d, l)),
        Callee::Indirect(o) => put_one(out, Keyword::Call, Arg::Star(operand(Size::Full, o, l))),
    }
}

fn put_plain(out: &mut Vec<u8>, op: PlainOp, l: &Option<Label>) -> Result<(), AllocError>
    ensures { OnOk result (out.new.items ≡ out.old.items ++ statement_text (rows.row (Ins.Plain op) l.now)) }
{
    match op {
        PlainOp::Ret => put_bare(out, Keyword::Ret),
        PlainOp::Leave => put_bare(out, Keyword::Leave),
        PlainOp::Nop => put_bare(out, Keyword::Nop),
    }
}

fn put_string(out: &mut Vec<u8>, op: StringOp, l: &Option<Label>) -> Result<(), AllocError>
    ensures { OnOk result (out.new.items ≡ out.old.items ++ statement_text (rows.row (Ins.Str op) l.now)) }
{
    match op {
        StringOp::RepMovsb => put_one(out, Keyword::Rep, Arg::Plain(Operand::Name(b"movsb"))),
        StringOp::RepStosb => put_one(out, Keyword::Rep, Arg::Plain(Operand::Name(b"stosb"))),
        StringOp::Cld => put_bare(out, Keyword::Cld),
    }
}

/// An instruction, with the label that a field of it holds.
pub fn put_code(out: &mut Vec<u8>, ins: &Ins, l: &Option<Label>) -> Result<(), AllocError>
    ensures { OnOk result (out.new.items ≡ out.old.items ++ statement_text (rows.row ins.now l.now)) }
{
    match ins {
        Ins::Move(Way::ToOperand, r, o) => put_two(out, Keyword::Movl, full(*r), rm(o, l)),
        Ins::Move(Way::ToRegister, r, o) => put_two(out, Keyword::Movl, rm(o, l), full(*r)),
        Ins::MoveImm(dest, n) => put_move_number(out, dest, *n, l),
        Ins::MoveNarrow(op, r, o) => put_narrow(out, *op, *r, o, l),
        Ins::Lea(r, m) => put_two(out, Keyword::Leal, rm(m, l), full(*r)),
        Ins::Stack(op) => put_stack(out, *op, l),
        Ins::ArithTo(op, r, o) => put_two(out, Keyword::Arith(*op), full(*r), rm(o, l)),
        Ins::ArithFrom(op, r, o) => put_two(out, Keyword::Arith(*op), rm(o, l), full(*r)),
        Ins::ArithImm(op, o, n) => put_two(out, Keyword::Arith(*op), immediate(*n, l), rm(o, l)),
        Ins::Test(r, o) => put_two(out, Keyword::Testl, full(*r), rm(o, l)),
        Ins::Imul(r, o) => put_two(out, Keyword::Imull, rm(o, l), full(*r)),
        Ins::Unary(op, o) => put_unary(out, *op, o, l),
        Ins::Divide(op, o) => put_divide(out, *op, o, l),
        Ins::Cltd => put_bare(out, Keyword::Cltd),
        Ins::Shift(op, o) => put_two(out, Keyword::Shift(*op), byte(1), rm(o, l)),
        Ins::Set(cc, o) => put_one(out, Keyword::Set(*cc), rm8(o, l)),
        Ins::Widen(op, r, o) => {
            let source = Arg::Plain(operand(source_size(*op), o, l));
            put_two(out, Keyword::Widen(*op), source, full(*r))
        }
        Ins::Call(callee) => put_call(out, callee, l),
        Ins::Jump(t) => put_one(out, Keyword::Jmp, destination(distance(*t), l)),
        Ins::Branch(cc, t) => put_one(out, Keyword::Jump(*cc), destination(distance(*t), l)),
        Ins::Plain(op) => put_plain(out, *op, l),
        Ins::Int3 => put_bare(out, Keyword::Int3),
        Ins::Str(op) => put_string(out, *op, l),
        Ins::Lcall => put_two(
            out,
            Keyword::Lcall,
            Arg::Imm(unsigned_number(7)),
            Arg::Imm(unsigned_number(0)),
        ),
    }
}
