// The test whether items are normal.
ghost use Rattle.std.specs.Prelude.{◌≡◌, nat_lt, if◌then◌else◌};
ghost use Rattle.isa386.specs.declared.ins.Cond.{Cond};
ghost use Rattle.std.specs.List.{list_all};
ghost use Rattle.asm_item.specs.Normal as spec;

use crate::args::Size;
use crate::model::{DefGroup, Item, Items, Label, Val, Word};
use crate::rows::{distance, source_size};
use isa386::{Callee, Dest, Dw, Field, Ins, Narrow, Opnd, StackOp, Target, Way};
use num_le::Name;

fn is_digit(c: u8) -> bool
    ensures { result ≡ spec.is_digit c }
{
    48 <= c && c <= 57
}

/// Whether the byte may stand in a name: a letter, a digit, `_` or `.`.
pub fn is_name_byte(c: u8) -> bool
    ensures value { result ≡ spec.is_name_byte c }
{
    is_digit(c) || (65 <= c && c <= 90) || (97 <= c && c <= 122) || c == 95 || c == 46
}

fn are_name_bytes(k: &[u8]) -> bool
    ensures { result ≡ list_all spec.is_name_byte k.now }
{
    k.iter().all(|c| is_name_byte(*c))
}

/// Whether the bytes are a name: letters, digits, `_` and `.`, no digit first, and not `.` alone.
pub fn is_name(k: &[u8]) -> bool
    ensures value { result ≡ spec.is_name k.now }
{
    match k {
        [] => false,
        [c] => is_name_byte(*c) && !(is_digit(*c) || *c == 46),
        [c, rest @ ..] => is_name_byte(*c) && !is_digit(*c) && are_name_bytes(rest),
    }
}

/// Whether the number has 32 bits, as each of its type.
fn is_full(_n: u32) -> bool
    ensures { result ≡ spec.is_full _n }
{
    true
}

/// Whether the number has 32 bits with its sign, as each of its type.
fn is_signed(_z: i32) -> bool
    ensures { result ≡ spec.is_signed _z }
{
    true
}

fn is_half(n: u32) -> bool
    ensures { result ≡ spec.is_half n }
{
    n < 65536
}

fn is_zero(z: i32) -> bool
    ensures { result ≡ spec.is_zero z }
{
    z == 0
}

fn is_register(size: Size, r: u8) -> bool
    ensures { result ≡ spec.is_register size r }
{
    match size {
        Size::Full | Size::Short => r < 8,
        Size::Byte => r < 4,
    }
}

fn is_based(b: u8, index: Option<(u8, u8)>) -> bool
    ensures { result ≡ spec.is_based b index }
{
    match index {
        None => b < 8 && b != 4,
        Some(index) => b == 4 && index.0 == 4 && index.1 == 0,
    }
}

fn is_base(base: Option<u8>, index: Option<(u8, u8)>) -> bool
    ensures { result ≡ spec.is_base base index }
{
    match base {
        None => index.is_none(),
        Some(b) => is_based(b, index),
    }
}

fn is_wide(width: Dw) -> bool
    ensures { result ≡ spec.is_wide width }
{
    match width {
        Dw::D32 => true,
        Dw::D0 | Dw::D8 => false,
    }
}

fn is_memory(o: &Opnd) -> bool
    ensures { result ≡ spec.is_memory o.now }
{
    match o {
        Opnd::Reg(_) => false,
        Opnd::Mem {
            base,
            index,
            disp,
            width,
        } => is_base(*base, *index) && is_wide(*width) && is_signed(*disp),
    }
}

fn is_operand(size: Size, o: &Opnd) -> bool
    ensures { result ≡ spec.is_operand size o.now }
{
    match o {
        Opnd::Reg(r) => is_register(size, *r),
        Opnd::Mem { .. } => is_memory(o),
    }
}

fn is_first_move(way: Way, r: u8, o: &Opnd) -> bool
    ensures { result ≡ spec.is_first (Ins.Move way r o.now) }
{
    match way {
        Way::ToOperand => is_register(Size::Full, r) && is_operand(Size::Full, o),
        Way::ToRegister => is_register(Size::Full, r) && is_memory(o),
    }
}

fn is_first_move_number(dest: &Dest, n: u32) -> bool
    ensures { result ≡ spec.is_first (Ins.MoveImm dest.now n) }
{
    match dest {
        Dest::Register(r) => is_register(Size::Full, *r) && is_full(n),
        Dest::Operand(o) => is_memory(o) && is_full(n),
    }
}

fn is_first_narrow(op: Narrow, r: u8, o: &Opnd) -> bool
    ensures { result ≡ spec.is_first (Ins.MoveNarrow op r o.now) }
{
    match op {
        Narrow::ByteToOperand => is_register(Size::Byte, r) && is_operand(Size::Byte, o),
        Narrow::ByteToRegister => is_register(Size::Byte, r) && is_memory(o),
        Narrow::WordToOperand => is_register(Size::Short, r) && is_operand(Size::Short, o),
    }
}

fn is_first_stack(op: StackOp) -> bool
    ensures { result ≡ spec.is_first (Ins.Stack op) }
{
    match op {
        StackOp::Push(r) | StackOp::Pop(r) => is_register(Size::Full, r),
        StackOp::PushImm(n) => is_full(n),
    }
}

fn is_long(t: Target) -> bool
    ensures jump { result ≡ spec.is_first (Ins.Jump t) }
    ensures branch { (condition : Cond) → result ≡ spec.is_first (Ins.Branch condition t) }
{
    match t {
        Target::Near(_) => true,
        Target::Short(_) => false,
    }
}

/// Whether the instruction is the first form with its text, and its registers and operands have one.
fn is_first(ins: &Ins) -> bool
    ensures { result ≡ spec.is_first ins.now }
{
    match ins {
        Ins::Move(way, r, o) => is_first_move(*way, *r, o),
        Ins::MoveImm(dest, n) => is_first_move_number(dest, *n),
        Ins::MoveNarrow(op, r, o) => is_first_narrow(*op, *r, o),
        Ins::Lea(r, o) | Ins::ArithFrom(_, r, o) => is_register(Size::Full, *r) && is_memory(o),
        Ins::Stack(op) => is_first_stack(*op),
        Ins::ArithTo(_, r, o) | Ins::Test(r, o) | Ins::Imul(r, o) => {
            is_register(Size::Full, *r) && is_operand(Size::Full, o)
        }
        Ins::ArithImm(_, o, n) => is_operand(Size::Full, o) && is_full(*n),
        Ins::Unary(_, o) | Ins::Divide(_, o) | Ins::Shift(_, o) => is_operand(Size::Full, o),
        Ins::Set(_, o) => is_operand(Size::Byte, o),
        Ins::Widen(op, r, o) => is_register(Size::Full, *r) && is_operand(source_size(*op), o),
        Ins::Call(Callee::Indirect(o)) => is_operand(Size::Full, o),
        Ins::Jump(t) | Ins::Branch(_, t) => is_long(*t),
        Ins::Call(Callee::Relative(_))
        | Ins::Cltd
        | Ins::Plain(_)
        | Ins::Int3
        | Ins::Str(_)
        | Ins::Lcall => true,
    }
}

/// Whether the operand of the instruction is memory without a base register, whose own number is 0.
fn has_free_memory(ins: &Ins) -> bool
    ensures { result ≡ spec.is_free_memory (spec.operand_of ins.now) }
{
    match ins {
        Ins::Move(_, _, o)
        | Ins::MoveImm(Dest::Operand(o), _)
        | Ins::MoveNarrow(_, _, o)
        | Ins::Lea(_, o)
        | Ins::ArithTo(_, _, o)
        | Ins::ArithFrom(_, _, o)
        | Ins::ArithImm(_, o, _)
        | Ins::Test(_, o)
        | Ins::Imul(_, o)
        | Ins::Unary(_, o)
        | Ins::Divide(_, o)
        | Ins::Shift(_, o)
        | Ins::Set(_, o)
        | Ins::Widen(_, _, o)
        | Ins::Call(Callee::Indirect(o)) => is_free_memory(o),
        _ => false,
    }
}

fn is_free_memory(o: &Opnd) -> bool
    ensures { result ≡ spec.is_free_memory (Some o.now) }
{
    match o {
        Opnd::Mem {
            base: None,
            disp,
            ..
        } => *disp == 0,
        _ => false,
    }
}

fn has_free_number(ins: &Ins) -> bool
    ensures { result ≡ spec.is_free_number (spec.number_of ins.now) }
{
    match ins {
        Ins::MoveImm(_, n) | Ins::Stack(StackOp::PushImm(n)) | Ins::ArithImm(_, _, n) => *n == 0,
        _ => false,
    }
}

/// The distance of a direct jump or call.
fn distance_of(ins: &Ins) -> Option<i32>
    ensures { result ≡ spec.distance_of ins.now }
{
    match ins {
        Ins::Call(Callee::Relative(d)) => Some(*d),
        Ins::Jump(t) | Ins::Branch(_, t) => Some(distance(*t)),
        _ => None,
    }
}

fn has_free_distance(ins: &Ins) -> bool
    ensures { result ≡ spec.is_free_distance (spec.distance_of ins.now) }
{
    match distance_of(ins) {
        Some(d) => d == 0,
        None => false,
    }
}

fn is_place(ins: &Ins, field: Field, add: i32) -> bool
    ensures { result ≡ spec.is_place ins.now field add }
{
    match field {
        Field::Disp => has_free_memory(ins) && is_signed(add),
        Field::Imm => has_free_number(ins) && is_zero(add),
        Field::Target => has_free_distance(ins) && is_zero(add),
    }
}

fn is_labelled(ins: &Ins, label: &Option<Label>) -> bool
    ensures { result ≡ spec.is_labelled ins.now label.now }
{
    match label {
        None => distance_of(ins).is_none(),
        Some(l) => is_name(l.name.as_slice()) && is_place(ins, l.field, l.add),
    }
}

fn is_value(v: &Val) -> bool
    ensures { result ≡ spec.is_value v.now }
{
    match v {
        Val::Number(n) => is_full(*n),
        Val::Label(k) => is_name(k.as_slice()),
        Val::Here => true,
    }
}

fn is_tag(tag: &Option<Name>) -> bool
    ensures { result ≡ spec.is_tag tag.now }
{
    match tag {
        None => true,
        Some(k) => is_name(k.as_slice()),
    }
}

fn are_dimensions(ns: &[u16; 4]) -> bool
    ensures { result ≡ spec.are_dimensions ns.now }
{
    ns.iter().all(|n| is_half(u32::from(*n)))
}

fn is_group(g: &DefGroup) -> bool
    ensures { result ≡ spec.is_group g.now }
{
    is_name(g.name.as_slice())
        && is_value(&g.val)
        && is_signed(g.scl)
        && is_half(u32::from(g.ty))
        && is_tag(&g.tag)
        && is_half(g.line)
        && is_half(g.size)
        && are_dimensions(&g.dims)
}

fn is_datum(w: &Word) -> bool
    ensures { result ≡ spec.is_datum w.now }
{
    match w {
        Word::Number(n) => is_full(*n),
        Word::Label(k, add) => is_name(k.as_slice()) && is_signed(*add),
    }
}

fn is_file_byte(c: u8) -> bool
    ensures { result ≡ spec.is_file_byte c }
{
    !(c == 34 || c == 10 || c == 0)
}

fn are_file_bytes(k: &[u8]) -> bool
    ensures { result ≡ list_all spec.is_file_byte k.now }
{
    k.iter().all(|c| is_file_byte(*c))
}

/// Whether the bytes can name a source file: 1 to 14 of them, and none `"`, a newline or zero.
pub fn is_file(k: &[u8]) -> bool
    ensures value { result ≡ spec.is_file k.now }
{
    1 <= k.len() && k.len() <= 14 && are_file_bytes(k)
}

fn is_item(item: &Item) -> bool
    ensures { result ≡ spec.is_item item.now }
{
    match item {
        Item::Code(ins, label) => is_first(ins) && is_labelled(ins, label),
        Item::Label(k) | Item::Globl(k) => is_name(k.as_slice()),
        Item::Byte(n) => is_byte(*n),
        Item::Value(n) => is_half(u32::from(*n)),
        Item::Long(w) => is_datum(w),
        Item::Zero(n) => is_full(*n),
        Item::Align => true,
        Item::Section(s) => *s == 1 || *s == 2,
        Item::Comm(k, n) | Item::Lcomm(k, n) => is_name(k.as_slice()) && is_full(*n),
        Item::Def(g) => is_group(g),
        Item::Ln(n) => 1 <= *n && is_half(*n),
        Item::File(k) => is_file(k.as_slice()),
    }
}

fn is_byte(_n: u8) -> bool
    ensures { result ≡ nat_lt _n 256 }
{
    true
}

fn names_file(item: &Item) -> bool
    ensures { spec.files_in item.now ≡ (if result then 1 else 0) }
{
    matches!(item, Item::File(_))
}

/// Whether the items are normal: each has one text that is read as this item, and at most one names the
/// source file.
///
/// An instruction is the first form with its text. Its memory operand has a displacement of four bytes,
/// no index register, and a SIB byte only behind base esp. A direct jump or call has a label in
/// [`Field::Target`] with nothing added. A label of another instruction stands in a field that the
/// instruction has: in [`Field::Imm`] with nothing added, or in [`Field::Disp`] without a base
/// register, and the instruction's own number there is 0.
pub fn is_normal(items: &Items) -> bool
    ensures value { result ≡ spec.are_normal items.now }
{
    let mut named = false;
    for item in items.as_slice() {
        if !is_item(item) {
            return false;
        }
        if names_file(item) {
            if named {
                return false;
            }
            named = true;
        }
    }
    true
}
