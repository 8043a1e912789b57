// The instruction of a word and its arguments.
ghost use Rattle.std.specs.Prelude.{◌≡◌, Option, if◌then◌else◌};
ghost use Rattle.std.specs.Option.{option_map};
ghost use Rattle.asm_item.specs.Args.{shown_operand, shown};
ghost use Rattle.asm_item.specs.Rows as rows;
ghost use Rattle.asm_read.specs.Table as spec;
ghost use Rattle.asm_read.specs.Coded as views;

use crate::numerals::{full_of, signed_of};
use asm_item::{Arg, Keyword, Number, Operand, Size};
use isa386::{
    ArithOp, Callee, Dest, DivideOp, Dw, Field, Ins, Narrow, Opnd, PlainOp, StackOp, StringOp,
    Target, UnaryOp, Way, WidenOp,
};

/// A name plus a number, in a field of an instruction.
#[derive(Clone, Copy)]
pub struct Name<'a> {
    pub field: Field,
    pub name: &'a [u8],
    pub add: i32,
}

/// An instruction and the name that a field of it holds.
#[derive(Clone, Copy)]
pub struct Coded<'a> {
    pub ins: Ins,
    pub label: Option<Name<'a>>,
}

/// An operand and the name in its displacement.
#[derive(Clone, Copy)]
struct Placed<'a> {
    operand: Opnd,
    label: Option<Name<'a>>,
}

/// A number and the name that stands for it.
#[derive(Clone, Copy)]
struct Valued<'a> {
    value: u32,
    label: Option<Name<'a>>,
}

/// Two operands.
#[derive(Clone, Copy)]
enum Pair {
    /// From a register.
    Stored(u8, Opnd),
    /// From memory to a register.
    Loaded(Opnd, u8),
    /// From a number.
    Given(u32, Opnd),
}

#[derive(Clone, Copy)]
struct Paired<'a> {
    pair: Pair,
    label: Option<Name<'a>>,
}

fn named<'a>(field: Field, name: &'a [u8], add: i32) -> Option<Name<'a>>
    ensures { option_map views.shown_name result ≡ spec.named field name.now add }
{
    Some(Name { field, name, add })
}

fn absolute(disp: i32) -> Opnd
    ensures { result ≡ spec.absolute disp }
{
    Opnd::Mem {
        base: None,
        index: None,
        disp,
        width: Dw::D32,
    }
}

/// Memory behind a base register: esp takes a SIB byte.
fn behind(base: u8, disp: i32) -> Opnd
    ensures { result ≡ spec.behind base disp }
{
    Opnd::Mem {
        base: Some(base),
        index: if base == 4 { Some((4, 0)) } else { None },
        disp,
        width: Dw::D32,
    }
}

fn operand_of<'a>(size: Size, o: Operand<'a>) -> Option<Placed<'a>>
    ensures { option_map views.shown_placed result ≡ spec.operand_of size (shown_operand o.entry) }
{
    let (operand, label) = match o {
        Operand::Register(of, r) if of == size => (Opnd::Reg(r), None),
        Operand::Number(n) => (absolute(signed_of(n)?), None),
        Operand::Name(k) => (absolute(0), named(Field::Disp, k, 0)),
        Operand::Plus(k, n) => (absolute(0), named(Field::Disp, k, signed_of(n)?)),
        Operand::Base(n, r) => (behind(r, signed_of(n)?), None),
        Operand::Register(..) | Operand::Minus(..) => return None,
    };
    Some(Placed { operand, label })
}

fn operand<'a>(size: Size, a: Arg<'a>) -> Option<Placed<'a>>
    ensures { option_map views.shown_placed result ≡ spec.operand size (shown a.entry) }
{
    match a {
        Arg::Plain(o) => operand_of(size, o),
        _ => None,
    }
}

fn register_of(size: Size, a: Arg<'_>) -> Option<u8>
    ensures { result ≡ spec.register_of size (shown a.entry) }
{
    match a {
        Arg::Plain(Operand::Register(of, r)) if of == size => Some(r),
        _ => None,
    }
}

/// `$n` and `$name`
fn immediate<'a>(a: Arg<'a>) -> Option<Valued<'a>>
    ensures { option_map views.shown_valued result ≡ spec.immediate (shown a.entry) }
{
    match a {
        Arg::Imm(n) => Some(Valued {
            value: full_of(n)?,
            label: None,
        }),
        Arg::ImmName(k) => Some(Valued {
            value: 0,
            label: named(Field::Imm, k, 0),
        }),
        _ => None,
    }
}

fn from_register<'a>(r: Option<u8>, o: Option<Placed<'a>>) -> Option<Paired<'a>>
    ensures { option_map views.shown_paired result ≡ spec.from_register r (option_map views.shown_placed o.entry) }
{
    let r = r?;
    let o = o?;
    Some(Paired {
        pair: Pair::Stored(r, o.operand),
        label: o.label,
    })
}

fn to_register<'a>(o: Option<Placed<'a>>, r: Option<u8>) -> Option<Paired<'a>>
    ensures { option_map views.shown_paired result ≡ spec.to_register (option_map views.shown_placed o.entry) r }
{
    let o = o?;
    let r = r?;
    Some(Paired {
        pair: Pair::Loaded(o.operand, r),
        label: o.label,
    })
}

/// At most one operand holds a name.
fn from_number<'a>(n: Option<Valued<'a>>, o: Option<Placed<'a>>) -> Option<Paired<'a>>
    ensures { option_map views.shown_paired result ≡ spec.from_number (option_map views.shown_valued n.entry) (option_map views.shown_placed o.entry) }
{
    let n = n?;
    let o = o?;
    if n.label.is_some() && o.label.is_some() {
        return None;
    }
    Some(Paired {
        pair: Pair::Given(n.value, o.operand),
        label: n.label.or(o.label),
    })
}

/// The two operands of this size, source first.
fn pair_of<'a>(size: Size, a: Arg<'a>, b: Arg<'a>) -> Option<Paired<'a>>
    ensures { option_map views.shown_paired result ≡ spec.pair size (shown a.entry) (shown b.entry) }
{
    match a {
        Arg::Plain(Operand::Register(..)) => from_register(register_of(size, a), operand(size, b)),
        Arg::Imm(_) | Arg::ImmName(_) => from_number(immediate(a), operand(size, b)),
        _ => to_register(operand(size, a), register_of(size, b)),
    }
}

fn movl(p: Pair) -> Option<Ins>
    ensures { result ≡ spec.movl (views.shown_pair p) }
{
    match p {
        Pair::Stored(r, o) => Some(Ins::Move(Way::ToOperand, r, o)),
        Pair::Loaded(o, r) => Some(Ins::Move(Way::ToRegister, r, o)),
        Pair::Given(n, Opnd::Reg(r)) => Some(Ins::MoveImm(Dest::Register(r), n)),
        Pair::Given(n, o) => Some(Ins::MoveImm(Dest::Operand(o), n)),
    }
}

fn movb(p: Pair) -> Option<Ins>
    ensures { result ≡ spec.movb (views.shown_pair p) }
{
    match p {
        Pair::Stored(r, o) => Some(Ins::MoveNarrow(Narrow::ByteToOperand, r, o)),
        Pair::Loaded(o, r) => Some(Ins::MoveNarrow(Narrow::ByteToRegister, r, o)),
        Pair::Given(..) => None,
    }
}

fn movw(p: Pair) -> Option<Ins>
    ensures { result ≡ spec.movw (views.shown_pair p) }
{
    match p {
        Pair::Stored(r, o) => Some(Ins::MoveNarrow(Narrow::WordToOperand, r, o)),
        _ => None,
    }
}

fn leal(p: Pair) -> Option<Ins>
    ensures { result ≡ spec.leal (views.shown_pair p) }
{
    match p {
        Pair::Loaded(o, r) => Some(Ins::Lea(r, o)),
        _ => None,
    }
}

fn arith(op: ArithOp, p: Pair) -> Option<Ins>
    ensures { result ≡ spec.arith op (views.shown_pair p) }
{
    match p {
        Pair::Stored(r, o) => Some(Ins::ArithTo(op, r, o)),
        Pair::Loaded(o, r) => Some(Ins::ArithFrom(op, r, o)),
        Pair::Given(n, o) => Some(Ins::ArithImm(op, o, n)),
    }
}

fn testl(p: Pair) -> Option<Ins>
    ensures { result ≡ spec.testl (views.shown_pair p) }
{
    match p {
        Pair::Stored(r, o) => Some(Ins::Test(r, o)),
        _ => None,
    }
}

/// The instruction of a word with two operands of one size.
fn of_pair(word: Keyword, p: Pair) -> Option<Ins>
    ensures { result ≡ spec.of_pair word (views.shown_pair p) }
{
    match word {
        Keyword::Movl => movl(p),
        Keyword::Movb => movb(p),
        Keyword::Movw => movw(p),
        Keyword::Leal => leal(p),
        Keyword::Arith(op) => arith(op, p),
        Keyword::Testl => testl(p),
        _ => None,
    }
}

fn coded_pair<'a>(word: Keyword, p: Option<Paired<'a>>) -> Option<Coded<'a>>
    ensures { option_map views.shown_coded result ≡ spec.paired word (option_map views.shown_paired p.entry) }
{
    let p = p?;
    Some(Coded {
        ins: of_pair(word, p.pair)?,
        label: p.label,
    })
}

fn multiplied<'a>(o: Option<Placed<'a>>, r: Option<u8>) -> Option<Coded<'a>>
    ensures { option_map views.shown_coded result ≡ spec.multiplied (option_map views.shown_placed o.entry) r }
{
    let o = o?;
    let r = r?;
    Some(Coded {
        ins: Ins::Imul(r, o.operand),
        label: o.label,
    })
}

fn widened<'a>(op: WidenOp, o: Option<Placed<'a>>, r: Option<u8>) -> Option<Coded<'a>>
    ensures { option_map views.shown_coded result ≡ spec.widened op (option_map views.shown_placed o.entry) r }
{
    let o = o?;
    let r = r?;
    Some(Coded {
        ins: Ins::Widen(op, r, o.operand),
        label: o.label,
    })
}

fn source_size(op: WidenOp) -> Size
    ensures { result ≡ rows.source_size op }
{
    match op {
        WidenOp::SignedByte | WidenOp::ZeroByte => Size::Byte,
        WidenOp::SignedWord | WidenOp::ZeroWord => Size::Short,
    }
}

/// The instruction of a word with one operand.
fn of_operand(word: Keyword, o: Opnd) -> Option<Ins>
    ensures { result ≡ spec.of_operand word o }
{
    match word {
        Keyword::Notl => Some(Ins::Unary(UnaryOp::Not, o)),
        Keyword::Negl => Some(Ins::Unary(UnaryOp::Neg, o)),
        Keyword::Divl => Some(Ins::Divide(DivideOp::Unsigned, o)),
        Keyword::Idivl => Some(Ins::Divide(DivideOp::Signed, o)),
        Keyword::Shift(op) => Some(Ins::Shift(op, o)),
        Keyword::Set(condition) => Some(Ins::Set(condition, o)),
        Keyword::Call => Some(Ins::Call(Callee::Indirect(o))),
        _ => None,
    }
}

fn single<'a>(word: Keyword, o: Option<Placed<'a>>) -> Option<Coded<'a>>
    ensures { option_map views.shown_coded result ≡ spec.single word (option_map views.shown_placed o.entry) }
{
    let o = o?;
    Some(Coded {
        ins: of_operand(word, o.operand)?,
        label: o.label,
    })
}

/// `%cl` and an operand
fn shifted<'a>(word: Keyword, count: Option<u8>, o: Option<Placed<'a>>) -> Option<Coded<'a>>
    ensures { option_map views.shown_coded result ≡ spec.shifted word count (option_map views.shown_placed o.entry) }
{
    if count? != 1 {
        return None;
    }
    single(word, o)
}

fn is_value(value: u32, a: Arg<'_>) -> bool
    ensures { result ≡ spec.is_value value (shown a.entry) }
{
    match a {
        Arg::Imm(n) => full_of(n) == Some(value),
        _ => false,
    }
}

fn lcall<'a>(a: Arg<'a>, b: Arg<'a>) -> Option<Coded<'a>>
    ensures { option_map views.shown_coded result ≡ spec.lcall (shown a.entry) (shown b.entry) }
{
    if !(is_value(7, a) && is_value(0, b)) {
        return None;
    }
    Some(Coded {
        ins: Ins::Lcall,
        label: None,
    })
}

/// The instruction of a word and two arguments.
pub fn two<'a>(word: Keyword, a: Arg<'a>, b: Arg<'a>) -> Option<Coded<'a>>
    ensures { option_map views.shown_coded result ≡ spec.two word (shown a.entry) (shown b.entry) }
{
    match word {
        Keyword::Movl | Keyword::Leal | Keyword::Arith(_) | Keyword::Testl => {
            coded_pair(word, pair_of(Size::Full, a, b))
        }
        Keyword::Movb => coded_pair(word, pair_of(Size::Byte, a, b)),
        Keyword::Movw => coded_pair(word, pair_of(Size::Short, a, b)),
        Keyword::Imull => multiplied(operand(Size::Full, a), register_of(Size::Full, b)),
        Keyword::Widen(op) => widened(op, operand(source_size(op), a), register_of(Size::Full, b)),
        Keyword::Shift(_) => shifted(word, register_of(Size::Byte, a), operand(Size::Full, b)),
        Keyword::Lcall => lcall(a, b),
        _ => None,
    }
}

/// A jump or call that goes to a name.
fn jump<'a>(ins: Ins, a: Arg<'a>) -> Option<Coded<'a>>
    ensures { option_map views.shown_coded result ≡ spec.jump ins (shown a.entry) }
{
    match a {
        Arg::Plain(Operand::Name(k)) => Some(Coded {
            ins,
            label: named(Field::Target, k, 0),
        }),
        _ => None,
    }
}

fn call<'a>(a: Arg<'a>) -> Option<Coded<'a>>
    ensures { option_map views.shown_coded result ≡ spec.call (shown a.entry) }
{
    match a {
        Arg::Star(o) => single(Keyword::Call, operand_of(Size::Full, o)),
        _ => jump(Ins::Call(Callee::Relative(0)), a),
    }
}

fn stack<'a>(op: Option<StackOp>) -> Option<Coded<'a>>
    ensures { option_map views.shown_coded result ≡ spec.stack op }
{
    Some(Coded {
        ins: Ins::Stack(op?),
        label: None,
    })
}

fn push_number<'a>(n: Option<Valued<'a>>) -> Option<Coded<'a>>
    ensures { option_map views.shown_coded result ≡ spec.push_number (option_map views.shown_valued n.entry) }
{
    let n = n?;
    Some(Coded {
        ins: Ins::Stack(StackOp::PushImm(n.value)),
        label: n.label,
    })
}

fn pushl<'a>(a: Arg<'a>) -> Option<Coded<'a>>
    ensures { option_map views.shown_coded result ≡ spec.pushl (shown a.entry) }
{
    match a {
        Arg::Plain(_) => stack(register_of(Size::Full, a).map(|r| StackOp::Push(r))),
        _ => push_number(immediate(a)),
    }
}

fn rep<'a>(a: Arg<'a>) -> Option<Coded<'a>>
    ensures { option_map views.shown_coded result ≡ spec.rep (shown a.entry) }
{
    let Arg::Plain(Operand::Name(k)) = a else {
        return None;
    };
    let op = if k == b"movsb".as_slice() {
        StringOp::RepMovsb
    } else if k == b"stosb".as_slice() {
        StringOp::RepStosb
    } else {
        return None;
    };
    Some(Coded {
        ins: Ins::Str(op),
        label: None,
    })
}

/// The instruction of a word and one argument.
pub fn one<'a>(word: Keyword, a: Arg<'a>) -> Option<Coded<'a>>
    ensures { option_map views.shown_coded result ≡ spec.one word (shown a.entry) }
{
    match word {
        Keyword::Pushl => pushl(a),
        Keyword::Popl => stack(register_of(Size::Full, a).map(|r| StackOp::Pop(r))),
        Keyword::Notl | Keyword::Negl | Keyword::Divl | Keyword::Idivl => {
            single(word, operand(Size::Full, a))
        }
        Keyword::Set(_) => single(word, operand(Size::Byte, a)),
        Keyword::Call => call(a),
        Keyword::Jmp => jump(Ins::Jump(Target::Near(0)), a),
        Keyword::Jump(condition) => jump(Ins::Branch(condition, Target::Near(0)), a),
        Keyword::Rep => rep(a),
        _ => None,
    }
}

/// The instruction of a word alone.
pub fn alone<'a>(word: Keyword) -> Option<Coded<'a>>
    ensures { option_map views.shown_coded result ≡ spec.alone word }
{
    let ins = match word {
        Keyword::Cltd => Ins::Cltd,
        Keyword::Ret => Ins::Plain(PlainOp::Ret),
        Keyword::Leave => Ins::Plain(PlainOp::Leave),
        Keyword::Nop => Ins::Plain(PlainOp::Nop),
        Keyword::Int3 => Ins::Int3,
        Keyword::Cld => Ins::Str(StringOp::Cld),
        _ => return None,
    };
    Some(Coded { ins, label: None })
}
