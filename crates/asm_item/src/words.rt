// The words that begin a statement.
ghost use Rattle.std.specs.Prelude.{◌≡◌};
ghost use Rattle.asm_item.specs.Words.{keyword_text, arith_text, shift_text, widen_text, jump_text, set_text};

use isa386::{ArithOp, Cond, ShiftOp, WidenOp};

/// The word that begins a statement.
#[derive(Clone, Copy)]
pub enum Keyword {
    Movl,
    Movb,
    Movw,
    Leal,
    Pushl,
    Popl,
    Arith(ArithOp),
    Testl,
    Imull,
    Notl,
    Negl,
    Divl,
    Idivl,
    Cltd,
    Shift(ShiftOp),
    Set(Cond),
    Widen(WidenOp),
    Call,
    Jmp,
    Jump(Cond),
    Ret,
    Leave,
    Nop,
    Int3,
    Rep,
    Cld,
    Lcall,
    File,
    Text,
    Init,
    Globl,
    Comm,
    Lcomm,
    Byte,
    Value,
    Long,
    Zero,
    Align,
    Ln,
    Def,
    Val,
    Scl,
    Ty,
    Tag,
    Line,
    Size,
    Dim,
    Endef,
}

fn arith_word(op: ArithOp) -> &'static [u8]
    ensures { result.now ≡ arith_text op }
{
    match op {
        ArithOp::Add => b"addl",
        ArithOp::Or => b"orl",
        ArithOp::And => b"andl",
        ArithOp::Sub => b"subl",
        ArithOp::Xor => b"xorl",
        ArithOp::Cmp => b"cmpl",
    }
}

fn shift_word(op: ShiftOp) -> &'static [u8]
    ensures { result.now ≡ shift_text op }
{
    match op {
        ShiftOp::Left => b"shll",
        ShiftOp::Right => b"shrl",
        ShiftOp::Arithmetic => b"sarl",
    }
}

fn widen_word(op: WidenOp) -> &'static [u8]
    ensures { result.now ≡ widen_text op }
{
    match op {
        WidenOp::SignedByte => b"movsbl",
        WidenOp::SignedWord => b"movswl",
        WidenOp::ZeroByte => b"movzbl",
        WidenOp::ZeroWord => b"movzwl",
    }
}

fn jump_word(cc: Cond) -> &'static [u8]
    ensures { result.now ≡ jump_text cc }
{
    match cc {
        Cond::Overflow => b"jo",
        Cond::NotOverflow => b"jno",
        Cond::Below => b"jb",
        Cond::AboveOrEqual => b"jae",
        Cond::Equal => b"je",
        Cond::NotEqual => b"jne",
        Cond::BelowOrEqual => b"jbe",
        Cond::Above => b"ja",
        Cond::Sign => b"js",
        Cond::NotSign => b"jns",
        Cond::Less => b"jl",
        Cond::GreaterOrEqual => b"jge",
        Cond::LessOrEqual => b"jle",
        Cond::Greater => b"jg",
    }
}

fn set_word(cc: Cond) -> &'static [u8]
    ensures { result.now ≡ set_text cc }
{
    match cc {
        Cond::Overflow => b"seto",
        Cond::NotOverflow => b"setno",
        Cond::Below => b"setb",
        Cond::AboveOrEqual => b"setae",
        Cond::Equal => b"sete",
        Cond::NotEqual => b"setne",
        Cond::BelowOrEqual => b"setbe",
        Cond::Above => b"seta",
        Cond::Sign => b"sets",
        Cond::NotSign => b"setns",
        Cond::Less => b"setl",
        Cond::GreaterOrEqual => b"setge",
        Cond::LessOrEqual => b"setle",
        Cond::Greater => b"setg",
    }
}

impl Keyword {
    /// The word as it is written.
    pub fn text(self) -> &'static [u8]
        ensures text { result.now ≡ keyword_text self }
    {
        match self {
            Keyword::Movl => b"movl",
            Keyword::Movb => b"movb",
            Keyword::Movw => b"movw",
            Keyword::Leal => b"leal",
            Keyword::Pushl => b"pushl",
            Keyword::Popl => b"popl",
            Keyword::Arith(op) => arith_word(op),
            Keyword::Testl => b"testl",
            Keyword::Imull => b"imull",
            Keyword::Notl => b"notl",
            Keyword::Negl => b"negl",
            Keyword::Divl => b"divl",
            Keyword::Idivl => b"idivl",
            Keyword::Cltd => b"cltd",
            Keyword::Shift(op) => shift_word(op),
            Keyword::Set(cc) => set_word(cc),
            Keyword::Widen(op) => widen_word(op),
            Keyword::Call => b"call",
            Keyword::Jmp => b"jmp",
            Keyword::Jump(cc) => jump_word(cc),
            Keyword::Ret => b"ret",
            Keyword::Leave => b"leave",
            Keyword::Nop => b"nop",
            Keyword::Int3 => b"int3",
            Keyword::Rep => b"rep",
            Keyword::Cld => b"cld",
            Keyword::Lcall => b"lcall",
            Keyword::File => b".file",
            Keyword::Text => b".text",
            Keyword::Init => b".data",
            Keyword::Globl => b".globl",
            Keyword::Comm => b".comm",
            Keyword::Lcomm => b".lcomm",
            Keyword::Byte => b".byte",
            Keyword::Value => b".value",
            Keyword::Long => b".long",
            Keyword::Zero => b".zero",
            Keyword::Align => b".align",
            Keyword::Ln => b".ln",
            Keyword::Def => b".def",
            Keyword::Val => b".val",
            Keyword::Scl => b".scl",
            Keyword::Ty => b".type",
            Keyword::Tag => b".tag",
            Keyword::Line => b".line",
            Keyword::Size => b".size",
            Keyword::Dim => b".dim",
            Keyword::Endef => b".endef",
        }
    }
}
