// The words that begin a statement, in a list.
ghost use Rattle.std.specs.Prelude.{◌≡◌, find};
ghost use Rattle.std.specs.Str.{bytes_eq};
ghost use Rattle.asm_item.specs.Words.{keyword_text};
ghost use Rattle.asm_read.specs.Stmts as spec;

use asm_item::Keyword;
use isa386::{ArithOp, Cond, ShiftOp, WidenOp};

/// Each word that begins a statement.
const KEYWORDS: [Keyword; 84] = [
    Keyword::Movl,
    Keyword::Movb,
    Keyword::Movw,
    Keyword::Leal,
    Keyword::Pushl,
    Keyword::Popl,
    Keyword::Testl,
    Keyword::Imull,
    Keyword::Notl,
    Keyword::Negl,
    Keyword::Divl,
    Keyword::Idivl,
    Keyword::Cltd,
    Keyword::Call,
    Keyword::Jmp,
    Keyword::Ret,
    Keyword::Leave,
    Keyword::Nop,
    Keyword::Int3,
    Keyword::Rep,
    Keyword::Cld,
    Keyword::Lcall,
    Keyword::File,
    Keyword::Text,
    Keyword::Init,
    Keyword::Globl,
    Keyword::Comm,
    Keyword::Lcomm,
    Keyword::Byte,
    Keyword::Value,
    Keyword::Long,
    Keyword::Zero,
    Keyword::Align,
    Keyword::Ln,
    Keyword::Def,
    Keyword::Val,
    Keyword::Scl,
    Keyword::Ty,
    Keyword::Tag,
    Keyword::Line,
    Keyword::Size,
    Keyword::Dim,
    Keyword::Endef,
    Keyword::Arith(ArithOp::Add),
    Keyword::Arith(ArithOp::Or),
    Keyword::Arith(ArithOp::And),
    Keyword::Arith(ArithOp::Sub),
    Keyword::Arith(ArithOp::Xor),
    Keyword::Arith(ArithOp::Cmp),
    Keyword::Shift(ShiftOp::Left),
    Keyword::Shift(ShiftOp::Right),
    Keyword::Shift(ShiftOp::Arithmetic),
    Keyword::Widen(WidenOp::SignedByte),
    Keyword::Widen(WidenOp::SignedWord),
    Keyword::Widen(WidenOp::ZeroByte),
    Keyword::Widen(WidenOp::ZeroWord),
    Keyword::Jump(Cond::Overflow),
    Keyword::Jump(Cond::NotOverflow),
    Keyword::Jump(Cond::Below),
    Keyword::Jump(Cond::AboveOrEqual),
    Keyword::Jump(Cond::Equal),
    Keyword::Jump(Cond::NotEqual),
    Keyword::Jump(Cond::BelowOrEqual),
    Keyword::Jump(Cond::Above),
    Keyword::Jump(Cond::Sign),
    Keyword::Jump(Cond::NotSign),
    Keyword::Jump(Cond::Less),
    Keyword::Jump(Cond::GreaterOrEqual),
    Keyword::Jump(Cond::LessOrEqual),
    Keyword::Jump(Cond::Greater),
    Keyword::Set(Cond::Overflow),
    Keyword::Set(Cond::NotOverflow),
    Keyword::Set(Cond::Below),
    Keyword::Set(Cond::AboveOrEqual),
    Keyword::Set(Cond::Equal),
    Keyword::Set(Cond::NotEqual),
    Keyword::Set(Cond::BelowOrEqual),
    Keyword::Set(Cond::Above),
    Keyword::Set(Cond::Sign),
    Keyword::Set(Cond::NotSign),
    Keyword::Set(Cond::Less),
    Keyword::Set(Cond::GreaterOrEqual),
    Keyword::Set(Cond::LessOrEqual),
    Keyword::Set(Cond::Greater),
];

/// The first word of the list that is spelled so.
fn named_in(list: &[Keyword], w: &[u8]) -> Option<Keyword>
    ensures { result ≡ find (λ k. bytes_eq (keyword_text k) w.now) list.now }
{
    for k in list {
        if k.text() == w {
            return Some(*k);
        }
    }
    None
}

/// The word that is spelled so.
#[tactic(auto, unfolding(crate::specs::Stmts::keyword_named))]
pub fn keyword_named(w: &[u8]) -> Option<Keyword>
    ensures { result ≡ spec.keyword_named w.now }
{
    named_in(&KEYWORDS, w)
}
