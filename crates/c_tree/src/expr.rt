//! Expressions and typenames.
//!
//! Each node begins with the line of its first token, counted from 1. Brackets round an expression
//! have no node of their own.

ghost use Rattle.std.specs.Prelude.{◌≡◌};
ghost use Rattle.c_tree.specs.TreeExpr.{expr_line};
ghost use Rattle.c_tree.specs.TreeOf.{expr_of};

use c_type::{Kind, TagKind};
use num_le::Name;

/// An assignment's operator.
#[derive(Clone, Copy, Debug, Drop, PartialEq, Eq)]
pub enum AssignOp {
    /// `=`
    Set,
    /// `+=`
    Add,
    /// `-=`
    Sub,
    /// `*=`
    Mul,
    /// `/=`
    Div,
    /// `%=`
    Rem,
    /// `&=`
    And,
    /// `|=`
    Or,
    /// `^=`
    Xor,
    /// `<<=`
    Shl,
    /// `>>=`
    Shr,
}

/// A binary operator, from the loosest to the tightest.
#[derive(Clone, Copy, Debug, Drop, PartialEq, Eq)]
pub enum BinaryOp {
    /// `||`
    Either,
    /// `&&`
    Both,
    /// `|`
    Or,
    /// `^`
    Xor,
    /// `&`
    And,
    /// `==`
    Eq,
    /// `!=`
    Ne,
    /// `<`
    Lt,
    /// `>`
    Gt,
    /// `<=`
    Le,
    /// `>=`
    Ge,
    /// `<<`
    Shl,
    /// `>>`
    Shr,
    /// `+`
    Add,
    /// `-`
    Sub,
    /// `*`
    Mul,
    /// `/`
    Div,
    /// `%`
    Rem,
}

/// An operator before its operand.
#[derive(Clone, Copy, Debug, Drop, PartialEq, Eq)]
pub enum UnaryOp {
    /// `*`
    Deref,
    /// `&`
    Address,
    /// `-`
    Neg,
    /// `!`
    Not,
    /// `~`
    Flip,
    /// `++`
    Inc,
    /// `--`
    Dec,
}

/// `++` or `--` behind its operand.
#[derive(Clone, Copy, Debug, Drop, PartialEq, Eq)]
pub enum StepOp {
    /// `++`
    Inc,
    /// `--`
    Dec,
}

/// A tag without a body: `struct name`, `union name` or `enum name`.
#[derive(Drop)]
pub struct TagRef {
    pub line: u32,
    pub kind: TagKind,
    pub name: Name,
}

/// A type as it is named without a tag's body.
#[derive(Drop)]
pub enum TypeSpec {
    /// `char`, `short`, `int`, `long`, each also `unsigned`
    Num(Kind),
    /// `void`
    Void,
    /// a tag
    Tag(TagRef),
    /// a typedef name
    Named(Name),
}

/// The type in a cast or behind `sizeof`: a type and a number of `*`.
#[derive(Drop)]
pub struct TypeName {
    pub line: u32,
    pub types: TypeSpec,
    pub stars: usize,
}

/// An expression.
#[derive(Drop)]
pub enum Expr {
    /// `a , b`
    Comma(u32, Box<Expr>, Box<Expr>),
    /// `a = b`, and the other assignments
    Assign(u32, AssignOp, Box<Expr>, Box<Expr>),
    /// `a ? b : c`
    Choice(u32, Box<Expr>, Box<Expr>, Box<Expr>),
    /// `a + b`, and the other binary operators
    Binary(u32, BinaryOp, Box<Expr>, Box<Expr>),
    /// `- a`, and the other operators before an operand
    Unary(u32, UnaryOp, Box<Expr>),
    /// `sizeof a`
    SizeOf(u32, Box<Expr>),
    /// `sizeof ( type )`
    SizeOfType(u32, TypeName),
    /// `( type ) a`
    Cast(u32, TypeName, Box<Expr>),
    /// `a [ b ]`
    Index(u32, Box<Expr>, Box<Expr>),
    /// `f ( a , b )`
    Call(u32, Box<Expr>, Vec<Expr>),
    /// `a . name`
    Member(u32, Box<Expr>, Name),
    /// `a -> name`
    Arrow(u32, Box<Expr>, Name),
    /// `a ++` or `a --`
    Post(u32, StepOp, Box<Expr>),
    /// a name
    Name(u32, Name),
    /// a number, and whether it has the suffix `l`
    Int(u32, u32, bool),
    /// a character
    Chr(u32, u8),
    /// the bytes of a string text, without the closing zero
    Text(u32, Name),
}

impl Expr {
    /// The line of the first token.
    pub fn line(&self) -> u32
        ensures value { result ≡ expr_line (expr_of self.now) }
    {
        match self {
            Expr::Comma(line, ..)
            | Expr::Assign(line, ..)
            | Expr::Choice(line, ..)
            | Expr::Binary(line, ..)
            | Expr::Unary(line, ..)
            | Expr::SizeOf(line, ..)
            | Expr::SizeOfType(line, ..)
            | Expr::Cast(line, ..)
            | Expr::Index(line, ..)
            | Expr::Call(line, ..)
            | Expr::Member(line, ..)
            | Expr::Arrow(line, ..)
            | Expr::Post(line, ..)
            | Expr::Name(line, ..)
            | Expr::Int(line, ..)
            | Expr::Chr(line, ..)
            | Expr::Text(line, ..) => *line,
        }
    }
}
