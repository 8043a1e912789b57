// Typed expressions.
use c_type::CType;
use num_le::Name;

/// What a name in an expression is bound to.
///
/// Each number counts from 0 in textual order: the automatic objects of a function, the names of
/// its list, the file and block statics of a unit, the function bodies of a unit.
#[derive(Drop)]
pub enum Ref {
    Local(u32),
    Param(u32),
    Static(u32),
    /// An external object.
    Ext(Name),
    Func(u32),
    /// A function that the unit doesn't define.
    Outer(Name),
    /// An enumerator with its value.
    Const(i32),
}

/// `-`, `~` and `!`.
#[derive(Clone, Copy, Drop)]
pub enum TUnary {
    Neg,
    Flip,
    Not,
}

/// The operators that always take both operands, from `*` to `|`.
#[derive(Clone, Copy, Drop)]
pub enum TBinary {
    Mul,
    Div,
    Rem,
    Add,
    Sub,
    Shl,
    Shr,
    Lt,
    Gt,
    Le,
    Ge,
    Eq,
    Ne,
    BitAnd,
    BitXor,
    BitOr,
}

/// `++` and `--`, before or after their operand.
#[derive(Clone, Copy, Drop)]
pub enum TStep {
    PreInc,
    PreDec,
    PostInc,
    PostDec,
}

/// An expression with its type. Each implicit conversion is a node.
pub enum TExpr {
    Name(CType, Ref),
    /// A number or a character: the 32 bits of its value.
    Int(CType, u32),
    /// A string text: its number among the texts of the unit.
    Text(CType, u32),
    Unary(CType, TUnary, Box<TExpr>),
    Deref(CType, Box<TExpr>),
    Address(CType, Box<TExpr>),
    Step(CType, TStep, Box<TExpr>),
    /// `sizeof` of an expression, which is unsigned.
    SizeOf(Box<TExpr>),
    /// `sizeof` of a type, which is unsigned.
    SizeOfType(CType),
    Cast(CType, Box<TExpr>),
    /// The conversion of a scalar that no text shows.
    Convert(CType, Box<TExpr>),
    /// An array as a pointer to its first element.
    Decay(CType, Box<TExpr>),
    /// A function as a pointer to it.
    Designate(CType, Box<TExpr>),
    Binary(CType, TBinary, Box<TExpr>, Box<TExpr>),
    /// `&&`, which is int.
    Both(Box<TExpr>, Box<TExpr>),
    /// `||`, which is int.
    Either(Box<TExpr>, Box<TExpr>),
    Comma(CType, Box<TExpr>, Box<TExpr>),
    Choice(CType, Box<TExpr>, Box<TExpr>, Box<TExpr>),
    Assign(CType, Box<TExpr>, Box<TExpr>),
    /// A compound assignment, with the type in which its operator works.
    Update(CType, TBinary, CType, Box<TExpr>, Box<TExpr>),
    Index(CType, Box<TExpr>, Box<TExpr>),
    Call(CType, Box<TExpr>, Vec<TExpr>),
    /// `.`, with the member's number in its structure.
    Member(CType, Box<TExpr>, u32),
    /// `->`, with the member's number in its structure.
    Arrow(CType, Box<TExpr>, u32),
}

// Written out for the trees here, dropping is proved once, and not in each crate that drops one.
impl Drop for TExpr {
    fn drop(self) {
        match self {
            TExpr::Name(_, _) | TExpr::Int(_, _) | TExpr::Text(_, _) | TExpr::SizeOfType(_) => {}
            TExpr::SizeOf(_)
            | TExpr::Deref(_, _)
            | TExpr::Address(_, _)
            | TExpr::Cast(_, _)
            | TExpr::Convert(_, _)
            | TExpr::Decay(_, _)
            | TExpr::Designate(_, _) => {}
            TExpr::Unary(_, _, _)
            | TExpr::Step(_, _, _)
            | TExpr::Member(_, _, _)
            | TExpr::Arrow(_, _, _) => {}
            TExpr::Both(_, _) | TExpr::Either(_, _) => {}
            TExpr::Comma(_, _, _) | TExpr::Assign(_, _, _) | TExpr::Index(_, _, _) => {}
            TExpr::Binary(_, _, _, _) | TExpr::Choice(_, _, _, _) => {}
            TExpr::Update(_, _, _, _, _) | TExpr::Call(_, _, _) => {}
        }
    }
}
