// Typed declarations in blocks, and typed statements.
use crate::typed_expr::TExpr;
use c_type::CType;
use num_le::Name;

/// A declarator: its name, its type, and the constant expressions of its dimensions in textual order.
pub struct TDeclr {
    pub name: Name,
    pub ty: CType,
    pub dims: Vec<TExpr>,
}

impl Drop for TDeclr {
    fn drop(self) {
        let TDeclr {
            name: _,
            ty: _,
            dims: _,
        } = self;
    }
}

/// An initialiser.
pub enum TInit {
    Single(TExpr),
    /// The bytes of a text that fills an array of char, with its zero byte, for which there may be no room.
    Bytes(Name),
    Group(Vec<TInit>),
}

impl Drop for TInit {
    fn drop(self) {
        match self {
            TInit::Single(_) => {}
            TInit::Bytes(_) => {}
            TInit::Group(_) => {}
        }
    }
}

/// A declarator of a block, by what it declares.
pub enum TLocal {
    /// An automatic object, with its number in its function.
    Auto(TDeclr, u32),
    /// An initialised automatic object, with its number, and the number and line of its start.
    AutoInit(TDeclr, u32, u32, u32, TExpr),
    /// A static object, with its number in its unit.
    Static(TDeclr, u32, Option<TInit>),
    /// An external object.
    Extern(TDeclr),
    /// A function, and whether it is static.
    Function(TDeclr, bool),
}

impl Drop for TLocal {
    fn drop(self) {
        match self {
            TLocal::Auto(_, _) => {}
            TLocal::AutoInit(_, _, _, _, _) => {}
            TLocal::Static(_, _, _) => {}
            TLocal::Extern(_) => {}
            TLocal::Function(_, _) => {}
        }
    }
}

/// A declaration of a block.
pub struct TLocalDecl {
    pub items: Vec<TLocal>,
}

impl Drop for TLocalDecl {
    fn drop(self) {
        let TLocalDecl { items: _ } = self;
    }
}

/// A block with the lines of its braces.
#[cycle(typed_stmts)]
pub struct TBlock {
    pub line: u32,
    pub locals: Vec<TLocalDecl>,
    pub stmts: Vec<TStmt>,
    pub close_line: u32,
}

impl Drop for TBlock {
    #[cycle(typed_stmts)]
    fn drop(self) {
        let TBlock {
            line: _,
            locals: _,
            stmts: _,
            close_line: _,
        } = self;
    }
}

/// A part of a switch.
#[cycle(typed_stmts)]
pub enum TSwItem {
    /// A case, with the 32 bits of its value in the widened type of the switch.
    Case(TExpr, u32),
    Default,
    Stmt(TStmt),
}

impl Drop for TSwItem {
    #[cycle(typed_stmts)]
    fn drop(self) {
        match self {
            TSwItem::Case(_, _) => {}
            TSwItem::Default => {}
            TSwItem::Stmt(_) => {}
        }
    }
}

/// A statement. A statement that is a start has the start's number in its file, and its line.
#[cycle(typed_stmts)]
pub enum TStmt {
    Expr(u32, u32, TExpr),
    Empty(u32, u32),
    IfOnly(u32, u32, TExpr, Box<TStmt>),
    IfElse(u32, u32, TExpr, Box<TStmt>, Box<TStmt>),
    While(u32, u32, TExpr, Box<TStmt>),
    Do(u32, u32, Box<TStmt>, TExpr),
    /// The starts k, k + 1 and k + 2 are those of its first part, its test and its step.
    For(u32, u32, Option<TExpr>, Option<TExpr>, Option<TExpr>, Box<TStmt>),
    Switch(u32, u32, TExpr, Vec<TSwItem>),
    Break(u32, u32),
    Continue(u32, u32),
    Return(u32, u32, Option<TExpr>),
    Block(TBlock),
}

impl Drop for TStmt {
    #[cycle(typed_stmts)]
    fn drop(self) {
        match self {
            TStmt::Expr(_, _, _) => {}
            TStmt::Empty(_, _) | TStmt::Break(_, _) | TStmt::Continue(_, _) => {}
            TStmt::IfOnly(_, _, _, _) | TStmt::While(_, _, _, _) => {}
            TStmt::IfElse(_, _, _, _, _) => {}
            TStmt::Do(_, _, _, _) => {}
            TStmt::For(_, _, _, _, _, _) => {}
            TStmt::Switch(_, _, _, _) => {}
            TStmt::Return(_, _, _) => {}
            TStmt::Block(_) => {}
        }
    }
}
