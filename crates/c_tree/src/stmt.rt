//! Statements and blocks.
//!
//! Each node begins with the line of its first token, counted from 1.

use crate::decl::LocalDecl;
use crate::expr::Expr;

/// A block, with the lines of its two braces.
#[derive(Drop)]
#[cycle(stmts)]
pub struct Block {
    pub line: u32,
    pub decls: Vec<LocalDecl>,
    pub stmts: Vec<Stmt>,
    pub close_line: u32,
}

/// A statement.
#[derive(Drop)]
#[cycle(stmts)]
pub enum Stmt {
    /// `e ;`
    Expr(u32, Expr),
    /// `;`
    Empty(u32),
    /// `if ( e ) s`
    If(u32, Expr, Box<Stmt>),
    /// `if ( e ) s else s`
    IfElse(u32, Expr, Box<Stmt>, Box<Stmt>),
    /// `while ( e ) s`
    While(u32, Expr, Box<Stmt>),
    /// `do s while ( e ) ;`, with the line of its `while`
    Do(u32, Box<Stmt>, u32, Expr),
    /// `for ( e ; e ; e ) s`, each expression being optional
    For(u32, Option<Expr>, Option<Expr>, Option<Expr>, Box<Stmt>),
    /// `switch ( e ) { .. }`
    Switch(u32, Expr, Vec<SwItem>),
    /// `break ;`
    Break(u32),
    /// `continue ;`
    Continue(u32),
    /// `return ;` or `return e ;`
    Return(u32, Option<Expr>),
    /// `{ .. }`
    Block(Block),
}

/// What stands in the body of a `switch`.
#[derive(Drop)]
#[cycle(stmts)]
pub enum SwItem {
    /// `case e :`
    Case(u32, Expr),
    /// `default :`
    Default(u32),
    /// a statement
    Stmt(Stmt),
}
