//! The trees of the C language: as they are read from a text, and with their types.
#![tactic(auto)]

// Trees as they are read, one variant for each production.
mod decl;
mod expr;
mod stmt;
mod unit;

pub use decl::{
    Declr, En, FileSpecs, Init, Item, LocalDecl, LocalSpecs, Mem, ParDecl, Storage, TagDef,
    TagSpec, Types,
};
pub use expr::{AssignOp, BinaryOp, Expr, StepOp, TagRef, TypeName, TypeSpec, UnaryOp};
pub use stmt::{Block, Stmt, SwItem};
pub use unit::{Ext, Unit};

// Typed trees.
mod start_lines;
mod typed_expr;
mod typed_stmt;
mod typed_unit;

pub use start_lines::starts;
pub use typed_expr::{Ref, TBinary, TExpr, TStep, TUnary};
pub use typed_stmt::{TBlock, TDeclr, TInit, TLocal, TLocalDecl, TStmt, TSwItem};
pub use typed_unit::{
    Bound, Program, StartId, TEnumerator, TExt, TFunc, TItem, TMembers, TParDecl, TParam, TSpec,
    TypedUnit,
};
