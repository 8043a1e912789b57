//! Declarations and their parts.
//!
//! Each node begins with the line of its first token, counted from 1. Brackets round a declarator
//! have no node of their own, and the order in which the words of a declaration stand is not kept.

use crate::expr::{Expr, TagRef, TypeSpec};
use num_le::Name;

/// A storage class, as it is written.
#[derive(Clone, Copy, Debug, Drop, PartialEq, Eq)]
pub enum Storage {
    Auto,
    Register,
    Static,
    Extern,
}

/// A declarator: what is declared, from its name outwards.
#[derive(Drop)]
pub enum Declr {
    /// `* d`
    Pointer(u32, Box<Declr>),
    /// the name itself
    Name(u32, Name),
    /// `d [ e ]` or `d [ ]`
    Array(u32, Box<Declr>, Option<Expr>),
    /// `d ( )`, and in a function's head also `d ( a , b )`
    Function(u32, Box<Declr>, Vec<Name>),
}

/// What an object begins with.
#[derive(Drop)]
pub enum Init {
    /// an expression
    Single(Expr),
    /// `{ i , i }`
    Group(u32, Vec<Init>),
}

/// A declarator and what it begins with.
#[derive(Drop)]
pub struct Item {
    pub declr: Declr,
    pub init: Option<Init>,
}

/// A member's declaration.
#[derive(Drop)]
#[cycle(types)]
pub struct Mem {
    pub line: u32,
    pub types: Types,
    pub declrs: Vec<Declr>,
}

/// An enumerator: `name` or `name = e`.
#[derive(Drop)]
pub struct En {
    pub line: u32,
    pub name: Name,
    pub value: Option<Expr>,
}

/// A tag with its body in braces.
#[derive(Drop)]
#[cycle(types)]
pub enum TagDef {
    /// `struct name { .. }`, the name being optional
    Struct(u32, Option<Name>, Vec<Mem>),
    /// `union name { .. }`, the name being optional
    Union(u32, Option<Name>, Vec<Mem>),
    /// `enum name { .. }`, the name being optional
    Enum(u32, Option<Name>, Vec<En>),
}

/// A type as it is named outside of blocks.
#[derive(Drop)]
#[cycle(types)]
pub enum Types {
    /// without a body
    Spec(TypeSpec),
    /// with a tag's body
    Def(TagDef),
}

/// A tag that is declared alone.
#[derive(Drop)]
pub enum TagSpec {
    Ref(TagRef),
    Def(TagDef),
}

/// The words before the declarators outside of blocks. Without types they mean int.
#[derive(Drop)]
pub struct FileSpecs {
    pub storage: Option<Storage>,
    pub types: Option<Types>,
}

/// The words before the declarators in a block. Without types they mean int.
#[derive(Drop)]
pub struct LocalSpecs {
    pub storage: Option<Storage>,
    pub types: Option<TypeSpec>,
}

/// The declaration of parameters.
#[derive(Drop)]
pub struct ParDecl {
    pub line: u32,
    pub register: bool,
    pub types: Types,
    pub declrs: Vec<Declr>,
}

/// A declaration at the head of a block.
#[derive(Drop)]
pub struct LocalDecl {
    pub line: u32,
    pub specs: LocalSpecs,
    pub items: Vec<Item>,
}
