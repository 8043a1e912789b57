//! External declarations and the unit, which is what one file holds.

use crate::decl::{Declr, FileSpecs, Item, ParDecl, TagSpec, Types};
use crate::stmt::Block;

/// An external declaration, with the line of its first token, counted from 1.
#[derive(Drop)]
pub enum Ext {
    /// declarators under `typedef`; without types they mean int
    Typedef(u32, Option<Types>, Vec<Declr>),
    /// a tag alone
    TagOnly(u32, TagSpec),
    /// objects and functions that are declared
    Object(u32, FileSpecs, Vec<Item>),
    /// a function with its body
    Func(u32, Option<FileSpecs>, Declr, Vec<ParDecl>, Block),
}

/// The external declarations of one file, in their order.
#[derive(Drop)]
pub struct Unit {
    pub exts: Vec<Ext>,
}
