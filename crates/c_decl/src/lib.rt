//! Declarations: from tokens to their trees.
//!
//! A reading function on lists of tokens stands between the spellings of a declaration and a reader of
//! tokens. The laws that join it to the spellings are the contracts of functions that do nothing.
#![tactic(auto)]

ghost use Rattle.c_decl.specs.Laws.{IsHeadRead, IsLocalRead, IsWholeRead};

mod bodies;
mod declarations;
mod declarators;
mod depth;
mod front;
mod initialisers;
mod marks;
mod names;
mod outside;
mod places;
mod reader;
mod spelling;
mod types;
mod words;

use c_tree::{Declr, Ext, FileSpecs, ParDecl};
pub use depth::{
    MAX_DEPTH, declr_exceeds, declrs_exceed, expr_exceeds, items_exceed, local_exceeds,
    optional_types_exceed, pars_exceed, tag_exceeds,
};
pub use names::{declared_name, declares_function};
pub use places::{external, local};
pub use reader::Reader;

/// The parts of a function but for its block, with the line of its first token, counted from 1.
#[derive(Drop)]
pub struct FuncHead {
    pub line: u32,
    pub specs: Option<FileSpecs>,
    pub declr: Declr,
    pub params: Vec<ParDecl>,
}

/// What stands outside of blocks: a whole declaration, or a function up to its block.
#[derive(Drop)]
pub enum Head {
    Whole(Ext),
    Func(FuncHead),
}

/// A declaration outside of blocks that tokens spell is what the reading function gives.
pub fn a_whole_is_read()
    ensures law { IsWholeRead }
{
    // The law is all that is promised.
}

/// The head of a function that tokens spell before a block is what the reading function gives.
pub fn a_head_is_read()
    ensures law { IsHeadRead }
{
    // The law is all that is promised.
}

/// A declaration in a block that tokens spell is what the reading function gives.
pub fn a_local_is_read()
    ensures law { IsLocalRead }
{
    // The law is all that is promised.
}
