//! Type words: how a symbol of a COFF file says its type (syms(4)).
//!
//! A word has the basic type in its low four bits and above them a pair of bits for each derivation, the outermost
//! lowest. The number of a tag and the dimensions of arrays stand beside it, in the symbol's auxiliary entry.
#![tactic(auto)]

mod code;
pub mod outermost;
mod reading;
mod writing;

use c_type::Kind;
pub use reading::{of_word, types_are_one};
pub use writing::word;

/// A type as a symbol says it: its word, its tag's number or 0, and its dimensions, the outermost first, behind them 0.
#[derive(Clone, Copy, Debug, Drop, PartialEq, Eq)]
pub struct TypeRec {
    pub word: u16,
    pub tag: u32,
    pub dims: [u16; 4],
}

/// The outermost constructor of the type that a word says, with what is below it. Bad where the bits say none.
#[derive(Clone, Copy, Debug, Drop, PartialEq, Eq)]
pub enum Outer {
    Num(Kind),
    Void,
    Ptr(TypeRec),
    Arr(u32, TypeRec),
    Fun(TypeRec),
    Struct(u32),
    Union(u32),
    Enum(u32),
    Bad,
}
