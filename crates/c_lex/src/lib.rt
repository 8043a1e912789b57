//! The tokens of a C text.
//!
//! A text is white bytes, comments and tokens, each as long as it may be. Lines are counted from 1.
#![tactic(auto)]

mod bytes;
pub mod laws;
mod marks;
mod numbers;
mod pieces;
mod quoted;
mod reader;

use num_le::Name;
pub use reader::{LexErr, lex};

/// A token. A word or a mark is its place in the list of words or of marks, from 0.
#[derive(Debug, Drop)]
pub enum Tok {
    Name(Name),
    /// A number and whether it has the suffix `l` or `L`.
    Int(u32, bool),
    /// A character's byte.
    Chr(u8),
    /// A text's bytes without the closing zero.
    Text(Name),
    Word(u8),
    Mark(u8),
}

/// A token with the line on which it begins.
#[derive(Debug, Drop)]
pub struct Token {
    pub kind: Tok,
    pub line: u32,
}

/// The tokens of a text in their order.
#[derive(Debug, Drop)]
pub struct Tokens {
    pub list: Vec<Token>,
}
