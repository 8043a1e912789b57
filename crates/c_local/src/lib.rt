//! Typing of declarations in a function: declarators, initialisers and what they declare.
#![tactic(auto)]

mod declarators;
mod initialisers;
mod locals;
mod texts;

pub use declarators::{declarator, head_declarator, is_name, line_of};
pub use initialisers::{auto_init, begin};
pub use locals::{declarations, is_static, missing};
