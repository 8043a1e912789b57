//! The grammar of C as a relation from trees to tokens, and the operators that marks spell.
//!
//! The definition *Reads* says which unit a list of tokens spells. It goes from trees to tokens; no reader stands in it.
#![tactic(auto)]

mod operators;

pub use operators::{
    assignment_operator, binary_level, binary_operator, postfix_operator, prefix_operator,
};
