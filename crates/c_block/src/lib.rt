//! Typing of statements and blocks, by the rule of each production.
#![tactic(auto)]

mod blocks;
mod labels;

pub use blocks::{Place, statements};
