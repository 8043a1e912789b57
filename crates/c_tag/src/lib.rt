//! Typing of what stands before declarators outside of blocks: the bodies of tags, and the types that words name.
#![tactic(auto)]

mod tags;

pub use tags::{Typed, head_words, tag_def, types, types_or_int};
