//! Texts given to the readers of C, as a caller gives them.
//!
//! The crates promise exact answers, or want of memory. The tests here say that with ample memory the answer is there.
#![tactic(auto)]

#[cfg(test)]
mod declarations;
#[cfg(test)]
mod expressions;
#[cfg(test)]
mod tokens;
#[cfg(test)]
mod units;
