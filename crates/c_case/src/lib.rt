//! Whole calls of the front end's crates on small trees, as a caller makes them.
//!
//! The crates promise exact answers, or want of memory. The tests here say that with ample memory the answer is there.
#![tactic(auto)]

#[cfg(test)]
mod expressions;
#[cfg(test)]
mod fresh;
#[cfg(test)]
mod joins;
#[cfg(test)]
mod scopes;
#[cfg(test)]
mod units;
