//! The front end over all files: from texts to the program that they make.
//!
//! `accept` gives the program exactly where each text is read by a unit, each unit has a typed unit, and these are joined. A
//! refusal comes exactly where its cause is there: the first text that no unit reads, the first file in which a rule fails, or
//! the first check of the join that fails. No two of these stand beside each other, nor beside a program (`one_answer`). Want of
//! memory may stand for each.
#![tactic(auto)]

mod front;
mod laws;

pub use front::{Accepted, FrontErr, Source, accept};
pub use laws::one_answer;
