//! The source machine of the whole language, as total functions on typed trees.
//!
//! *Run* is the evaluation of main from the first state, turn by turn; *Place* and *NameInScope* say where an object
//! stands and what a name is bound to at a start. The laws are those of *Run*.
#![tactic(auto)]

pub mod laws;
