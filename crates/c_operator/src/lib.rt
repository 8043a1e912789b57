//! The typing rules on expressions whose parts are typed: operators, assignments, `? :`, casts, and what stands behind an
//! operand.
//!
//! There is one function for each rule. They take boxes, so that a part moves into the node that is made of it.
#![tactic(auto)]

pub mod assignments;
pub mod by_operator;
pub mod choice;
pub mod operators;
pub mod postfix;
pub mod typed;
pub mod unary;
pub mod values;
