//! Constants: the values of typed expressions that are known before a run.
//!
//! A constant is a number of 32 bits, or a spot in an object of static life or a function, whose
//! address the link editor settles.
#![tactic(auto)]

mod address;
mod arith;
mod number;
mod spot;
mod typing;

pub use address::{is_function_address, is_known, place_spot, pointer_spot};
pub use arith::convert;
pub use number::{constant, is_zero};
pub use spot::Spot;
pub use typing::{ExprType, size, type_of};
