//! Reading instructions of the 386.
#![tactic(auto)]

mod dec;
mod form;
mod opcode;
mod operand;

pub use dec::{Dec, decode};
