//! The small form of C, on trees: `main ( )` with variables of type int, sums and differences, assignments, `while`, blocks,
//! `putchar` and `return`.
//!
//! `small_main` gives the typed main of each unit of the form and refuses every other unit. The typed main is the one that the
//! typing rules give the unit. Code for the whole language takes this crate away.
#![tactic(auto)]

mod typed_main;

pub use typed_main::{Fault, small_main};
