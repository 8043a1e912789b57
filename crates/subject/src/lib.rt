//! A process of the machine: its instructions one after the other with the system calls that they ask for, a budget of
//! instructions, and its output on the way to a sink.
//!
//! `run_text` runs the program of some bytes of .text from a memory that has executed nothing. Where it answers how the
//! process has stopped, the process of the machine stops so, within the budget, and the sink gained its output to the last
//! byte; where a write failed, the sink gained a front of the output that the process has at some instruction; where memory
//! was wanting, nothing was written. A process stops in one way alone.
#![tactic(auto)]

mod machine;
mod output;
mod process;

pub use machine::{Stuck, run_text};
pub use process::{Halt, execute};
