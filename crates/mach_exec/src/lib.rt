//! The user-mode 386: its registers and flags, and one instruction at a time.
//!
//! `step` executes the instruction at eip, by the instruction table alone (*Step386*). What a system call does, a process, one
//! instruction with the system call that it asks for, and so many of them are defined here too, for the crates above.
#![tactic(auto)]

mod arith;
mod control;
mod divide;
mod effect;
mod execute;
mod flags;
mod operand;
mod processor;
mod shift;
mod strings;
mod transfer;

pub use processor::{Cpu, Event, step};
pub use strings::can_read_all;
