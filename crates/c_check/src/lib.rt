//! The typing rules on whole units: declarations at file level, and functions.
//!
//! `check` gives the typed unit of a unit, or the number of a rule that fails in it.
#![tactic(auto)]

mod file_items;
mod functions;
mod name_list;
mod parameters;
mod units;

pub use units::check;
