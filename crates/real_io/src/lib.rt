//! The files and streams of the system, as files, sources and sinks.
//!
//! Nothing is told of what a file of the system holds. A source and a sink give and take exactly the bytes that their reader and
//! writer tell, where these tell any; those of the system tell nothing. A call fails only where the count of faults rises.
#![tactic(auto)]

mod real;

pub use real::{RealFiles, RealSink, RealSource};
