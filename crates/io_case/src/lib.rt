//! Files of the system, and a source and a sink over known bytes, as tests.
#![tactic(auto)]

#[cfg(test)]
mod real;
