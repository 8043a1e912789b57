//! Whole calls of the program over memory, as tests.
#![tactic(auto)]

#[cfg(test)]
mod calls;
