//! A program of the small form, whose code is made and executed.
#![tactic(auto)]

#[cfg(test)]
mod loops;
