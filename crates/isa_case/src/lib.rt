//! Instructions written as bytes, read from bytes and executed, as a caller does it.
#![tactic(auto)]

#[cfg(test)]
mod bytes;
#[cfg(test)]
mod instructions;
#[cfg(test)]
mod steps;
