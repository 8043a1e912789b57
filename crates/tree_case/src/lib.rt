//! Typed trees built by hand: the lines of their starts, and the values of their constants.
#![tactic(auto)]

#[cfg(test)]
mod constants;
#[cfg(test)]
mod starts;
