//! Assembly texts printed and read, as a caller does it.
#![tactic(auto)]

#[cfg(test)]
mod items;
#[cfg(test)]
mod texts;
