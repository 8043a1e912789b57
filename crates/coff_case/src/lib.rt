//! Calls of the records of a COFF file, as a caller makes them.
#![tactic(auto)]

#[cfg(test)]
mod files;
#[cfg(test)]
mod records;
