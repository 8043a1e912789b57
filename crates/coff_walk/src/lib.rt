//! The walk of a COFF file's symbol table.
//!
//! A [`Table`] is borrowed from the file's bytes. Its symbols are found by n_numaux, one behind the
//! other. An [`Index`] looks up whether an index is a symbol's without a walk from the begin.
#![tactic(auto)]

mod ends;
mod index;
mod table;

pub use index::Index;
pub use table::{Place, Table, first_zero};
