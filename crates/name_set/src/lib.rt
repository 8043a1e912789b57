//! Names that differ, each found by its bytes.
//!
//! `NameSet::of` answers a set of names exactly where no two of them are the same, and `place` the first place of a name. Either
//! takes time that is linear in the bytes of the names, as a hash table does.
#![tactic(auto)]

mod names;

pub use names::NameSet;
