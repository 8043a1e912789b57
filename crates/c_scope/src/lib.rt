//! What names and tags mean where a part of a unit stands, and the types that words name.
//!
//! Between the rules, which are relations, and a checker stands a typing function on trees. Three laws join them, each
//! the contract of a function that does nothing. Each function that checks says exactly what the typing function says.
#![tactic(auto)]

mod again;
mod bodies;
mod error;
mod first;
mod heads;
mod layout;
mod names;
mod scope;
mod scopes;
mod tags_in;
mod types;
mod words;

pub use again::joined;
pub use error::TypeErr;
pub use first::insert_first;
pub use names::{first_again, names_differ};
pub use scope::Meaning;
pub use scopes::Scopes;
pub use tags_in::{declared, is_static_function};
pub use types::{
    copy, copy_name, copy_ref, is_function, is_integer, is_object_pointer, is_pointer, is_same,
    is_scalar, is_sized, target, target_is_sized, wide,
};
pub use words::{cast_type, declared_type, is_void, sized_type, spec_or_int, spec_type};
