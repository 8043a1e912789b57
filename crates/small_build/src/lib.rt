//! From texts of the small form to the bytes of .text.
//!
//! `build` gives the bytes that are made of the main of texts of the form; they fit below the statics. It answers the refusal of
//! the front end exactly where there is one, and `Unbuilt` exactly where the program isn't of the form. Texts have one main, and the
//! program that they make is that main alone. Code for the whole language takes this crate away.
#![tactic(auto)]

mod program;
mod whole;

pub use whole::{BuildErr, build};
