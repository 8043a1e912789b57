//! The items of a 386 assembly text, and the text that is printed of them.
//!
//! An [`Item`] is one statement of the text, or one group from `.def` to `.endef`. [`print`] writes
//! items that are normal ([`is_normal`]), one statement a line, and reading that text gives the items
//! back.
#![tactic(auto)]

mod args;
mod model;
mod normal;
mod printing;
mod put;
mod registers;
mod rows;
mod words;

pub use args::{Arg, Number, Operand, Size};
pub use isa386::Field;
pub use model::{DefGroup, Item, Items, Label, Val, Word};
pub use normal::{is_file, is_name, is_name_byte, is_normal};
pub use printing::print;
pub use registers::register_name;
pub use words::Keyword;
