//! What the statements of an assembly text lay: labels, bytes and relocations.
//!
//! A text is laid by sections. A label has the place of what follows it, a jump to a label of its
//! section that isn't external is resolved, and every other name is left to the link editor.
#![tactic(auto)]

ghost use Rattle.asm_lay.specs.Rows.{TextsAreLaid};

mod codes;

pub use codes::{R_DIR32, R_PCRLONG};

/// Small texts lay the bytes that a.out(4) and the Intel 80386 manual give them.
pub fn texts_are_laid()
    ensures law { TextsAreLaid }
{
    // The law is all that is promised.
}
