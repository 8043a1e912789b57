//! The instructions of the 386 and their bytes.
//!
//! [`Ins`] has one variant for each row of the instruction table, and its operands say which form of
//! the row it is. [`encode`] gives an instruction's bytes and [`len`] their number.
#![tactic(auto)]

mod encoder;
mod field;

pub use encoder::{encode, len};
pub use field::{Field, field_at, with_field};

mod ins;
mod row;

pub use ins::{
    ArithOp, Callee, Cond, Dest, DivideOp, Dw, Ins, Narrow, Opnd, PlainOp, ShiftOp, StackOp,
    StringOp, Target, UnaryOp, Way, WidenOp,
};
pub use row::is_row;
