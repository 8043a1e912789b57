//! Typing of expressions, by the rule of each production.
//!
//! `expr` gives the typed expression, which is not yet used as a value. The functions beside it take an expression as a part
//! of a declaration or a statement, by the rule of what takes it.
#![tactic(auto)]

mod constants;
mod expressions;
mod here;
mod names;
mod parts;

pub use constants::Number;
pub use expressions::expr;
pub use parts::{
    constant_expr, dimension_expr, first_expr, integer_expr, scalar_expr, scalar_option, used_expr,
    used_option, value_expr, value_option,
};
