// The suffixes of expressions.
ghost use Rattle.std.specs.Prelude.{◌≡◌};
ghost use Rattle.std.specs.Option.{option_map};
ghost use Rattle.c_expr.specs.Shown.{left};
ghost use Rattle.c_expr.specs.Suffix.{begun_of, suffix_at};

use crate::nodes::Selector;
use crate::places::{ARROW, DOT, OPEN_ROUND, OPEN_SQUARE};
use crate::rest::Rest;
use c_tree::StepOp;

/// A suffix with the tokens behind its first one.
#[derive(Clone, Copy, Drop)]
pub enum Suffix<'a> {
    /// `(`
    Call(Rest<'a>),
    /// `[`
    Index(Rest<'a>),
    /// `.` or `->`
    Select(Selector, Rest<'a>),
    /// `++` or `--`
    Step(StepOp, Rest<'a>),
}

/// The suffix that begins at the front.
pub fn suffix_at<'a>(rest: Rest<'a>) -> Option<Suffix<'a>>
    ensures { option_map begun_of result ≡ suffix_at (left rest.entry) }
{
    if let Some(after) = rest.eat(OPEN_ROUND) {
        return Some(Suffix::Call(after));
    }
    if let Some(after) = rest.eat(OPEN_SQUARE) {
        return Some(Suffix::Index(after));
    }
    if let Some(after) = rest.eat(DOT) {
        return Some(Suffix::Select(Selector::Dot, after));
    }
    if let Some(after) = rest.eat(ARROW) {
        return Some(Suffix::Select(Selector::Arrow, after));
    }
    let (op, after) = rest.step()?;
    Some(Suffix::Step(op, after))
}
