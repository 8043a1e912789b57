//! Expressions of sixteen levels: from tokens to their tree.
//!
//! Between the spellings of a tree and the readers of tokens stands a reading function on lists of tokens.
//! Laws join them, each the contract of a function that does nothing.
#![tactic(auto)]

mod brackets;
mod error;
mod found;
mod front;
mod nodes;
mod places;
mod productions;
mod reader;
mod rest;
mod suffix;
mod tally;
mod typedefs;
mod typename;

ghost use Rattle.c_expr.specs.Laws.{IsOneReading, IsSpelled, IsRead, IsNestedByBrackets, AreBracketsFew};

pub use error::ParseErr;
pub use reader::expr;
pub use typedefs::Typedefs;

/// At most one expression of a level spells tokens up to where it may end.
pub fn one_reading()
    ensures law { IsOneReading }
{
    // The law is all that is promised.
}

/// What the reading function gives is spelled by the tokens, and is no deeper than the greatest depth.
pub fn what_is_read_is_spelled()
    ensures law { IsSpelled }
{
    // The law is all that is promised.
}

/// What tokens spell up to where it may end is what the reading function gives.
pub fn what_is_spelled_is_read()
    ensures law { IsRead }
{
    // The law is all that is promised.
}

/// Parts and brackets of an expression stand no deeper in one another than its tree is deep and its
/// brackets are open at once.
pub fn nesting_is_by_brackets()
    ensures law { IsNestedByBrackets }
{
    // The law is all that is promised.
}

/// In tokens at which at most 200 brackets are open, those of an expression and those before it are at most 200.
pub fn brackets_are_few()
    ensures law { AreBracketsFew }
{
    // The law is all that is promised.
}
