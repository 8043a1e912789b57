//! Statements and units: from tokens to their trees.
//!
//! `parse` gives the unit that the tokens of a text spell, and refuses exactly where they spell none.
//!
//! A reading function on lists of tokens stands between the spellings of a unit and the parser. The laws that
//! join it to the spellings are the contracts of functions that do nothing.
#![tactic(auto)]

mod brackets;
mod depth;
mod forms;
mod nodes;
mod parts;
mod places;
mod statements;
mod units;

ghost use Rattle.c_parse.specs.Laws.{IsOneReading, IsOneUnit, IsRead, IsSpelled};

pub use units::parse;

/// At most one unit reads a text.
pub fn one_reading()
    ensures law { IsOneReading }
{
    // The law is all that is promised.
}

/// At most one unit is spelled by given tokens.
pub fn one_unit()
    ensures law { IsOneUnit }
{
    // The law is all that is promised.
}

/// The unit that tokens spell is what the reading function gives.
pub fn what_is_spelled_is_read()
    ensures law { IsRead }
{
    // The law is all that is promised.
}

/// What the reading function gives is the unit that the tokens spell, where no more than 200 brackets are open.
pub fn what_is_read_is_spelled()
    ensures law { IsSpelled }
{
    // The law is all that is promised.
}
