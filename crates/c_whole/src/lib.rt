//! The units of a program as a whole: names defined, types agreed upon, tags that are one.
#![tactic(auto)]

ghost use Rattle.std.specs.Prelude.{true, false, map, IfOk, IfErr, IfSome};
ghost use Rattle.c_tree.specs.TypedOf.{unit_of, program_of};
ghost use Rattle.c_join.specs.JoinChecks.{IsJoined, IsRefused};
ghost use Rattle.c_whole.specs.Refusals.{told_as};

mod args;
mod checks;
mod classes;
mod facts;
mod first;
mod given;
mod groups;
mod in_exprs;
mod in_stmts;
mod in_units;
mod refusals;
mod said;
mod types;

use c_tree::{Program, TypedUnit};
use num_le::Name;
use refusals::checked;
use std::alloc::{AllocError, AllocFailed, Global};

/// Why the units of a program don't make one.
#[derive(Debug, Drop)]
pub enum JoinErr {
    /// No file defines an external function `main`.
    NoMain,
    /// An external name has two definitions.
    Twice(Name),
    /// A name is used and defined nowhere.
    Undefined(Name),
    /// A name is declared with two types.
    Clash(Name),
    /// A call by name doesn't fit the function's definition, or `main` has parameters.
    Arguments(Name),
    /// No memory was left.
    Memory,
}

impl From<AllocError> for JoinErr {
    ghost use Rattle.c_whole.specs.declared.JoinErr.{JoinErr};
    ghost use Rattle.std.specs.Prelude.{◌≡◌};

    ghost from_gives = { λ _ e. e ≡ JoinErr.Memory };

    fn from(_: AllocError) -> JoinErr {
        JoinErr::Memory
    }
}

impl<T: Drop> From<AllocFailed<T>> for JoinErr {
    ghost use Rattle.c_whole.specs.declared.JoinErr.{JoinErr};
    ghost use Rattle.std.specs.Prelude.{◌≡◌};

    ghost from_gives = { λ _ e. e ≡ JoinErr.Memory };

    fn from(_: AllocFailed<T>) -> JoinErr {
        JoinErr::Memory
    }
}

/// Joins the units of a whole program.
///
/// Ok gives the units with a number for each tag, which tags share exactly where they agree. An error is the first check
/// that fails, in the order `NoMain`, `Twice`, `Undefined`, `Clash`, `Arguments`, at the name that is mentioned first, file
/// by file. The time is in proportion to the units, but for tags of one name whose members differ: each round over all tags
/// splits a class of them.
pub fn join(alloc: Global, units: Vec<TypedUnit>) -> Result<Program, JoinErr>
    ensures joined { IfOk result (λ p. IsJoined true (map unit_of units.items) (program_of p)) }
    ensures refused { IfErr result (λ e. IfSome (told_as e) (IsRefused true (map unit_of units.items))) }
{
    let classes = checked(alloc, true, &units)?;
    Ok(Program { units, classes })
}

/// Joins the units of a part of a program. Names that are used and defined nowhere, `main` too, are left to the link editor.
pub fn join_part(alloc: Global, units: Vec<TypedUnit>) -> Result<Program, JoinErr>
    ensures joined { IfOk result (λ p. IsJoined false (map unit_of units.items) (program_of p)) }
    ensures refused { IfErr result (λ e. IfSome (told_as e) (IsRefused false (map unit_of units.items))) }
{
    let classes = checked(alloc, false, &units)?;
    Ok(Program { units, classes })
}
