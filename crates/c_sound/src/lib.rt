//! Runs of checked programs end as the language says.
//!
//! The source machine has an outcome, `Leaves 0`, for trees that no checker makes: a value of a wrong type, a name that stands for nothing. Here stand the conditions under which it never comes, and the laws that what the typing rules and the join accept meets them. Each function carries one law.
#![tactic(auto)]

ghost use Rattle.c_sound.specs.Laws.{TypedIsNumbered, TypedSuits, JoinedSuits, SuitedRunsAreNamed, PlainRunsAreNamed, CheckedRunsAreNamed, CheckedRunsEnd};

/// The starts and texts of a typed unit count up in textual order, and the automatic objects of each function; a static that is declared again keeps its number.
#[tactic(auto, using(crate::proofs::UnitParts::typed_is_numbered))]
pub fn typed_unit_is_numbered()
    ensures law { TypedIsNumbered }
{
    // The law is all that is promised.
}

/// The typed unit of a unit suits: the types of its parts are those that each operator takes, its names and statics are declared, and its sizes are numbers.
#[tactic(auto, using(crate::proofs::Units::typed_suits))]
pub fn typed_unit_suits()
    ensures law { TypedSuits }
{
    // The law is all that is promised.
}

/// A program that the join makes of units that suit has each object and each function that its names stand for, and these give what their types say.
#[tactic(auto, using(crate::proofs::Joined::joined_suits))]
pub fn joined_program_suits()
    ensures law { JoinedSuits }
{
    // The law is all that is promised.
}

/// A run of a program that suits never ends by `Leaves 0`, whatever is changed at its turns.
#[tactic(auto, using(crate::proofs::Run::suited_runs_are_named))]
pub fn suited_run_is_named()
    ensures law { SuitedRunsAreNamed }
{
    // The law is all that is promised.
}

/// Where nothing is changed, it ends as the language names: it is stopped, ends with a status, faults, wants stack, or leaves defined C by one of the five rules.
#[tactic(auto, using(crate::proofs::Run::plain_runs_are_named))]
pub fn plain_run_is_named()
    ensures law { PlainRunsAreNamed }
{
    // The law is all that is promised.
}

/// So a run of what the typing rules and the join accept never ends by `Leaves 0`, whatever is changed at its turns.
#[tactic(auto, using(crate::proofs::Checked::checked_runs_are_named))]
pub fn checked_run_is_named()
    ensures law { CheckedRunsAreNamed }
{
    // The law is all that is promised.
}

/// And where nothing is changed, it ends as the language names.
#[tactic(auto, using(crate::proofs::Checked::checked_runs_end))]
pub fn checked_run_ends()
    ensures law { CheckedRunsEnd }
{
    // The law is all that is promised.
}
