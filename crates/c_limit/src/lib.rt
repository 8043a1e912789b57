//! The limits on programs, and the edges and starts by which code and debug groups are numbered.
#![tactic(auto)]

ghost use Rattle.c_limit.specs.Laws.{EdgesHaveStarts, WholeIsPart, NoneIsPassed};

mod checks;
mod frame;
mod named_types;
mod names;
mod parts;
mod temporaries;
mod texts;
mod types;

pub use checks::{frames_are_of_units, frames_fit, names_fit, temporaries_fit};
pub use frame::{frame_is_of_parts, frame_of_parts};
pub use names::{Named, NamedType, declared_names};
use num_le::Name;
pub use parts::{Part, parts as parts_of_body};
use std::alloc::AllocError;
pub use temporaries::{temporaries as temporaries_of, temporaries_of_parts};
pub use texts::texts_fit;
pub use types::{arrays, derivations, greatest_dimension, greatest_part, size_in};

/// Which limit a program passes.
#[derive(Debug, Drop)]
pub enum LimitErr {
    /// The C files have more than 131,000 bytes together.
    Total,
    /// The C files have more than 65,000 starts and functions together.
    Starts,
    /// A start of this file, counted from 0, stands behind line 65,535.
    Lines(u32),
    /// The objects of static life take more than 16,777,216 bytes.
    Init,
    /// An array or structure inside the name's type has more than 65,535 bytes.
    Object(Name),
    /// The name's type has more than 6 derivations.
    Derivations(Name),
    /// The name's type has more than 4 array derivations, or one of more than 65,535 elements.
    Dimensions(Name),
    /// The function needs more than 64 temporaries.
    Temporaries(Name),
    /// The function's frame has more than 16,777,216 bytes.
    Frame(Name),
    /// No memory was left.
    Memory,
}

impl From<AllocError> for LimitErr {
    ghost use Rattle.c_limit.specs.declared.LimitErr.{LimitErr};
    ghost use Rattle.std.specs.Prelude.{◌≡◌};

    ghost from_gives = { λ _ e. e ≡ LimitErr.Memory };

    fn from(_: AllocError) -> LimitErr {
        LimitErr::Memory
    }
}

/// The starts among the edges of a file are its starts, in order.
pub fn edges_have_starts()
    ensures law { EdgesHaveStarts }
{
    // The law is all that is promised.
}

/// What is made of a whole program holds of a part.
pub fn whole_is_part()
    ensures law { WholeIsPart }
{
    // The law is all that is promised.
}

/// No limit of a list is passed exactly where each quantity is at most its greatest number.
pub fn none_is_passed()
    ensures law { NoneIsPassed }
{
    // The law is all that is promised.
}
