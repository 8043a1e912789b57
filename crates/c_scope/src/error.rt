// Why a unit has no typed tree.
use std::alloc::{AllocError, AllocFailed};

/// A rule that fails in a unit, or want of memory.
#[derive(Debug, Drop, thiserror::Error)]
pub enum TypeErr {
    /// The rule, from 1 to 24, and the line near which it fails.
    #[error("line {1}: rule {0}")]
    Rule(u8, u32),
    /// Want of memory.
    #[error("memory")]
    Memory,
}

impl From<AllocError> for TypeErr {
    ghost use Rattle.c_scope.specs.declared.error.TypeErr.{TypeErr};
    ghost use Rattle.std.specs.Prelude.{◌≡◌};

    ghost from_gives = { λ _ e. e ≡ TypeErr.Memory };

    fn from(_: AllocError) -> TypeErr {
        TypeErr::Memory
    }
}

impl<T: Drop> From<AllocFailed<T>> for TypeErr {
    ghost use Rattle.c_scope.specs.declared.error.TypeErr.{TypeErr};
    ghost use Rattle.std.specs.Prelude.{◌≡◌};

    ghost from_gives = { λ _ e. e ≡ TypeErr.Memory };

    fn from(_: AllocFailed<T>) -> TypeErr {
        TypeErr::Memory
    }
}
