// Why tokens are not read.
use std::alloc::{AllocError, AllocFailed};

/// Why tokens are not read, with the line of the token at which reading ended.
#[derive(Debug, Drop, thiserror::Error)]
pub enum ParseErr {
    /// More than 200 brackets are open at a token. It comes from the reader of whole units alone.
    #[error("line {0}: too deep")]
    TooDeep(u32),
    /// The tokens spell nothing of the language.
    #[error("line {0}: not C")]
    NotC(u32),
    /// Want of memory.
    #[error("memory")]
    Memory,
}

impl From<AllocError> for ParseErr {
    ghost use Rattle.c_expr.specs.declared.error.ParseErr.{ParseErr};
    ghost use Rattle.std.specs.Prelude.{◌≡◌};

    ghost from_gives = { λ _ e. e ≡ ParseErr.Memory };

    fn from(_: AllocError) -> ParseErr {
        ParseErr::Memory
    }
}

impl<T: Drop> From<AllocFailed<T>> for ParseErr {
    ghost use Rattle.c_expr.specs.declared.error.ParseErr.{ParseErr};
    ghost use Rattle.std.specs.Prelude.{◌≡◌};

    ghost from_gives = { λ _ e. e ≡ ParseErr.Memory };

    fn from(_: AllocFailed<T>) -> ParseErr {
        ParseErr::Memory
    }
}
