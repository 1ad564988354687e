//! Want of memory.
ghost use Rattle.std.specs.Prelude.{◌≡◌};

use fcg_grammar::ReadError;
use std::alloc::{AllocError, AllocFailed};

/// There was no memory for the call. Each object that it was lent is as before, unless the call says otherwise.
#[derive(Clone, Copy, Debug, PartialEq, Eq)]
pub struct NoMemory;

impl From<AllocError> for NoMemory {
    fn from(_: AllocError) -> NoMemory {
        NoMemory
    }
}

impl<T: Drop> From<AllocFailed<T>> for NoMemory {
    fn from(_: AllocFailed<T>) -> NoMemory {
        NoMemory
    }
}

impl<F> From<NoMemory> for ReadError<F> {
    ghost use Rattle.fcg_grammar.specs.declared.error.ReadError.TheVariants as errors;

    ghost from_gives = { λ _ e. e ≡ errors.NoMemory };

    fn from(_: NoMemory) -> ReadError<F> {
        ReadError::NoMemory
    }
}
