//! Why a reader gave up.
ghost use Rattle.std.specs.Prelude.{◌≡◌};

use std::alloc::{AllocError, AllocFailed};

/// Why a reader of a format gave up: there was no memory, or the bytes have this first fault.
#[derive(Clone, Copy, Debug, PartialEq, Eq)]
pub enum ReadError<F> {
    NoMemory,
    Fault(F),
}

impl<F> From<AllocError> for ReadError<F> {
    ghost use Rattle.fcg_grammar.specs.declared.error.ReadError.TheVariants as errors;

    ghost from_gives = { λ _ e. e ≡ errors.NoMemory };

    fn from(_: AllocError) -> ReadError<F> {
        ReadError::NoMemory
    }
}

impl<F, T: Drop> From<AllocFailed<T>> for ReadError<F> {
    ghost use Rattle.fcg_grammar.specs.declared.error.ReadError.TheVariants as errors;

    ghost from_gives = { λ _ e. e ≡ errors.NoMemory };

    fn from(_: AllocFailed<T>) -> ReadError<F> {
        ReadError::NoMemory
    }
}
