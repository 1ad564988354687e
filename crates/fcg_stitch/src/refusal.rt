//! Why a set isn't stitched.
ghost use Rattle.std.specs.Prelude.{◌≡◌};

use fcg_views::NoMemory;
use std::alloc::{AllocError, AllocFailed};

/// Why a set isn't stitched.
#[derive(Clone, Copy, Debug, PartialEq, Eq)]
pub enum StitchRefusal {
    /// The graphs of the parts have more than 268,435,456 bytes in sum: so many.
    SetTooLarge { bytes: u64 },
    /// The call graph has more than 32,000,000 edges.
    GraphTooLarge,
    /// There was no memory.
    NoMemory,
}

impl From<NoMemory> for StitchRefusal {
    ghost use Rattle.fcg_stitch.specs.declared.refusal.StitchRefusal.TheVariants as refusals;

    ghost from_gives = { λ _ e. e ≡ refusals.NoMemory };

    fn from(_: NoMemory) -> StitchRefusal {
        StitchRefusal::NoMemory
    }
}

impl From<AllocError> for StitchRefusal {
    ghost use Rattle.fcg_stitch.specs.declared.refusal.StitchRefusal.TheVariants as refusals;

    ghost from_gives = { λ _ e. e ≡ refusals.NoMemory };

    fn from(_: AllocError) -> StitchRefusal {
        StitchRefusal::NoMemory
    }
}

impl<T: Drop> From<AllocFailed<T>> for StitchRefusal {
    ghost use Rattle.fcg_stitch.specs.declared.refusal.StitchRefusal.TheVariants as refusals;

    ghost from_gives = { λ _ e. e ≡ refusals.NoMemory };

    fn from(_: AllocFailed<T>) -> StitchRefusal {
        StitchRefusal::NoMemory
    }
}
