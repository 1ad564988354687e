//! What is answered to a command.
ghost use Rattle.std.specs.Prelude.{◌≡◌};

use fcg_keeper::{KeeperRefusal, Record};
use fcg_views::NoMemory;
use std::alloc::AllocError;

/// What an accepted command is to the log. The number is that of the entry.
#[derive(Clone, Copy, Debug, PartialEq, Eq)]
pub enum Accepted {
    /// It is a new entry.
    Entered { entry: u64 },
    /// The request was entered before, with this command.
    Repeated { entry: u64 },
    /// The release has this content already. Nothing is entered, and the request's number isn't kept.
    Standing { entry: u64 },
}

/// Why a command wasn't accepted.
#[derive(Drop)]
pub enum Refused {
    /// There was no memory.
    NoMemory,
    /// The request's number stands in the log with another command.
    RequestClash { entry: u64 },
    /// The release that is to be withdrawn isn't live.
    AbsentRelease,
    /// The stored graph has more than 67,108,864 bytes.
    ReleaseTooLarge { bytes: u64 },
    /// The log has 1,000,000 entries.
    LogFull,
    /// The records would have more than 1,073,741,824 bytes.
    StoreFull { bytes: u64 },
    /// The keeper failed, and counted it.
    KeeperFailed,
    /// After a failed append the keeper has another record than the one that was to stand there.
    StoreDiffers { found: Record },
}

impl From<AllocError> for Refused {
    ghost use Rattle.fcg_book.specs.declared.answer.Refused.TheVariants as refusals;

    ghost from_gives = { λ _ e. e ≡ refusals.NoMemory };

    fn from(_: AllocError) -> Refused {
        Refused::NoMemory
    }
}

impl From<NoMemory> for Refused {
    ghost use Rattle.fcg_book.specs.declared.answer.Refused.TheVariants as refusals;

    ghost from_gives = { λ _ e. e ≡ refusals.NoMemory };

    fn from(_: NoMemory) -> Refused {
        Refused::NoMemory
    }
}

impl From<KeeperRefusal> for Refused {
    ghost use Rattle.fcg_book.specs.Accept.{refused_by};

    ghost from_gives = { λ refusal e. e ≡ refused_by refusal };

    fn from(refusal: KeeperRefusal) -> Refused {
        match refusal {
            KeeperRefusal::NoMemory => Refused::NoMemory,
            KeeperRefusal::Failed => Refused::KeeperFailed,
        }
    }
}
