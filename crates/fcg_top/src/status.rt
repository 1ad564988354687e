//! How a run ended, and why a command stops before it writes.

use fcg_bytes::ReadAllRefusal;
use fcg_class::{BundleFault, BundleRule, PackRefusal};
use fcg_classfile::ClassFault;
use fcg_grammar::ReadError;
use fcg_views::NoMemory;

/// How a run ended. Its number is the exit status of the program.
#[derive(Clone, Copy, Debug, PartialEq, Eq)]
pub enum Status {
    /// The output was written.
    Ok,
    /// The words are those of no command. Nothing was read.
    Words,
    /// The input or the folder was refused, and the refusal is on the errors.
    Refused,
    /// A read of the input failed, or a call of the files.
    ReadFailed,
    /// A write to the output failed. A front of the output was written.
    WriteFailed,
    /// There was no memory.
    NoMemory,
}

impl Status {
    ghost use Rattle.std.specs.Prelude.{◌≡◌};
    ghost use Rattle.fcg_top.specs.Status.{number};

    /// The exit status.
    pub fn code(self) -> u8
        ensures { result ≡ number self }
    {
        match self {
            Status::Ok => 0,
            Status::Words => 2,
            Status::Refused => 3,
            Status::ReadFailed => 4,
            Status::WriteFailed => 5,
            Status::NoMemory => 7,
        }
    }
}

/// Why an input is refused, or a folder.
#[derive(Clone, Copy, Debug, PartialEq, Eq)]
pub enum Refusal {
    /// It is longer than the longest bundle.
    BodyTooLong,
    /// It is a jar.
    Jar,
    /// It breaks a rule of bundles.
    BadBundle {
        /// The number of the entry that was in hand, from 0.
        entry: u32,
        /// The place of the item that breaks the rule, in bytes from the start.
        offset: u32,
        rule: BundleRule,
    },
    /// The class file of an entry has a fault.
    BadClass {
        /// The number of the entry, from 0.
        entry: u32,
        /// The fault, with its place in the entry's body.
        fault: ClassFault,
    },
    /// There is no such folder.
    Absent,
    /// The folder has too many files, or they have too many bytes for a bundle.
    TooLong,
    /// A path of the folder isn't one that a bundle may have.
    BadPath {
        /// The number of the path, from 0, among those that are packed.
        entry: u32,
    },
}

/// Why a command stopped. Only after `WriteFailed` it has written some of its output.
#[derive(Clone, Copy, Debug, PartialEq, Eq)]
pub enum Stop {
    Refused(Refusal),
    ReadFailed,
    WriteFailed,
    NoMemory,
}

impl From<NoMemory> for Stop {
    ghost use Rattle.std.specs.Prelude.{◌≡◌};
    ghost use Rattle.fcg_top.specs.declared.status.Stop.TheVariants as stops;

    ghost from_gives = { λ _ e. e ≡ stops.NoMemory };

    fn from(_: NoMemory) -> Stop {
        Stop::NoMemory
    }
}

impl From<ReadAllRefusal> for Stop {
    ghost use Rattle.std.specs.Prelude.{◌≡◌};
    ghost use Rattle.fcg_top.specs.Internal.Stopped.{stop_of_read};

    ghost from_gives = { λ refusal e. e ≡ stop_of_read refusal };

    fn from(refusal: ReadAllRefusal) -> Stop {
        match refusal {
            ReadAllRefusal::NoMemory => Stop::NoMemory,
            ReadAllRefusal::Failed => Stop::ReadFailed,
            ReadAllRefusal::TooLong => Stop::Refused(Refusal::BodyTooLong),
        }
    }
}

impl From<ReadError<BundleFault>> for Stop {
    ghost use Rattle.std.specs.Prelude.{◌≡◌};
    ghost use Rattle.fcg_top.specs.Internal.Stopped.{stop_of_bundle};

    ghost from_gives = { λ error e. e ≡ stop_of_bundle error };

    fn from(error: ReadError<BundleFault>) -> Stop {
        match error {
            ReadError::NoMemory => Stop::NoMemory,
            ReadError::Fault(BundleFault::Jar) => Stop::Refused(Refusal::Jar),
            ReadError::Fault(
                BundleFault::Bundle {
                    offset,
                    entry,
                    rule,
                },
            ) => Stop::Refused(Refusal::BadBundle {
                entry,
                offset,
                rule,
            }),
            ReadError::Fault(BundleFault::Class { entry, fault }) => {
                Stop::Refused(Refusal::BadClass { entry, fault })
            }
        }
    }
}

impl From<PackRefusal> for Stop {
    ghost use Rattle.std.specs.Prelude.{◌≡◌};
    ghost use Rattle.fcg_top.specs.Internal.Stopped.{stop_of_pack};

    ghost from_gives = { λ refusal e. e ≡ stop_of_pack refusal };

    fn from(refusal: PackRefusal) -> Stop {
        match refusal {
            PackRefusal::NoMemory => Stop::NoMemory,
            PackRefusal::Absent => Stop::Refused(Refusal::Absent),
            PackRefusal::FilesFailed => Stop::ReadFailed,
            PackRefusal::TooLong => Stop::Refused(Refusal::TooLong),
            PackRefusal::BadPath { entry } => Stop::Refused(Refusal::BadPath { entry }),
            PackRefusal::WriteFailed => Stop::WriteFailed,
        }
    }
}
