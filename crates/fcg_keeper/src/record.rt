//! Records.
ghost use Rattle.std.specs.Prelude.{◌≡◌};

use fcg_views::{Bytes, Items};

/// A number and the bytes that are kept under it.
#[derive(Clone, Drop, PartialEq)]
pub struct Record {
    /// Its number.
    pub seq: u64,
    /// The bytes.
    pub body: Bytes,
}

/// Records, by their numbers.
pub type Records = Items<Record>;
