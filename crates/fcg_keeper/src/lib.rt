//! Keepers of records, and stores that hand keepers out: the traits, and objects in memory. A record is a number and the
//! bytes that it keeps. What a keeper promises of its records, of its failures and of crashes are clauses of the trait, so
//! that what stands above it holds over every keeper. The crate stands on the values and on the counts of `fcg_bytes`.
#![tactic(auto)]

mod keeper;
mod memory;
mod record;
mod stores;

pub use keeper::{Keeper, KeeperRefusal, MOST_LOADED};
pub use memory::{FailMode, MemoryKeeper};
pub use record::{Record, Records};
pub use stores::{MemoryStores, Stores};
