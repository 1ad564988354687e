//! The tests of `fcg_stitch`, by its public calls alone.
#![tactic(auto)]

#[cfg(test)]
mod deep;
#[cfg(test)]
mod edges;
#[cfg(test)]
mod limits;
#[cfg(test)]
mod names;
#[cfg(test)]
mod sets;
#[cfg(test)]
mod statuses;
