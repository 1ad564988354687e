//! The tests of `fcg_partial`, by its public calls alone.
#![tactic(auto)]

#[cfg(test)]
mod graphs;
