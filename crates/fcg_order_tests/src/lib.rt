//! The tests of `fcg_order`, by its public calls alone.
#![tactic(auto)]

#[cfg(test)]
mod orders;
