//! The tests of `fcg_json`, by its public calls alone.
#![tactic(auto)]

#[cfg(test)]
mod answers;
#[cfg(test)]
mod refusals;
