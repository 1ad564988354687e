//! The tests of `fcg_answer` and `fcg_commands`, by their public calls alone.
#![tactic(auto)]

#[cfg(test)]
mod commands;
#[cfg(test)]
mod words;
