//! The tests of `fcg_keeper` and `fcg_book`, by their public calls alone.
#![tactic(auto)]

#[cfg(test)]
mod books;
#[cfg(test)]
mod commands;
#[cfg(test)]
mod limits;
#[cfg(test)]
mod records;
#[cfg(test)]
mod stores;
