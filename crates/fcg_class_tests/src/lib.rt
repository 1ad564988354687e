//! The tests of what is read: constant pools, instructions, class files and bundles, by public calls alone.
#![tactic(auto)]

#[cfg(test)]
mod bundle;
#[cfg(test)]
mod class;
#[cfg(test)]
mod code;
#[cfg(test)]
mod handles;
#[cfg(test)]
mod instruction;
#[cfg(test)]
mod many;
#[cfg(test)]
mod order;
#[cfg(test)]
mod pool;
#[cfg(test)]
mod samples;
