//! The tests of the commands, and those that need the writer of class files, by public calls alone.
#![tactic(auto)]

#[cfg(test)]
mod bundles;
#[cfg(test)]
mod class_files;
#[cfg(test)]
mod kinds;
#[cfg(test)]
mod packs;
#[cfg(test)]
mod runs;
#[cfg(test)]
mod written;
