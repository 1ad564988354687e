//! The tests of `fcg_join`, `fcg_resolve` and `fcg_select`, by their public calls alone.
#![tactic(auto)]

#[cfg(test)]
mod below;
#[cfg(test)]
mod chains;
#[cfg(test)]
mod joined;
#[cfg(test)]
mod numbers;
#[cfg(test)]
mod outcomes;
#[cfg(test)]
mod selections;
#[cfg(test)]
mod sets;
#[cfg(test)]
mod signatures;
#[cfg(test)]
mod specials;
#[cfg(test)]
mod supers;
