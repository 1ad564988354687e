//! The tests of the values (`fcg_views`: names, views, descriptors, coordinates, URIs, counted steps) and of the objects
//! that bytes come from and go to (`fcg_bytes`), by public calls alone.
#![tactic(auto)]

#[cfg(test)]
mod coordinates;
#[cfg(test)]
mod descriptors;
#[cfg(test)]
mod files;
#[cfg(test)]
mod names;
#[cfg(test)]
mod objects;
#[cfg(test)]
mod uris;
#[cfg(test)]
mod values;
