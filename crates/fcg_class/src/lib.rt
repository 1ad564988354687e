//! Bundles of class files, and the packing of a folder as one. The readers answer exactly what the definitions of specs/
//! give: the views of a bundle's class files, or its fault. The crate stands on the reader of one class file and all that
//! is below it, and on the bytes that come in and go out.
#![tactic(auto)]

mod bundle;
mod laws;
mod packing;
mod path;

pub use bundle::{BundleFault, BundleRule, read_bundle};
pub use fcg_reader::read_class;
pub use laws::{bundles_have_few_names, one_bundle_verdict, packed_bundles_read};
pub use packing::{BUNDLE_LIMIT, PackRefusal, pack};
