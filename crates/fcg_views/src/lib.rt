//! The values that every layer speaks of: names, views of class files, and lists of them; coordinates of releases, sets
//! of these, and URIs of methods; and a count of steps. In specs/ stand the public definitions: what field and method descriptors are and where
//! other bytes break, what coordinates and method URIs are and which first fault other texts have, which views are valid,
//! and how names are escaped. The crate stands on the words of formats alone.
#![tactic(auto)]

mod coordinate;
mod descriptor;
mod escaping;
mod items;
mod laws;
mod memory;
mod name;
mod name_list;
mod parting;
mod set;
mod steps;
mod unescaping;
mod uri;
mod valid;
mod view;
mod views;

pub use coordinate::{Coordinate, CoordinateFault};
pub use descriptor::{DescFault, DescSpan, read_descriptor, read_field_descriptor};
pub use escaping::{Place, escape, push_escaped};
pub use items::{Bytes, Fields, Items, Methods, Names, Paths, Sites};
pub use laws::{one_coordinate_verdict, one_uri_verdict};
pub use memory::NoMemory;
pub use name::Name;
pub use name_list::NameList;
pub use set::Set;
pub use steps::Steps;
pub use uri::{MethodUri, UriFault, UriRule};
pub use valid::{is_valid, sites_left};
pub use view::{Field, HandleKind, Method, Ref, Site, SiteKind, View};
pub use views::{NumberedView, Views};
