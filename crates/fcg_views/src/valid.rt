//! Which views are valid.
ghost use Rattle.std.specs.Prelude.{◌≡◌, ◌↔◌, ◌≤◌, ◌<◌, ◌^◌, IsTrue, All, false, sum_by};
ghost use Rattle.std.specs.List.{IsDistinct};
ghost use Rattle.fcg_views.specs.Valid.{IsShort, IsShortOrNone, IsTable, HasShortNames, IsValidField, IsValidMethod, IsValid, site_count, left_of, method_names, own_names, view_names, name_count, is_alike};

use crate::name::Name;
use crate::view::{Field, Method, Site, View};
use crate::views::Views;

// The most that two bytes count.
const MOST: usize = 65_535;

// The most sites of a view.
const MOST_SITES: usize = 1_000_000;

fn is_short(name: &Name) -> bool
    ensures { IsTrue result ↔ IsShort name.now }
{
    name.as_slice().len() <= MOST
}

fn has_short_superclass(view: &View) -> bool
    ensures { IsTrue result ↔ IsShortOrNone view.now.superclass }
{
    match &view.superclass {
        Some(name) => is_short(name),
        None => true,
    }
}

fn has_short_names(site: &Site) -> bool
    ensures { IsTrue result ↔ HasShortNames site.now }
{
    is_short(&site.target.owner) && is_short(&site.target.name) && is_short(&site.target.desc)
}

fn is_valid_field(field: &Field) -> bool
    ensures { IsTrue result ↔ IsValidField field.now }
{
    is_short(&field.name) && is_short(&field.desc)
}

fn is_valid_method(method: &Method) -> bool
    ensures { IsTrue result ↔ IsValidMethod method.now }
{
    is_short(&method.name)
        && is_short(&method.desc)
        && method.sites.as_slice().iter().all(has_short_names)
}

fn has_valid_interfaces(view: &View) -> bool
    ensures { IsTrue result ↔ IsTable IsShort view.now.interfaces }
{
    let interfaces = view.interfaces.as_slice();
    interfaces.len() <= MOST && interfaces.iter().all(is_short)
}

fn has_valid_fields(view: &View) -> bool
    ensures { IsTrue result ↔ IsTable IsValidField view.now.fields }
{
    let fields = view.fields.as_slice();
    fields.len() <= MOST && fields.iter().all(is_valid_field)
}

fn has_valid_methods(view: &View) -> bool
    ensures { IsTrue result ↔ IsTable IsValidMethod view.now.methods }
{
    let methods = view.methods.as_slice();
    methods.len() <= MOST && methods.iter().all(is_valid_method)
}

// Whether two methods have one name and one descriptor.
fn is_alike(one: &Method, other: &Method) -> bool
    ensures { result ≡ is_alike one.now other.now }
{
    one.name == other.name && one.desc == other.desc
}

// Whether a method is alike to none of the others.
fn is_alone(method: &Method, others: &[Method]) -> bool
    ensures { IsTrue result ↔ All (λ other. is_alike method.now other ≡ false) others.now }
{
    others.iter().all(|other| !is_alike(method, other))
}

// Whether no method is alike to one after it.
fn are_distinct(methods: &[Method]) -> bool
    ensures { IsTrue result ↔ IsDistinct is_alike methods.now }
{
    let mut rest = methods;
    while let Some((method, others)) = rest.split_first() {
        if !is_alone(method, others) {
            return false;
        }
        rest = others;
    }
    true
}

/// How many sites are left of so many when the sites of some methods are taken from them, or `None` where these have
/// more. Takes no memory, and one pass over the methods.
pub fn sites_left(room: usize, methods: &[Method]) -> Option<usize>
    ensures { result ≡ left_of room (site_count methods.now) }
{
    let mut left = room;
    for method in methods {
        match left.checked_sub(method.sites.as_slice().len()) {
            Some(less) => left = less,
            None => return None,
        }
    }
    Some(left)
}

// What is left of so many names when those of a method and of its sites are taken from them.
fn names_left_by_method(room: u128, method: &Method) -> Option<u128>
    ensures { result ≡ left_of room (method_names method.now) }
{
    room.checked_sub(2 + 3 * method.sites.as_slice().len() as u128)
}

fn names_left_by_methods(room: u128, methods: &[Method]) -> Option<u128>
    ensures { result ≡ left_of room (sum_by method_names methods.now) }
{
    let mut left = room;
    for method in methods {
        match names_left_by_method(left, method) {
            Some(less) => left = less,
            None => return None,
        }
    }
    Some(left)
}

// How many names a view has beside those of its methods.
fn own_names(view: &View) -> u128
    ensures { result ≡ own_names view.now }
{
    let superclass = if view.superclass.is_some() { 1 } else { 0 };
    let interfaces = view.interfaces.as_slice().len() as u128;
    let fields = view.fields.as_slice().len() as u128;
    1 + superclass + interfaces + 2 * fields
}

fn names_left_by_view(room: u128, view: &View) -> Option<u128>
    ensures { result ≡ left_of room (view_names view.now) }
{
    match room.checked_sub(own_names(view)) {
        Some(left) => names_left_by_methods(left, view.methods.as_slice()),
        None => None,
    }
}

fn names_left(room: u128, views: &[View]) -> Option<u128>
    ensures { result ≡ left_of room (name_count views.now) }
{
    let mut left = room;
    for view in views {
        match names_left_by_view(left, view) {
            Some(less) => left = less,
            None => return None,
        }
    }
    Some(left)
}

impl Views {
    /// Whether the views have fewer than 2^32 names: those of types, superclasses and interfaces, and of fields, methods
    /// and sites with their descriptors, each as often as it stands. Takes no memory, and one pass over the methods.
    pub fn fits(&self) -> bool
        ensures { IsTrue result ↔ (name_count self.now < 2 ^ 32) }
    {
        names_left(u128::from(u32::MAX), self.as_slice()).is_some()
    }
}

fn has_few_sites(methods: &[Method]) -> bool
    ensures { IsTrue result ↔ (site_count methods.now ≤ 1000000) }
{
    sites_left(MOST_SITES, methods).is_some()
}

/// Whether a view is one that a class file could have (JVMS 4.1): its lists of interfaces, fields and methods have at
/// most 65,535 items each, and each name and descriptor at most 65,535 bytes; no two methods have one name and one
/// descriptor (JVMS 4.6); and its methods have at most 1,000,000 sites in all.
///
/// Takes no memory, and so compares the methods pair by pair: the time grows with the square of their number, beside
/// one pass over the view.
pub fn is_valid(view: &View) -> bool
    ensures { IsTrue result ↔ IsValid view.now }
{
    is_short(&view.name)
        && has_short_superclass(view)
        && has_valid_interfaces(view)
        && has_valid_fields(view)
        && has_valid_methods(view)
        && has_few_sites(view.methods.as_slice())
        && are_distinct(view.methods.as_slice())
}
