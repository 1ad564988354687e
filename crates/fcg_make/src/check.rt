//! Whether a view can be written.
ghost use Rattle.std.specs.Prelude.{◌≡◌};
ghost use Rattle.std.specs.List.{list_all};
ghost use Rattle.fcg_make.specs.Unwritable.{is_groups, is_name, is_name_or_none, is_member_name, is_named_site, is_named_field, is_named_method, is_named};
ghost use Rattle.fcg_make.specs.Unwritable.{is_typed_by, is_typed_site, is_typed_field, is_typed_method, is_typed};
ghost use Rattle.fcg_make.specs.Unwritable.{allows_handle, allows, has_member, is_kind_site, is_kind_method, is_kind};
ghost use Rattle.fcg_make.specs.Unwritable.{is_placed_method, is_placed};

use crate::step::{size_of, split_step};
use fcg_pool::find_bad_group;
use fcg_views::{
    Field, HandleKind, Method, Name, Site, SiteKind, View, read_descriptor, read_field_descriptor,
};

// The most bytes of a code, and the most method handles at one place after the first.
const MOST: usize = 65_535;

// Whether a text is modified UTF-8.
fn is_groups(text: &Name) -> bool
    ensures { result ≡ is_groups text.now }
{
    find_bad_group(text.as_slice(), 0).is_none()
}

// Whether a text is, and has a byte or more.
fn is_name(name: &Name) -> bool
    ensures { result ≡ is_name name.now }
{
    !name.as_slice().is_empty() && is_groups(name)
}

fn are_names(names: &[Name]) -> bool
    ensures { result ≡ list_all is_name names.now }
{
    names.iter().all(is_name)
}

fn has_named_superclass(view: &View) -> bool
    ensures { result ≡ is_name_or_none view.now.superclass }
{
    match &view.superclass {
        Some(name) => is_name(name),
        None => true,
    }
}

fn is_member_name(kind: SiteKind, name: &Name) -> bool
    ensures { result ≡ is_member_name kind name.now }
{
    match kind {
        SiteKind::New => is_groups(name),
        _ => is_name(name),
    }
}

fn is_named_site(site: &Site) -> bool
    ensures { result ≡ is_named_site site.now }
{
    is_name(&site.target.owner)
        && is_member_name(site.kind, &site.target.name)
        && is_groups(&site.target.desc)
}

fn are_named_sites(sites: &[Site]) -> bool
    ensures { result ≡ list_all is_named_site sites.now }
{
    sites.iter().all(is_named_site)
}

fn is_named_field(field: &Field) -> bool
    ensures { result ≡ is_named_field field.now }
{
    is_name(&field.name) && is_groups(&field.desc)
}

fn are_named_fields(fields: &[Field]) -> bool
    ensures { result ≡ list_all is_named_field fields.now }
{
    fields.iter().all(is_named_field)
}

fn is_named_method(method: &Method) -> bool
    ensures { result ≡ is_named_method method.now }
{
    is_name(&method.name) && is_groups(&method.desc) && are_named_sites(method.sites.as_slice())
}

fn are_named_methods(methods: &[Method]) -> bool
    ensures { result ≡ list_all is_named_method methods.now }
{
    methods.iter().all(is_named_method)
}

/// Whether all names of a view are modified UTF-8, with a byte or more where one is asked for.
#[tactic(auto, unfolding(crate::specs::Unwritable::is_named))]
pub fn is_named(view: &View) -> bool
    ensures { result ≡ is_named view.now }
{
    is_name(&view.name)
        && has_named_superclass(view)
        && are_names(view.interfaces.as_slice())
        && are_named_fields(view.fields.as_slice())
        && are_named_methods(view.methods.as_slice())
}

fn is_typed_site(site: &Site) -> bool
    ensures { result ≡ is_typed_site site.now }
{
    let desc = site.target.desc.as_slice();
    match site.kind {
        SiteKind::New => true,
        SiteKind::StaticField => read_field_descriptor(desc).is_ok(),
        _ => read_descriptor(desc).is_ok(),
    }
}

fn are_typed_sites(sites: &[Site]) -> bool
    ensures { result ≡ list_all is_typed_site sites.now }
{
    sites.iter().all(is_typed_site)
}

fn is_typed_field(field: &Field) -> bool
    ensures { result ≡ is_typed_field field.now }
{
    read_field_descriptor(field.desc.as_slice()).is_ok()
}

fn are_typed_fields(fields: &[Field]) -> bool
    ensures { result ≡ list_all is_typed_field fields.now }
{
    fields.iter().all(is_typed_field)
}

fn is_typed_method(method: &Method) -> bool
    ensures { result ≡ is_typed_method method.now }
{
    read_descriptor(method.desc.as_slice()).is_ok() && are_typed_sites(method.sites.as_slice())
}

fn are_typed_methods(methods: &[Method]) -> bool
    ensures { result ≡ list_all is_typed_method methods.now }
{
    methods.iter().all(is_typed_method)
}

/// Whether all descriptors of a view are some.
#[tactic(auto, unfolding(crate::specs::Unwritable::is_typed))]
pub fn is_typed(view: &View) -> bool
    ensures { result ≡ is_typed view.now }
{
    are_typed_fields(view.fields.as_slice()) && are_typed_methods(view.methods.as_slice())
}

// Whether a method handle of a kind may name a constant, by whether that is an InterfaceMethodref.
fn allows_handle(kind: HandleKind, interface: bool) -> bool
    ensures { result ≡ allows_handle kind interface }
{
    match kind {
        HandleKind::K5 | HandleKind::K8 => !interface,
        HandleKind::K6 | HandleKind::K7 => true,
        HandleKind::K9 => interface,
    }
}

// Whether an instruction of a kind may.
fn allows(kind: SiteKind, interface: bool) -> bool
    ensures { result ≡ allows kind interface }
{
    match kind {
        SiteKind::Virtual | SiteKind::New | SiteKind::StaticField => !interface,
        SiteKind::Special | SiteKind::Static => true,
        SiteKind::Interface => interface,
        SiteKind::Handle(handle) => allows_handle(handle, interface),
    }
}

// Whether a site names a member where its kind does.
fn has_member(kind: SiteKind, name: &Name, desc: &Name) -> bool
    ensures { result ≡ has_member kind name.now desc.now }
{
    match kind {
        SiteKind::New => name.as_slice().is_empty() && desc.as_slice().is_empty(),
        _ => true,
    }
}

fn is_kind_site(site: &Site) -> bool
    ensures { result ≡ is_kind_site site.now }
{
    allows(site.kind, site.target.owner_is_interface_ref)
        && has_member(site.kind, &site.target.name, &site.target.desc)
}

fn is_kind_method(method: &Method) -> bool
    ensures { result ≡ is_kind_method method.now }
{
    method.sites.as_slice().iter().all(is_kind_site)
}

fn are_kind_methods(methods: &[Method]) -> bool
    ensures { result ≡ list_all is_kind_method methods.now }
{
    methods.iter().all(is_kind_method)
}

/// Whether a view is of a type, and each of its sites names what its kind allows.
#[tactic(auto, unfolding(crate::specs::Unwritable::is_kind))]
pub fn is_kind(view: &View) -> bool
    ensures { result ≡ is_kind view.now }
{
    view.flags < 0x8000 && are_kind_methods(view.methods.as_slice())
}

// Whether the instructions of a method stand one after the other in a code that isn't too long.
fn is_placed_method(method: &Method) -> bool
    ensures { result ≡ is_placed_method method.now }
{
    let mut at = 0;
    let mut rest = method.sites.as_slice();
    while let Some((step, others)) = split_step(rest) {
        let pc = usize::from(step.first().pc);
        if pc < at || step.more().len() > MOST {
            return false;
        }
        at = pc + size_of(step.first().kind);
        rest = others;
    }
    at < MOST
}

/// Whether the instructions of each method do.
#[tactic(auto, unfolding(crate::specs::Unwritable::is_placed))]
pub fn is_placed(view: &View) -> bool
    ensures { result ≡ is_placed view.now }
{
    view.methods.as_slice().iter().all(is_placed_method)
}
