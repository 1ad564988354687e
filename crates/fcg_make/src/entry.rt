//! What a constant pool holds, by the names that it says.
ghost use Rattle.std.specs.Prelude.{◌≡◌, IfOk};
ghost use Rattle.fcg_make.specs.declared.entry.Entry.TheVariants as entries;
ghost use Rattle.fcg_make.specs.Needs.{method_tag, handle_number, handle_kind, reference, handle};
ghost use Rattle.fcg_make.specs.Layout.{operand_of};

use fcg_views::{HandleKind, Name, Ref, Site, SiteKind};
use std::alloc::AllocError;

/// A constant of a pool (JVMS 4.4), by all that it names, without indexes: two constants say the same where their
/// entries are equal.
#[derive(Clone, Drop, PartialEq, Eq, PartialOrd, Ord)]
pub enum Entry {
    /// CONSTANT_Utf8_info: a text.
    Text(Name),
    /// CONSTANT_Class_info: the name of a type.
    Class(Name),
    /// CONSTANT_NameAndType_info: a name and a descriptor.
    Member(Name, Name),
    /// CONSTANT_Fieldref_info, CONSTANT_Methodref_info or CONSTANT_InterfaceMethodref_info: the tag, the name of a type,
    /// a name and a descriptor.
    Reference(u8, Name, Name, Name),
    /// CONSTANT_MethodHandle_info: the kind, and the reference.
    Handle(u8, u8, Name, Name, Name),
    /// CONSTANT_InvokeDynamic_info: the number of the bootstrap method.
    Dynamic(u16),
}

impl Entry {
    /// The Utf8 of a text.
    pub fn text(text: &Name) -> Result<Entry, AllocError>
        ensures { IfOk result (λ entry. entry ≡ entries.Text text.now) }
    {
        Ok(Entry::Text(text.clone()?))
    }

    /// The Class of a name.
    pub fn class(name: &Name) -> Result<Entry, AllocError>
        ensures { IfOk result (λ entry. entry ≡ entries.Class name.now) }
    {
        Ok(Entry::Class(name.clone()?))
    }

    /// The NameAndType of a name and a descriptor.
    pub fn member(name: &Name, desc: &Name) -> Result<Entry, AllocError>
        ensures { IfOk result (λ entry. entry ≡ entries.Member name.now desc.now) }
    {
        let name = name.clone()?;
        let desc = desc.clone()?;
        Ok(Entry::Member(name, desc))
    }

    /// The reference of a tag to what a site names.
    pub fn reference(tag: u8, target: &Ref) -> Result<Entry, AllocError>
        ensures { IfOk result (λ entry. entry ≡ reference tag target.now) }
    {
        Entry::named(tag, &target.owner, &target.name, &target.desc)
    }

    /// The reference of a tag.
    pub fn named(tag: u8, owner: &Name, name: &Name, desc: &Name) -> Result<Entry, AllocError>
        ensures { IfOk result (λ entry. entry ≡ entries.Reference tag owner.now name.now desc.now) }
    {
        let owner = owner.clone()?;
        let name = name.clone()?;
        let desc = desc.clone()?;
        Ok(Entry::Reference(tag, owner, name, desc))
    }

    /// The MethodHandle of a handle site.
    pub fn handle(site: &Site) -> Result<Entry, AllocError>
        ensures { IfOk result (λ entry. entry ≡ handle site.now) }
    {
        let kind = handle_kind(site.kind);
        let tag = method_tag(&site.target);
        let owner = site.target.owner.clone()?;
        let name = site.target.name.clone()?;
        let desc = site.target.desc.clone()?;
        Ok(Entry::Handle(kind, tag, owner, name, desc))
    }

    /// What the index of an instruction names, where the next row of bootstrap methods has this number.
    pub fn operand(row: u16, site: &Site) -> Result<Entry, AllocError>
        ensures { IfOk result (λ entry. entry ≡ operand_of row site.now.kind site.now.target) }
    {
        match site.kind {
            SiteKind::New => Entry::class(&site.target.owner),
            SiteKind::StaticField => Entry::reference(9, &site.target),
            SiteKind::Handle(_) => Ok(Entry::Dynamic(row)),
            _ => Entry::reference(method_tag(&site.target), &site.target),
        }
    }
}

/// The tag of a Methodref or an InterfaceMethodref (JVMS 4.4.2).
pub fn method_tag(target: &Ref) -> u8
    ensures { result ≡ method_tag target.now }
{
    if target.owner_is_interface_ref {
        11
    } else {
        10
    }
}

// The kind of a method handle (JVMS 4.4.8).
fn handle_number(kind: HandleKind) -> u8
    ensures { result ≡ handle_number kind }
{
    match kind {
        HandleKind::K5 => 5,
        HandleKind::K6 => 6,
        HandleKind::K7 => 7,
        HandleKind::K8 => 8,
        HandleKind::K9 => 9,
    }
}

// The kind of the method handle of a site, or 0 where it has none.
fn handle_kind(kind: SiteKind) -> u8
    ensures { result ≡ handle_kind kind }
{
    match kind {
        SiteKind::Handle(kind) => handle_number(kind),
        _ => 0,
    }
}
