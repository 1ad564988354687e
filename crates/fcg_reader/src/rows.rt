//! What a class file says, with the texts by their indexes in the constant pool. The names of a view are made of them
//! once the whole file was read.

use fcg_views::{Items, SiteKind};

/// What a site names, as [`Ref`](fcg_views::Ref). The index 0 stands for the empty text.
#[derive(Clone, Copy)]
pub struct RefRow {
    pub owner: u16,
    pub owner_is_interface_ref: bool,
    pub name: u16,
    pub desc: u16,
}

/// An instruction that names a method, a field or a type, as [`Site`](fcg_views::Site).
#[derive(Clone, Copy)]
pub struct SiteRow {
    pub pc: u16,
    pub kind: SiteKind,
    pub target: RefRow,
}

/// The sites of a method, in the order of the code.
pub type SiteRows = Items<SiteRow>;

/// A field that the class declares, as [`Field`](fcg_views::Field).
#[derive(Clone, Copy)]
pub struct FieldRow {
    pub name: u16,
    pub desc: u16,
    pub flags: u16,
}

/// A method that the class declares, as [`Method`](fcg_views::Method).
#[derive(Drop)]
pub struct MethodRow {
    pub name: u16,
    pub desc: u16,
    pub flags: u16,
    pub sites: SiteRows,
}

/// What the class file says of its type, as [`View`](fcg_views::View).
#[derive(Drop)]
pub struct ViewRows {
    pub name: u16,
    pub flags: u16,
    pub superclass: Option<u16>,
    pub interfaces: Vec<u16>,
    pub fields: Vec<FieldRow>,
    pub methods: Vec<MethodRow>,
}
