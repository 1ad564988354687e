//! Views of class files: what the analysis reads of a type.

use crate::items::{Fields, Methods, Names, Sites};
use crate::name::Name;

/// What a class file says of its type (JVMS 4.1). The names are the bytes of the constant pool.
#[derive(Drop, PartialEq)]
pub struct View {
    /// The binary name of the type in its internal form, as `java/lang/Object`.
    pub name: Name,
    /// The access flags of the type (JVMS 4.1, table 4.1-B).
    pub flags: u16,
    /// The direct superclass, where the class file names one.
    pub superclass: Option<Name>,
    /// The direct superinterfaces.
    pub interfaces: Names,
    pub fields: Fields,
    pub methods: Methods,
}

/// A field that a type declares (JVMS 4.5).
#[derive(Drop, PartialEq)]
pub struct Field {
    pub name: Name,
    /// The field descriptor (JVMS 4.3.2).
    pub desc: Name,
    /// The access flags of the field.
    pub flags: u16,
}

/// A method that a type declares (JVMS 4.6), with the call sites of its code.
#[derive(Drop, PartialEq)]
pub struct Method {
    pub name: Name,
    /// The method descriptor (JVMS 4.3.3).
    pub desc: Name,
    /// The access flags of the method.
    pub flags: u16,
    pub sites: Sites,
}

/// An instruction of a method's code that names a method, a field or a type.
#[derive(Drop, PartialEq)]
pub struct Site {
    /// The place of the instruction's opcode in the code, in bytes.
    pub pc: u16,
    pub kind: SiteKind,
    pub target: Ref,
}

/// What a site names: an owner, and a member of it by name and descriptor. A site that names a type alone has an
/// empty name and an empty descriptor.
#[derive(Drop, PartialEq)]
pub struct Ref {
    pub owner: Name,
    /// Whether the constant is an InterfaceMethodref (JVMS 4.4.2).
    pub owner_is_interface_ref: bool,
    pub name: Name,
    pub desc: Name,
}

/// The kind of a site, by its instruction (JVMS 6.5).
#[derive(Clone, Copy, Debug, PartialEq, Eq)]
pub enum SiteKind {
    /// `invokevirtual`
    Virtual,
    /// `invokeinterface`
    Interface,
    /// `invokespecial`
    Special,
    /// `invokestatic`
    Static,
    /// `new`
    New,
    /// `getstatic` or `putstatic`
    StaticField,
    /// A method handle of an `invokedynamic`.
    Handle(HandleKind),
}

/// The kinds of method handles that call a method (JVMS 4.4.8, table 5.4.3.5-A).
#[derive(Clone, Copy, Debug, PartialEq, Eq)]
pub enum HandleKind {
    /// REF_invokeVirtual
    K5,
    /// REF_invokeStatic
    K6,
    /// REF_invokeSpecial
    K7,
    /// REF_newInvokeSpecial
    K8,
    /// REF_invokeInterface
    K9,
}
