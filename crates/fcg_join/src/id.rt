//! Numbers of types and of methods.

/// A known type, by its place among the known types of the parts, from 0.
#[derive(Clone, Copy, Debug, PartialEq, Eq, PartialOrd, Ord, Hash)]
pub struct TypeId(pub u32);

/// A method of a known type, by its place among these methods, from 0.
#[derive(Clone, Copy, Debug, PartialEq, Eq, PartialOrd, Ord, Hash)]
pub struct MethodId(pub u32);

/// A name that some part has, by its place among the names of all parts, from 0. Numbers rise with the bytes.
#[derive(Clone, Copy, Debug, PartialEq, Eq, PartialOrd, Ord, Hash)]
pub struct NameId(pub u32);

/// A name and a descriptor that some method of a known type has, by their place among the signatures of all methods, from
/// 0.
#[derive(Clone, Copy, Debug, PartialEq, Eq, PartialOrd, Ord, Hash)]
pub struct SignatureId(pub u32);

/// A reference by the numbers of its names.
#[derive(Clone, Copy, Debug, PartialEq, Eq, PartialOrd, Ord, Hash)]
pub struct NumberedRef {
    /// The name of the class or interface that it names.
    pub owner: NameId,
    /// Whether it is an InterfaceMethodref.
    pub owner_is_interface_ref: bool,
    /// The name of the method.
    pub name: NameId,
    /// The descriptor of the method.
    pub desc: NameId,
}

/// Where a known type comes from, and its methods.
#[derive(Clone, Copy, Debug, PartialEq, Eq)]
pub struct TypeOrigin {
    /// The part, by its place among the parts.
    pub part: u32,
    /// The type, by its place in the part's graph.
    pub place: u32,
    /// The number of its first method.
    pub first: u32,
    /// How many methods it has.
    pub methods: u32,
}
