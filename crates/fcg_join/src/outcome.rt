//! What references stand for.
use crate::id::MethodId;

/// Why a reference stands for nothing (JVMS 5.4.3.3 and 5.4.3.4).
#[derive(Clone, Copy, Debug, PartialEq, Eq)]
pub enum Cause {
    /// A Methodref names an interface, or an InterfaceMethodref names a class.
    KindMismatch,
    /// No method is found, and no type that could have it is absent.
    NoSuchMethod,
}

/// What a reference stands for.
#[derive(Clone, Copy, Debug, PartialEq, Eq)]
pub enum Outcome {
    /// A method of a known type.
    Method(MethodId),
    /// A method that isn't known, since a type that could have it is absent.
    Phantom,
    /// Nothing.
    Failed(Cause),
}
