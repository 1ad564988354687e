//! Why a view isn't written.
ghost use Rattle.std.specs.Prelude.{◌≡◌};

use fcg_views::NoMemory;
use std::alloc::{AllocError, AllocFailed};

/// Why no class file says what a view says.
#[derive(Clone, Copy, Debug, PartialEq, Eq)]
pub enum NotWritable {
    /// A name or descriptor isn't modified UTF-8 (JVMS 4.4.7), or a name is empty: of the type, the superclass, an
    /// interface, a field, a method, or of what a site names. A site of `new` names no member.
    Name,
    /// The descriptor of a field, of a method, or of what a site names is none (JVMS 4.3). A site of `new` has none.
    Descriptor,
    /// The flag 8000, of a module, is set; or a site's kind can't name what it does: Virtual, K5, K8, New and
    /// StaticField no InterfaceMethodref, Interface and K9 nothing else, and New no member.
    Kind,
    /// The sites of a method aren't in the order of their places, two of their instructions overlap, the code with its
    /// `return` has more than 65,535 bytes, or one place has more than 65,536 method handles.
    Places,
    /// The constant pool has more than 65,534 entries, or BootstrapMethods more than 65,535 rows.
    PoolFull,
}

/// Why `write_class` gave up: there was no memory, or the view can't be written.
#[derive(Clone, Copy, Debug, PartialEq, Eq)]
pub enum WriteError {
    NoMemory,
    NotWritable(NotWritable),
}

impl From<AllocError> for WriteError {
    ghost use Rattle.fcg_make.specs.declared.refusal.WriteError.TheVariants as errors;

    ghost from_gives = { λ _ e. e ≡ errors.NoMemory };

    fn from(_: AllocError) -> WriteError {
        WriteError::NoMemory
    }
}

impl<T: Drop> From<AllocFailed<T>> for WriteError {
    ghost use Rattle.fcg_make.specs.declared.refusal.WriteError.TheVariants as errors;

    ghost from_gives = { λ _ e. e ≡ errors.NoMemory };

    fn from(_: AllocFailed<T>) -> WriteError {
        WriteError::NoMemory
    }
}

impl From<NoMemory> for WriteError {
    ghost use Rattle.fcg_make.specs.declared.refusal.WriteError.TheVariants as errors;

    ghost from_gives = { λ _ e. e ≡ errors.NoMemory };

    fn from(_: NoMemory) -> WriteError {
        WriteError::NoMemory
    }
}
