//! Lists that contracts see as their items.
ghost use Rattle.std.specs.Prelude.{◌≡◌};

use crate::name::Name;
use crate::view::{Field, Method, Site};
use std::alloc::AllocError;
use std::marker::Model;

/// A list of items, made from a `Vec` without a copy, that contracts see as the list.
#[derive(Drop)]
pub struct Items<T> {
    items: Vec<T>,
}

impl<T> Model for Items<T> {
    ghost use Rattle.std.specs.Prelude.{List};

    ghost Value = { List T };

    ghost view = { λ list. list.items.items };
}

impl<T> Items<T> {
    /// The items, as a slice.
    pub fn as_slice(&self) -> &[T]
        ensures { result.now ≡ self.now }
    {
        self.items.as_slice()
    }

    /// The `Vec` of the items.
    pub fn into_vec(self) -> Vec<T>
        ensures { result.items ≡ self }
    {
        self.items
    }
}

impl<T> From<Vec<T>> for Items<T> {
    ghost from_gives = { λ items list. list ≡ items.items };

    fn from(items: Vec<T>) -> Items<T> {
        Items { items }
    }
}

impl<T: Clone + Drop> Clone for Items<T> {
    ghost use Rattle.std.specs.List.{AllZip};

    ghost is_clone = { λ list copy. AllZip T.is_clone list copy };

    fn clone(&self) -> Result<Items<T>, AllocError> {
        Ok(Items {
            items: self.items.clone()?,
        })
    }
}

impl<T: PartialEq> PartialEq for Items<T> {
    ghost use Rattle.std.specs.Cmp.Lexicographic.{pointwise, lists_per};

    ghost eq = { pointwise T.eq };

    ghost laws = { lists_per T.laws };

    fn eq(&self, other: &Items<T>) -> bool {
        self.as_slice() == other.as_slice()
    }
}

/// Bytes.
pub type Bytes = Items<u8>;

/// Names.
pub type Names = Items<Name>;

/// Fields, in the order of the class file.
pub type Fields = Items<Field>;

/// Methods, in the order of the class file.
pub type Methods = Items<Method>;

/// Call sites, in the order of the code.
pub type Sites = Items<Site>;

/// Paths of files, as texts whose parts stand between slashes.
pub type Paths = Items<String>;
