//! Values that are made from the releases of a set.

/// A value that is made from the parts of a set, and so answers for the set however often it is asked.
pub trait Derived: Drop {
    ghost use Rattle.std.specs.Prelude.{List};
    ghost use Rattle.fcg_partial.specs.Parts.{PartShown};

    /// The value is made from these parts.
    ghost made_from: { Self → List PartShown → Type 0 };
}
