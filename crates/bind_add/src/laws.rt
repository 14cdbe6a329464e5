//! Laws of what is added.

ghost use Rattle.bind_add.specs.Growth.{SameThenAdded};

/// What is added to a `Resolve` that got room is added to the one before.
pub fn same_then_added()
    ensures { SameThenAdded }
{}
