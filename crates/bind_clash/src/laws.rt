//! Laws on clashes.

ghost use Rattle.bind_clash.specs.Laws.{ClashesAreOfBindings, EncodingsClashLast, FaultsAreOfBindings, NoneIsOfBindings};

/// What clashes by numbers is what clashes in the bindings of the two worlds, and what is named first is the same.
pub fn clashes_are_of_bindings()
    ensures faults { FaultsAreOfBindings }
    ensures clashes { ClashesAreOfBindings }
    ensures last { EncodingsClashLast }
    ensures none { NoneIsOfBindings }
{}
