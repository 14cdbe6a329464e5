//! Laws about what is shown of what is read.

ghost use Rattle.text_shown.specs.{Members.ShowsMembers, SamePackages.ShowsPackages, WorldMembers.ShowsWorldMembers};

/// Where an interface of a valid `Resolve` has what members state, these members are what is printed of it: the same functions in their order,
/// and the same uses and types.
pub fn interfaces_are_shown()
    ensures { ShowsMembers }
{}

/// Where a world of a valid `Resolve` has what members state, these members are what is printed of it: the same functions in their order, the same uses
/// and types, and the same imports and exports. What else is printed imports an interface by its path, with nothing in front of it.
pub fn worlds_are_shown()
    ensures { ShowsWorldMembers }
{}

/// Where a valid `Resolve` shows what texts declare, what is printed of each of its packages is what they declare under its name.
pub fn packages_are_shown()
    ensures { ShowsPackages }
{}
