//! Laws of what is followed.

ghost use Rattle.read_shown.specs.FollowLaws.{
  EachEntryScopeStands,
  EachInstanceIsSeen,
  EachInstanceScopeStands,
  EachMemberByLevelsStands,
  EachMemberStands,
  EachNameHasOneKind,
  EachScopeStands,
  EachUseStandsBefore,
  PackagesHaveKinds,
  WorldsHaveKinds,
};

/// A scope of a component type is well-formed: forms have the parts that they want, handles are of resources and nothing else has a resource as
/// its part, and each name that is met was shown before.
pub fn scopes_stand()
    ensures { EachScopeStands }
{}

/// A scope of an instance type is well-formed, where the names of interfaces that stand around it are shown by earlier instances.
pub fn instance_scopes_stand()
    ensures { EachInstanceScopeStands }
{}

/// Each interface that a well-formed view uses is its own, or that of an instance before it.
pub fn uses_stand_before()
    ensures { EachUseStandsBefore }
{}

/// The instances of a component type are its imports and its exports that are instances, in order.
pub fn instances_are_seen()
    ensures { EachInstanceIsSeen }
{}

/// Each part at the top is well-formed: a world, and the views of an interface and of what it imports, each behind those before it.
pub fn members_stand()
    ensures { EachMemberStands }
{}

/// Scopes and parts that are read by levels are well-formed too.
pub fn levels_stand()
    ensures scopes { EachEntryScopeStands }
    ensures members { EachMemberByLevelsStands }
{}

/// Where the views of each interface agree, and each may be one, a name is a resource wherever it is met, or nowhere: so it is in a package, and
/// in one world.
pub fn names_have_kinds()
    ensures names { EachNameHasOneKind }
    ensures packages { PackagesHaveKinds }
    ensures worlds { WorldsHaveKinds }
{}
