//! Laws over definitions alone.

ghost use Rattle.read_members.specs.{Decided.MembersAreKnown, Decided.PackagesAreDecided, DecidedWorlds.WorldsAreDecided};
ghost use Rattle.read_members.specs.ReadMembers.{LentMembersAreMembers, NoMembersAreMeant, ReadMembersAreMeant};

/// Members that are read are what the pieces of the input mean, and where one of them is none, those mean no members.
pub fn members_are_meant()
    ensures read { ReadMembersAreMeant }
    ensures none { NoMembersAreMeant }
{}

/// Members that are lent of those that are read are the members of what was followed.
pub fn lent_members_are_members()
    ensures { LentMembersAreMembers }
{}

/// What is known of each part is true wherever members that are read are over it.
pub fn members_are_known()
    ensures { MembersAreKnown }
{}

/// Members that are read decide what the pieces of the input mean as a package.
pub fn packages_are_decided()
    ensures { PackagesAreDecided }
{}

/// Members that are read decide what the pieces of the input mean as one world.
pub fn worlds_are_decided()
    ensures { WorldsAreDecided }
{}
