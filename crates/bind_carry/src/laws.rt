//! Laws of what is carried.

ghost use Rattle.bind_carry.specs.CarriedParts.{PartsAreCarried};
ghost use Rattle.bind_carry.specs.FirstPass.{FirstIsCarried, FirstIsCopied, FirstWorldsAreCopied, UnionsAreAddable, UnionsHaveTheFirst};
ghost use Rattle.bind_carry.specs.SecondPass.{NothingElseIsAdded, PassesAreMerged, SecondIsCopied, SecondIsJoined, UnionsHaveTheSecond};

/// With the owners that are carried, all parts of their types are, and all types of their functions.
pub fn parts()
    ensures { PartsAreCarried }
{}

/// What is carried by path is carried as a union asks for it: packages, interfaces, worlds and types, and how their numbers rise. What is copied stands behind own entries.
pub fn first_pass()
    ensures carried { FirstIsCarried }
    ensures copied { FirstIsCopied }
    ensures worlds { FirstWorldsAreCopied }
{}

/// So is what the bound world gains, where the two bound worlds don't clash. It gains the items whose keys it hasn't, with copies of their
/// inline interfaces and their types. For each of the others an own one stands. Behind own ones there are no other types, interfaces and worlds
/// than copies of the two passes. The whole is a merge, where packages stand as in one and no list is too long.
pub fn second_pass()
    ensures copied { SecondIsCopied }
    ensures joined { SecondIsJoined }
    ensures all { NothingElseIsAdded }
    ensures merged { PassesAreMerged }
{}

/// What `union_of` answers can be added where packages are matched by name. Once it is added, it is carried by path so, where what is matched
/// has one name, or one path and one sense. Where besides the two bound worlds don't clash, the bound world has gained so.
pub fn of_unions()
    ensures first { UnionsHaveTheFirst }
    ensures second { UnionsHaveTheSecond }
    ensures addable { UnionsAreAddable }
{}
