//! The law of what is merged.

ghost use Rattle.bind_carry.specs.MergedUnion.{UnionsAreMerged};

/// What `union_of` answers, once it is added, is the other `Resolve` merged into the own one. Packages of one name are one, own numbers stay,
/// and what has no own name or path is copied behind own entries. The own bound world has gained the items whose keys it hadn't. This is so
/// where what is matched has one name, or one path and one sense, and the two bound worlds don't clash. It also needs that no path is of an
/// interface and of a world, and that no list gets too long.
pub fn merged_unions()
    ensures { UnionsAreMerged }
{}
