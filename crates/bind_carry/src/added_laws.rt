//! Laws of what a union adds.

ghost use Rattle.bind_carry.specs.{AddedApart.UnionsAreApart, AddedNames.NamesAreMerged, AddedDistinct.UnionsHaveDistinctKeys, AddedKeys.ExportsAreAdded, AddedKeys.ExportsComeBehind, AddedKeys.KeysKeepTexts};

/// What a union adds stands under keys that weren't there: names in own packages, and imports and exports of the own bound world, where what is matched has
/// one name, or one path and one sense.
pub fn added_apart()
    ensures { UnionsAreApart }
{}

/// Once it is added, no map has a key twice.
pub fn added_distinct()
    ensures { UnionsHaveDistinctKeys }
{}

/// Where no export has the key of another, the other's exports are all added, under the keys that `union_of` answers, in their order. Once all
/// is added, they stand behind what was exported. These keys have the labels and paths that those of the other's exports have in the other.
pub fn added_keys()
    ensures exports { ExportsAreAdded }
    ensures behind { ExportsComeBehind }
    ensures texts { KeysKeepTexts }
{}

/// Packages keep their names, each followed by what is new in it, and new packages come behind, all in the other's order.
pub fn added_names()
    ensures { NamesAreMerged }
{}
