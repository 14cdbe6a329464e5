//! Laws of the meaning of bytes.

ghost use Rattle.comp_meaning.specs.{Agreement.FirstAgrees, Meanings.MeaningIsRead, Meanings.OneMeaning, Meanings.OneWorld, Meanings.WorldIsRead};
ghost use Rattle.comp_meaning.specs.ByLevels.{PackageByLevels, ScopesByLevels, WorldByLevels};
ghost use Rattle.comp_meaning.specs.Same.{same_declaration, same_function, same_identity, same_signature, same_tree, same_type};
ghost use Rattle.comp_meaning.specs.SameLaws.{DecidesEquality, SameFunctionsAreOneMap, SameFunctionsStandInEachOther, SameTypesAreEqual};

/// A byte string means one package and one world at most, which is what reading it gives.
pub fn one_meaning()
    ensures one_package { OneMeaning }
    ensures one_world { OneWorld }
    ensures read { MeaningIsRead }
    ensures read_world { WorldIsRead }
{}

/// Read level by level, bytes mean what their raw form means, and nothing where it means nothing.
pub fn by_levels()
    ensures one_package { PackageByLevels }
    ensures one_world { WorldByLevels }
    ensures scopes { ScopesByLevels }
{}

/// The tests that say whether two trees, declarations, types, signatures, functions or names of packages are the same decide equality.
pub fn same_is_equal()
    ensures trees { DecidesEquality same_tree }
    ensures declarations { DecidesEquality same_declaration }
    ensures types { DecidesEquality same_type }
    ensures signatures { DecidesEquality same_signature }
    ensures functions { DecidesEquality same_function }
    ensures identities { DecidesEquality same_identity }
    ensures shown { SameTypesAreEqual }
{}

/// Where no name stands twice, the functions of two views are the same exactly where each stands in the other list, and that is
/// where they make one map.
pub fn functions_agree()
    ensures both_ways { SameFunctionsStandInEachOther }
    ensures as_maps { SameFunctionsAreOneMap }
{}

/// Views of interfaces agree, each with each, exactly where each agrees with the first of its path.
pub fn first_agrees()
    ensures { FirstAgrees }
{}
