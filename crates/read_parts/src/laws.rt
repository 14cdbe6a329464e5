//! Laws over definitions alone.

ghost use Rattle.read_parts.specs.{Counts.PartsFit, Followed.PackageByScopes, Followed.WorldByScopes};

/// What the sections of a component mean, as a package and as one world, is what the rules of reading make of what is followed.
pub fn meaning_by_scopes()
    ensures package_ { PackageByScopes }
    ensures world { WorldByScopes }
{}

/// The parts that are exported make no more types than the input has bytes.
pub fn parts_fit()
    ensures { PartsFit }
{}
