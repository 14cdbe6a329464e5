//! Laws of merging.

ghost use Rattle.bind_union.specs.{Images.SameDeclarations, Images.SameTrees, Laws.MergedIsValid};
ghost use Rattle.bind_union.specs.Matching.{
  MatchedStand,
  MatchesAreNamesakes,
  MatchesAreOnto,
  MetImportsStand,
  NumbersRise,
  StepsKeep,
};
ghost use Rattle.bind_union.specs.Meanings.{BoundMeans, InterfacesAreUnited, MergedMeans, WorldsAreUnited};

/// Types that are carried to other numbers stand for the same trees, and kinds declare the same.
pub fn renumbered()
    ensures trees { SameTrees }
    ensures declarations { SameDeclarations }
{}

/// What is merged of two valid values is valid.
pub fn merged_is_valid()
    ensures { MergedIsValid }
{}

/// Types of interfaces of one path and one sense stand for each other, and so do imports of one key and one sense.
pub fn matched()
    ensures namesakes { MatchesAreNamesakes }
    ensures onto { MatchesAreOnto }
    ensures imports { MetImportsStand }
{}

/// Own interfaces and worlds, and those that are copied, mean what they meant, and the bound world is followed by what is new.
pub fn meanings()
    ensures parts { MergedMeans }
    ensures bound { BoundMeans }
    ensures interfaces { InterfacesAreUnited }
    ensures worlds { WorldsAreUnited }
{}

/// Matched interfaces and their types stand in what begins with own lists, and numbers that are given in order rise.
pub fn for_code()
    ensures matched { MatchedStand }
    ensures rise { NumbersRise }
    ensures steps { StepsKeep }
{}
