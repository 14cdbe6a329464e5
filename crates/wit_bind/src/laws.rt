//! Laws about the definitions.

ghost use Rattle.wit_bind.specs.{Apart.GrownExtend, Bindings.BindgensAreBindings, Bindings.RootsAreRoots, KeyLaws.EachHasAKey, OldKeys.OneOldKey, Extends.KeptBindingsAreTheSame, MergedLaws.MatchesHavePaths, MergedLaws.UnitedAgreeByNumbers, MergedLaws.UnitedAreTheUnion};

pub use bind_meaning::laws::both_orders;
use bind_union::laws::{meanings, merged_is_valid};

/// In a valid `Resolve` each function that a world imports or exports has a key, under its own name.
pub fn each_has_a_key()
    ensures { EachHasAKey }
{}

/// In a valid `Resolve` functions of a world's imports, or of its exports, that share a key share their key without version.
pub fn one_old_key()
    ensures { OneOldKey }
{}

/// Bindings whose `Resolve` is valid, and whose world is one of it, stand for a binding: no path is that of two things, and no key of the world stands
/// twice.
pub fn bindgens_are_bindings()
    ensures { BindgensAreBindings }
{}

/// The bindings of a module that carries no world are, by meaning, the empty root world.
pub fn roots_are_roots()
    ensures { RootsAreRoots }
{}

/// Bindings whose every entry, number and encoding is as it was stand for the same binding.
pub fn kept_bindings_are_the_same()
    ensures { KeptBindingsAreTheSame }
{}

/// What is merged of two bindings that don't clash, entry by entry, is valid, and stands for their union.
pub fn united_are_the_union()
    ensures { UnitedAreTheUnion }
{
    merged_is_valid();
    meanings();
}

/// Where two bindings don't clash, what is found here for the other's interfaces has their paths and their senses.
pub fn matches_have_paths()
    ensures { MatchesHavePaths }
{}

/// Where all that is added stands under new keys, it comes behind what was there, and every entry is where it was.
pub fn grown_extend()
    ensures { GrownExtend }
{}

/// Two bindings that don't clash agree, by their entries and the numbers of what they hold.
pub fn united_agree_by_numbers()
    ensures { UnitedAgreeByNumbers }
{}
