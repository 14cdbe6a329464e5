//! Laws over definitions alone.

ghost use Rattle.comp_read.specs.FollowedWorlds.{ReadImportsAreBare, ReadPlacesAreMet, ReadWorldsAreFollowed};
ghost use Rattle.comp_read.specs.InputLaws.{
  PackageViewsObey,
  ReadFirstsRise,
  ReadIsInput,
  ReadIsPackageInput,
  ReadLabelsStand,
  ReadLengthsFit,
  ReadMembersAreIn,
  ReadMembersAreNamed,
  ReadMembersStand,
  ReadNamesHaveKinds,
  ReadPartsAreReached,
  ReadPlacesAreApart,
};
ghost use Rattle.comp_read.specs.ReadPackages.{
  ReadMayBePlanned,
  ReadMembersAreInput,
  ReadPackageIsWhole,
  ReadPackagesHaveSources,
  ReadPlansAreMeant,
};
ghost use Rattle.comp_read.specs.ReadWorlds.{ReadWorldIsWhole, ReadWorldPlansAreMeant};

pub use comp_meaning::laws::one_meaning;

/// Each part at the top that was read is well-formed.
pub fn read_members_stand()
    ensures { ReadMembersStand }
{}

/// Where the views of each interface agree and are what one may have, each type that is shown is a name of its place in the table, behind
/// what it is declared as. Then each name that is met is of the place itself or of an interface with a path.
pub fn read_members_are_in()
    ensures { ReadMembersAreIn }
{}

/// The part of each type that a world imports is its name.
pub fn read_members_are_named()
    ensures { ReadMembersAreNamed }
{}

/// What was followed is the input of the laws of whole plans.
pub fn read_is_input()
    ensures { ReadIsInput }
{}

/// Each world and each inline interface has a place of its own, and each type that a world imports its name there.
pub fn read_places_are_apart()
    ensures { ReadPlacesAreApart }
{}

/// The names of the first view of each place stand in the table in the view's order.
pub fn read_firsts_rise()
    ensures { ReadFirstsRise }
{}

/// Each fixed length in the table is a number of 32 bits.
pub fn read_lengths_fit()
    ensures { ReadLengthsFit }
{}

/// What is exported at the top has labels, none twice.
pub fn read_labels_stand()
    ensures { ReadLabelsStand }
{}

/// The component type of an interface imports what is reached, each once (Component Model WIT.md, "Package Format").
pub fn read_parts_are_reached()
    ensures { ReadPartsAreReached }
{}

/// In a package the views of each interface agree, and each is what an interface may have.
pub fn package_views_obey()
    ensures { PackageViewsObey }
{}

/// In a package that was followed each name is a resource wherever it is met, or nowhere.
pub fn read_names_have_kinds()
    ensures { ReadNamesHaveKinds }
{}

/// What was followed of a package is the input of the laws of packages.
pub fn read_is_package_input()
    ensures { ReadIsPackageInput }
{}

/// The instances of each world stand under the texts of their keys, labels or paths, and its imports came into the table in their order.
pub fn read_worlds_are_followed()
    ensures { ReadWorldsAreFollowed }
{}

/// What the component type of an interface imports shows no functions.
pub fn read_imports_are_bare()
    ensures { ReadImportsAreBare }
{}

/// Each place with a path is met in a view.
pub fn read_places_are_met()
    ensures { ReadPlacesAreMet }
{}

/// Members that are read are those of what was followed, for what the rules of reading make of it.
pub fn read_members_are_input()
    ensures { ReadMembersAreInput }
{}

/// Each package that was numbered, for a place or for a member, is that of a place or of a member.
pub fn read_packages_have_sources()
    ensures { ReadPackagesHaveSources }
{}

/// All that was followed and read of a package is what the laws of whole plans ask for.
pub fn read_package_is_whole()
    ensures { ReadPackageIsWhole }
{}

/// A plan can be made of a package that was followed and read.
pub fn read_may_be_planned()
    ensures { ReadMayBePlanned }
{}

/// A plan of what was followed and read of a package, if it fits in numbers of 32 bits, is the plan of a package: a `Resolve` that is built from it is
/// valid. And it means what the sections of the input do (Component Model WIT.md, "Package Format").
pub fn read_plans_are_meant()
    ensures { ReadPlansAreMeant }
{}

/// A world by itself that was followed and read is, with the interfaces of its package that it shows, a package, and is what the laws of whole plans
/// ask for; a plan can be made of it.
pub fn read_world_is_whole()
    ensures { ReadWorldIsWhole }
{}

/// A plan of them, if it fits in numbers of 32 bits, is the plan of one world: a `Resolve` that is built from it is valid. And it means what the sections
/// of the input do (Component Model WIT.md, "Package Format").
pub fn read_world_plans_are_meant()
    ensures { ReadWorldPlansAreMeant }
{}
