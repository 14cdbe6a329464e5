//! Laws of what is read.

ghost use Rattle.plan_meaning.specs.{GatheredPlan.GatheredPackageIsMeant, GatheredPlan.GatheredWorldIsMeant, Gathering.OneViewIsEnough, Gathering.ViewsMeanOne};
ghost use Rattle.plan_meaning.specs.{KeptFunctions.KeptFunctionsPass, KeptOwners.KeptOwnersStand, KeptResources.KeptResourcesStand, KeptTypes.KeptTypesPass};
ghost use Rattle.plan_meaning.specs.NumberedMembers.{
  ExportInNumbers,
  ImportsInNumbers,
  OneWorldInNumbers,
  PackagesInNumbers,
};
ghost use Rattle.plan_meaning.specs.NumberedRules.{EachRuleInNumbers};
ghost use Rattle.plan_meaning.specs.NumberedViews.{
  EachNumberTells,
  FirstViewsAgreeInNumbers,
  ViewsAgreeInNumbers,
};
ghost use Rattle.plan_meaning.specs.NumberedWorlds.{
  PathsInNumbers,
  ReachedInNumbers,
  SightsInNumbers,
  UsesInNumbers,
  WorldsInNumbers,
};
ghost use Rattle.plan_meaning.specs.PlanLaws.{
  BuiltIsValid,
  PackageIsMeant,
  PackageStandsAlone,
  WorldIsMeant,
  WorldStandsAlone,
};
ghost use Rattle.plan_meaning.specs.{ReadFunctions.ReadFunctionsPass, ReadInterfaces.ReadInterfacesPass, ReadOrder.ReadOrderPasses, ReadPlaces.ReadPlacesPass};
ghost use Rattle.plan_meaning.specs.{ReadPlans.ReadPlanStands, ReadWorlds.ReadWorldsPass, Renumbering.TreesAreKept};
ghost use Rattle.plan_meaning.specs.{ReadWholes.ReadPackagePlanStands, ReadWholes.ReadWorldPlanStands, Shapes.OneNumber, Shapes.TreeAtNumber};

/// Each number of a table of shapes stands for the tree of its shape, and equal trees have one number.
pub fn shapes_are_trees()
    ensures at_number { TreeAtNumber }
    ensures one_number { OneNumber }
{}

/// In tables in which each type stands once, two parts are the same tree exactly where they are one number, and two functions have the same
/// type exactly where that is one number.
pub fn numbers_tell()
    ensures { EachNumberTells }
{}

/// Views of interfaces agree, each with each and each with the first of its path, exactly where their numbers do.
pub fn views_agree_in_numbers()
    ensures each { ViewsAgreeInNumbers }
    ensures first { FirstViewsAgreeInNumbers }
{}

/// Each rule of reading on types, functions and interfaces has the same answer over numbers, where what is known of each part is true.
pub fn rules_in_numbers()
    ensures { EachRuleInNumbers }
{}

/// Views use the interfaces that their numbers use, imports are reached exactly where their numbers are, and no path stands twice exactly
/// where no number does.
pub fn uses_in_numbers()
    ensures views { UsesInNumbers }
    ensures reached { ReachedInNumbers }
    ensures once { PathsInNumbers }
{}

/// What a component type shows obeys the rules on worlds exactly where its numbers do, and its instances give the views that their numbers
/// give.
pub fn worlds_in_numbers()
    ensures obey { WorldsInNumbers }
    ensures sights { SightsInNumbers }
{}

/// The component type of an interface imports and exports the views that its numbers import and export.
pub fn interfaces_in_numbers()
    ensures imports { ImportsInNumbers }
    ensures export { ExportInNumbers }
{}

/// The members at the top are a package, and a world stands alone, exactly where their numbers are and do.
pub fn packages_in_numbers()
    ensures package_ { PackagesInNumbers }
    ensures world { OneWorldInNumbers }
{}

/// Where the views of interfaces agree, those of one path mean one interface, so one view of each path gathers to the map of all.
pub fn one_view_is_enough()
    ensures mean_one { ViewsMeanOne }
    ensures gather { OneViewIsEnough }
{}

/// Where the types of a plan are those of the shapes of a table that are kept, each part stands for the tree that it stood for.
pub fn trees_are_kept()
    ensures { TreesAreKept }
{}

/// Types of a plan that are those of the shapes that are kept, where what was read obeys the rules, pass the tests on types alone. They
/// refer to smaller numbers, and have the labels, the shapes, the names and the levels that they may.
pub fn kept_types_pass()
    ensures { KeptTypesPass }
{}

/// Where the parts of the tables that are resources are marked, handles of a plan whose types are kept are of resources, and nothing else has
/// one as a part.
pub fn kept_resources_stand()
    ensures { KeptResourcesStand }
{}

/// Where each place has an owner of its own, types and functions of a plan whose types are kept stay with the owner of their place.
pub fn kept_owners_stand()
    ensures { KeptOwnersStand }
{}

/// Where each function of a plan is read in its owner's place, all tests of a plan on functions hold.
pub fn read_functions_pass()
    ensures { ReadFunctionsPass }
{}

/// Where each interface of a plan is read in its own place, its names are labels that differ, and its types are its own, under rising numbers.
pub fn read_interfaces_pass()
    ensures { ReadInterfacesPass }
{}

/// Let each package of a plan be that of a path, and each interface and each world stand where it was read. Then packages are apart and
/// list what is theirs under names that differ, and interfaces and worlds stand in their places.
pub fn read_places_pass()
    ensures { ReadPlacesPass }
{}

/// Where each world of a plan is read in its own place, its imports and exports stand under keys that differ, and its types under rising numbers.
pub fn read_worlds_pass()
    ensures { ReadWorldsPass }
{}

/// Let each name have been shown in its own place, and each interface use what was seen before it. Then named types stand in their
/// owners' lists, interfaces use smaller ones alone, and each item of a world stands behind what it uses.
pub fn read_order_passes()
    ensures { ReadOrderPasses }
{}

/// A plan that is read passes all tests of a plan, so that a `Resolve` that is built from it is valid.
pub fn read_plans_stand()
    ensures { ReadPlanStands }
{}

/// A plan that is read as a package is the plan of one, and a plan that is read as one world is the plan of one: nothing stands there without a
/// reason.
pub fn whole_plans_stand()
    ensures package_ { ReadPackagePlanStands }
    ensures world { ReadWorldPlanStands }
{}

/// A function of a plan whose types are those of shapes that are kept, where what was read obeys the rules, passes the tests of its numbers,
/// its labels, its levels and its resource.
pub fn kept_functions_pass()
    ensures { KeptFunctionsPass }
{}

/// A plan that is gathered from views in numbers, of the members of a package or of one world, means what they mean.
pub fn gathered_plans_are_meant()
    ensures package_ { GatheredPackageIsMeant }
    ensures world { GatheredWorldIsMeant }
{}

/// A `Resolve` that is built, entry by entry, from a plan that was read is valid.
pub fn plans_are_valid()
    ensures { BuiltIsValid }
{}

/// The main package of a `Resolve` that is built from the plan of a package means exactly what the plan means. The one world of a
/// `Resolve` that is built from the plan of a world means exactly what that plan means as a world.
pub fn plans_are_meant()
    ensures package_ { PackageIsMeant }
    ensures world { WorldIsMeant }
{}

/// Nothing stands in such a `Resolve` beyond what its package, or its world, means. Each interface is reached, each world is one of the
/// package, each type is named or a part, and each package but the main one has an interface.
pub fn nothing_else()
    ensures package_ { PackageStandsAlone }
    ensures world { WorldStandsAlone }
{}
