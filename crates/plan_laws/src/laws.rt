//! Laws over definitions alone.

ghost use Rattle.plan_laws.specs.{Apart.WholeStandsApart, WholePlan.PlanIsWhole};
ghost use Rattle.plan_laws.specs.{OneWorld.WorldPlanIsWhole, Owners.PlannedTypesAreOwned, ShownNames.UsedNamesAreShown, ShownRules.ShownObeysRules};
ghost use Rattle.plan_laws.specs.{ShownAlike.WholeIsShownAlike, WholeOrder.PlannedOrderIsRead, WholePlaces.WholePlacesAreRead, WorldItems.PlannedWorldsStand};
ghost use Rattle.plan_laws.specs.{ShownWhole.WholeIsShown, WholeReasonsForeign.ForeignHasReasons, WholeTypes.PackagesAreRuled, WholeTypes.PlannedTypesAreWhole};
ghost use Rattle.plan_laws.specs.{ViewedInterfaces.PlannedInterfacesAreViewed, WholeFunctions.PlannedFunctionsAreRead, WholeFunctions.WorldFunctionsAreRead};
ghost use Rattle.plan_laws.specs.{WholeCondition.WholeMayBePlanned, WholeReasons.WholeIsKeptForReasons, WholeWorlds.PlannedWorldsAreRead};

/// Each name that a plan's types use is shown in its own place, by a view or by an import of a world.
pub fn used_names_are_shown()
    ensures { UsedNamesAreShown }
{}

/// Each type of the plan is the owner's of its place, and is seen from there.
pub fn planned_types_are_owned()
    ensures { PlannedTypesAreOwned }
{}

/// Each interface of the plan is read by the types of the first view of its place and the functions of the first that shows some, and uses interfaces
/// that stand before it.
pub fn planned_interfaces_are_viewed()
    ensures { PlannedInterfacesAreViewed }
{}

/// Each world of the plan has its own place, and what it imports and exports is as it was followed: instances of the plan's interfaces, and types of
/// its own.
pub fn planned_worlds_stand()
    ensures { PlannedWorldsStand }
{}

/// The packages, the interfaces and the worlds of the plan are read as such, each place under an owner of its own, and each inline interface is an
/// item of one world (WIT.md, "Packages", "Interfaces" and "Worlds").
pub fn whole_places_are_read()
    ensures { WholePlacesAreRead }
{}

/// Where all is shown alike and the functions of the plan are read, each unnamed type of it is a part of another or of a function. Then
/// each package but the main one has the home of a place (Component Model WIT.md, "Package Format").
pub fn whole_is_kept_for_reasons()
    ensures { WholeIsKeptForReasons }
{}

/// What is shown obeys the rules of reading, each as it is seen from its place (WIT.md, "Types", "Functions", "Interfaces" and "Worlds").
pub fn shown_obeys_rules()
    ensures { ShownObeysRules }
{}

/// What was followed of a package obeys the rules of reading.
pub fn packages_are_ruled()
    ensures { PackagesAreRuled }
{}

/// The types of the plan of what obeys the rules are those that were read, and its owners stand for the places.
pub fn planned_types_are_whole()
    ensures { PlannedTypesAreWhole }
{}

/// Where the worlds of the plan show what worlds at the top do, each interface of another package is shown by a world, or imported by the
/// component type of an interface. Then only a world or the package itself shows functions (Component Model WIT.md, "Package Format").
pub fn foreign_has_reasons()
    ensures { ForeignHasReasons }
{}

/// Each function of a world that is planned is read in the world's own place.
pub fn world_functions_are_read()
    ensures { WorldFunctionsAreRead }
{}

/// In what was followed of a package each type is declared as one and the same wherever it is shown, and views of a place that show functions show the
/// same ones (Component Model WIT.md, "Package Format").
pub fn whole_is_shown_alike()
    ensures { WholeIsShownAlike }
{}

/// The worlds of the plan show what worlds at the top do, and each view shows the types by which its place is read. What the component type
/// of an interface imports is reached (WIT.md, "Worlds"; Component Model WIT.md, "Package Format").
pub fn whole_is_shown()
    ensures { WholeIsShown }
{}

/// A plan can be made of what was followed of a package, where what the component types of interfaces import shows no functions. Then parts
/// stand before what they are parts of, and all that is shown is over the types that are used.
pub fn whole_may_be_planned()
    ensures { WholeMayBePlanned }
{}

/// Where views of a place that show functions show the same ones, each function of the plan is read, of an interface or of a world, in its own place.
pub fn planned_functions_are_read()
    ensures { PlannedFunctionsAreRead }
{}

/// Where the functions of the plan are read, so is each of its worlds, by what the member at the top shows. Each item is under its key, each
/// type behind all imported before it. Each function is behind the types that it is over and the resource that it belongs to (WIT.md, "Worlds").
pub fn planned_worlds_are_read()
    ensures { PlannedWorldsAreRead }
{}

/// Then the plan's order is that in which all was read: each name that is kept was shown by the interface of its place, or imported by the world.
pub fn planned_order_is_read()
    ensures { PlannedOrderIsRead }
{}

/// In what was followed of a package an inline interface is viewed once, no place of a view is a world's, and each world has a place of its
/// own (WIT.md, "Worlds" and "Interfaces"). So views are in order, where the names of each first one rise in the table.
pub fn whole_stands_apart()
    ensures { WholeStandsApart }
{}

/// The plan of what was followed of a package is read as a package, whole, so that a `Resolve` that is built from it is valid and holds
/// nothing without a reason. The plan means what was followed (Component Model WIT.md, "Package Format").
pub fn plan_is_whole()
    ensures { PlanIsWhole }
{}

/// Let what was followed of one world, beside the interfaces of its package that it shows, be a package. Then its plan is that of one world,
/// which shows each interface that has a name. The plan means what the world does (WIT.md, "Worlds"; Component Model WIT.md, "Package Format").
pub fn world_plan_is_whole()
    ensures { WorldPlanIsWhole }
{}
