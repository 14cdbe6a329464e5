//! Laws over definitions alone.

ghost use Rattle.plan_parts.specs.{Agreement.FirstViewsTell, Functions.FunctionsBecome, Functions.KindsAreNamed, Interfaces.FunctionsAreListed};
ghost use Rattle.plan_parts.specs.Kinds.{KindsAreDeclared};

/// A function that may stand behind some resources is of the kind that its name says.
pub fn kinds_are_named()
    ensures { KindsAreNamed }
{}

/// A function over the types that are kept becomes what it is in the plan.
pub fn functions_become()
    ensures { FunctionsBecome }
{}

/// The functions of an interface that obeys the rules become what they are in the plan.
pub fn functions_are_listed()
    ensures { FunctionsAreListed }
{}

/// Views of interfaces agree where each agrees with the first of its place.
pub fn first_views_tell()
    ensures { FirstViewsTell }
{}

/// A type of the kind that was made for what it declares is what the plan's type of it says.
pub fn kinds_are_declared()
    ensures { KindsAreDeclared }
{}
