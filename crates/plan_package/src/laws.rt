//! Laws over definitions alone.

ghost use Rattle.plan_package.specs.{Listed.HomesAreListed, Listed.WorldsAreListed, ReadPackages.PackagesAreRead};

/// What is listed for a package: exactly the places whose home is there, by their numbers, in order.
pub fn homes_are_listed()
    ensures { HomesAreListed }
{}

/// What is listed of worlds: each of them under its label, by its order.
pub fn worlds_are_listed()
    ensures { WorldsAreListed }
{}

/// The packages of the plan of what is exported are those of a plan that was read.
pub fn packages_are_read()
    ensures { PackagesAreRead }
{}
