//! Laws over definitions alone.

ghost use Rattle.read_follow.specs.Functions.{OneFunctionNumber};
ghost use Rattle.plan_meaning.specs.Shapes.{OneNumber};

/// Equal trees have one number, where each place has one number.
pub fn one_number()
    ensures { OneNumber }
{}

/// Equal types of functions have one number, where none stands twice and each place has one number.
pub fn one_function_number()
    ensures { OneFunctionNumber }
{}
