//! Laws of the tables in which an encoder finds what it has defined.

ghost use Rattle.encode_types.specs.CodeLaws.{EqualKinds, EqualKeys};

/// Two unnamed kinds have equal lists of numbers exactly where they are equal. So have two keys of functions, under one table of names.
pub fn equal_lists()
    ensures kinds { EqualKinds }
    ensures keys { EqualKeys }
{}
