//! Laws over definitions alone.

ghost use Rattle.read_numbers.specs.{FactLaws.FactsInNumbers, ImportParts.ImportsAreNamed, KnownScopes.ScopesAreKnown, KnownScopes.ViewsAreKnown};
ghost use Rattle.read_numbers.specs.NumberLaws.{KeysInNumbers, PlacesInNumbers, ScopesInNumbers, TablesInNumbers};
ghost use Rattle.read_numbers.specs.{NumberedInput.InputInNumbers, PlacedNumbers.ImportsComeLast, PlacedNumbers.MetPartsAreSeen, PlacedNumbers.PlacesAreKept};

/// Well-formed tables, in which each type of a function and each path stands once, are so in numbers; and each place is that of its path.
pub fn tables_in_numbers()
    ensures tables { TablesInNumbers }
    ensures places { PlacesInNumbers }
{}

/// A scope shows, in numbers, what it stands for, and its keys stand for places with or without a path.
pub fn scopes_in_numbers()
    ensures scopes { ScopesInNumbers }
    ensures keys { KeysInNumbers }
{}

/// What is followed of an input is so in numbers: its tables are well-formed, and each of its parts shows what its numbers do.
pub fn inputs_in_numbers()
    ensures { InputInNumbers }
{}

/// What was kept of each type is true of it in numbers, as it is seen from a place.
pub fn facts_in_numbers()
    ensures { FactsInNumbers }
{}

/// A part that is over a place and places with a path is seen from the place; and where that has a path, all its names are of places with one.
pub fn met_parts_are_seen()
    ensures { MetPartsAreSeen }
{}

/// What is followed of an input is so in numbers. All that a scope shows is over its own place and places with a path, and what is shown
/// stands for its name. Each name of the table is shown, in the order in which it came. Instances are those that are imported and exported,
/// each place with a path is that of one, and forms are as definitions have them.
pub fn places_are_kept()
    ensures { PlacesAreKept }
{}

/// Where the keys of imports differ, each type that is imported is the last of the table once it is followed.
pub fn imports_come_last()
    ensures { ImportsComeLast }
{}

/// What was kept of each type is true wherever the rules of reading ask for it: of all that a scope shows, and of the views that it gives.
pub fn scopes_are_known()
    ensures scopes { ScopesAreKnown }
    ensures views { ViewsAreKnown }
{}

/// Imports of a world, as they are read: each type is the name under which it is imported.
pub fn imports_are_named()
    ensures { ImportsAreNamed }
{}
