//! Laws over definitions alone.

ghost use Rattle.read_exports.specs.Interfaces.{InterfacesInNumbers, InterfaceScopesInNumbers};

/// A component type that was followed is that of an interface, under a label, exactly where its numbers are.
pub fn interfaces_in_numbers()
    ensures { InterfacesInNumbers }
{}

/// A scope that was followed is that of the component type of an interface, under a label, exactly where its numbers are.
pub fn interface_scopes_in_numbers()
    ensures { InterfaceScopesInNumbers }
{}
