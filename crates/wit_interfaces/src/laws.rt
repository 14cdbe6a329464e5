//! Laws of an encoder of interfaces.

ghost use Rattle.wit_interfaces.specs.InterfaceEncoders.{DefinitionsLeaveInterfaces, InterfaceScope};

/// Where interfaces can be encoded and imported, they can be after calls that keep the law of `ValtypeEncoder`, too: types may be defined beside
/// them.
pub fn definitions_leave_interfaces()
    ensures { DefinitionsLeaveInterfaces }
{}

/// The scope of an encoder of interfaces in use is that of an owner, a world without types: so in it types can be encoded, each name of which is of a
/// named interface whose instance stands (`wit_encode::laws::names_encode`).
pub fn interface_scope_is_of_owner()
    ensures { InterfaceScope }
{}
