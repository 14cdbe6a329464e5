//! Laws of the scopes in which types and functions are encoded, for whoever brings an encoder of their own.

ghost use Rattle.encode_types.specs.MetKinds.{MetKindsAreHeld};
ghost use Rattle.wit_encode.specs.{RoomLaws.LackingInterfacesAreHeavy, WorldRoom.LackingWorldsAreHeavy, WorldUses.ItemsMeetStanding};
ghost use Rattle.wit_encode.specs.Dependencies.{AliasesLeaveImports, ExportsEnd, ImportsGrow, ImportsStand, NothingIsImported};
ghost use Rattle.wit_encode.specs.Extents.{BytesAreFew, ComponentsAreLight, DependenciesAreLight, FunctionsAreLight, InstancesAreLight, TypesAreLight, WorldsAreLight};
ghost use Rattle.wit_encode.specs.OwnerScope.{FunctionsEncode, FunctionsUse, InterfaceUses, NamesEncode, TableScope, TableUsesStand, TypesEncode, TypesUse};

pub use encode_types::laws::equal_lists;

/// Types can be encoded in the scope of an owner, where each name that is met is of the place, or of a named interface whose instance stands.
pub fn names_encode()
    ensures { NamesEncode }
{}

/// The named types of an owner, an interface or a world, can be encoded in its scope, where of each other interface whose types are met
/// an instance stands. So it is where one stands of each interface that the types of the owner use.
pub fn types_encode()
    ensures encode { TypesEncode }
    ensures uses { TypesUse }
{}

/// The same of the functions of an owner.
pub fn functions_encode()
    ensures encode { FunctionsEncode }
    ensures uses { FunctionsUse }
{}

/// An interface that the types of an interface use is one of its direct dependencies.
pub fn interface_uses_dependencies()
    ensures { InterfaceUses }
{}

/// The scope of a table is that of its owner, and of each interface that the types of the owner use an instance stands in it. So the types and
/// the functions of the owner can be encoded over a table.
pub fn table_scope_is_of_owner()
    ensures scope { TableScope }
    ensures uses { TableUsesStand }
{}

/// Maps that were empty, and have learnt what is met from some types and nothing else, hold the kinds of the unnamed types that are met,
/// each once.
pub fn met_kinds_are_held()
    ensures { MetKindsAreHeld }
{}

/// An interface that has no room in an instance type weighs more than 4,294,967,295. So `encode_instance` answers `Size` only for such a
/// one, or where the component type, after aliases have been made, has no room for one more alias or instance type.
pub fn lacking_interfaces_are_heavy()
    ensures { LackingInterfacesAreHeavy }
{}

/// A world that has no room in a component type weighs more than 4,294,967,295: something of it doesn't fit in 32 bits by itself, or there
/// are too many declarations. Those are two for each type number that it meets, one for each named type of its interfaces, each once, and
/// two for each function and interface.
pub fn lacking_worlds_are_heavy()
    ensures { LackingWorldsAreHeavy }
{}

/// What is written of a type, and what is written of a function, each with its export, takes no more bytes than it weighs. A definition takes no
/// more than its tree says, the type of a function no more than its signature, and an import or an export no more than its name. So do, in sum,
/// the parts of an instance type, of the component type of an interface, and of that of a world, where each type number that is met is written
/// once.
pub fn types_and_functions_are_light()
    ensures bytes { BytesAreFew }
    ensures types { TypesAreLight }
    ensures functions { FunctionsAreLight }
    ensures instances { InstancesAreLight }
    ensures dependencies { DependenciesAreLight }
    ensures components { ComponentsAreLight }
    ensures worlds { WorldsAreLight }
{}

/// Where an instance stands of each named interface before an item of a valid world, one stands of each other interface whose types the item
/// meets.
pub fn items_meet_standing()
    ensures { ItemsMeetStanding }
{}

/// Of interfaces that a component type has imported, by their types, instances stand in it. So an interface that uses no others can be
/// encoded in it.
pub fn imports_stand()
    ensures { ImportsStand }
{}

/// A component type in which nothing has been declared has imported nothing, and aliases leave what has been imported. An interface whose
/// types have been encoded and then imported by its path is one import more.
pub fn imports_grow()
    ensures nothing { NothingIsImported }
    ensures aliases { AliasesLeaveImports }
    ensures grow { ImportsGrow }
{}

/// Behind the imports of the interfaces that it reaches, an interface that has been encoded and then exported by its path ends its component
/// type, which shows it.
pub fn exports_end()
    ensures { ExportsEnd }
{}
