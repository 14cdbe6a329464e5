//! Laws of the names of imports and exports, of their clashes, and of what is shown under them.

ghost use Rattle.encode_names.specs.{ClashLaws.NoClashWithout, ClashLaws.OneClash, NameLaws.NamesAreRead, Rebuilt.ImportsAreKnown, Rebuilt.TypesComeLast};
ghost use Rattle.encode_names.specs.WorldSteps.{AliasesAreNames, EntriesAreRebuilt, FunctionsAreShown, InstancesStand, InterfacesAreShown, NothingIsShown, SlotsLeaveEntries, TypesAreFound, TypesAreShown, WorldsAreShown};

/// The name of each import and each export of a valid world says which it is, with canonical names and without. That of an interface is
/// read as the key of its instance, and that of a function or a type is its key.
pub fn names_are_read()
    ensures { NamesAreRead }
{}

/// A world clashes at one name at most, and at none where no two imports and no two exports have one canonical name.
pub fn one_clash()
    ensures one { OneClash }
    ensures none { NoClashWithout }
{}

/// One declaration more in the component type of a valid world, followed, shows one import or export more: a function or a type under its
/// name, or an interface by the instance type just before. Definitions and aliases between them change nothing that is shown, and when all
/// imports and exports are shown, in order, the component type shows the world.
pub fn entries_are_shown()
    ensures nothing { NothingIsShown }
    ensures slots { SlotsLeaveEntries }
    ensures functions { FunctionsAreShown }
    ensures types { TypesAreShown }
    ensures interfaces { InterfacesAreShown }
    ensures whole { WorldsAreShown }
{}

/// The imports of a world are known from its types, in order, and from the others, each with how many types stand before it. So where types
/// are added and the others stay, the types come last, and a component type that showed what it imported and exported shows these types too.
pub fn imports_are_rebuilt()
    ensures known { ImportsAreKnown }
    ensures last { TypesComeLast }
    ensures entries { EntriesAreRebuilt }
{}

/// The instances of such a component type are those of the interfaces among its imports, and then of those among its exports. What shows an
/// interface has each named type of it under its name, in the slot of that name. So an alias of one, by an instance of the interface, takes
/// the slot of the type's name, and changes nothing that is shown.
pub fn instances_stand()
    ensures stand { InstancesStand }
    ensures types { TypesAreFound }
    ensures aliases { AliasesAreNames }
{}
