//! Laws of what is shown of a valid `Resolve`.

ghost use Rattle.encode_shown.specs.ShownLaws.{
  BytesMean,
  InterfacePartsAreRead,
  InterfacesMean,
  InterfacesObey,
  LabelsDiffer,
  PackagesMean,
  SectionsMean,
  TypesMean,
  TypesObey,
  WorldBytesMean,
  WorldPartsAreRead,
  WorldSectionsMean,
  WorldsAloneMean,
  WorldsMean,
  WorldsObey,
};

/// What shows an interface of a valid `Resolve` obeys the rules of interfaces in its place, and means the interface, in whatever order
/// its functions are shown.
pub fn interfaces_are_meant()
    ensures obey { InterfacesObey }
    ensures mean { InterfacesMean }
{}

/// So it is with a view of the types alone, as a dependency shows them.
pub fn types_are_meant()
    ensures obey { TypesObey }
    ensures mean { TypesMean }
{}

/// What shows a world of a valid `Resolve` obeys the rules of worlds, and means the world; by itself, the world of its package with each
/// interface that it shows.
pub fn worlds_are_meant()
    ensures obey { WorldsObey }
    ensures mean { WorldsMean }
    ensures alone { WorldsAloneMean }
{}

/// The component type of an interface of a package, which imports what the interface reaches, and the wrapper of a world are read as
/// parts of their package.
pub fn parts_are_read()
    ensures interfaces { InterfacePartsAreRead }
    ensures worlds { WorldPartsAreRead }
{}

/// The parts of a package of a valid `Resolve`, its interfaces in order and then its worlds, mean the package, with each interface of
/// another package that it reaches.
pub fn packages_are_meant()
    ensures { PackagesMean }
{}

/// So do the sections of a component that exports the component types of its interfaces and worlds; and one that exports a world alone
/// means the world.
pub fn sections_are_meant()
    ensures package_ { SectionsMean }
    ensures world { WorldSectionsMean }
{}

/// Bytes that spell such a component mean exactly what the package means, or the world.
pub fn bytes_are_meant()
    ensures package_ { BytesMean }
    ensures world { WorldBytesMean }
{}

/// The names under which the component types of a package are exported are labels, and none stands twice.
pub fn labels_differ()
    ensures { LabelsDiffer }
{}
