//! Laws of what a module binds, over the definitions.

ghost use Rattle.bind_meaning.specs.Orders.{EveryOrderFolds, FoldsHoldTheirs, OrdersGiveTheSame, SameInEachOrder};
ghost use Rattle.bind_sections.specs.Orders.{BindsWhereNoTwoClash, EachUnitesOrClashes, ModulesInEachOrder, SectionsFold, SectionsInEachOrder};
ghost use Rattle.bind_sections.specs.Blamed.{NoRefusedSection, OneRefusedSection};
ghost use Rattle.bind_sections.specs.Steps.{LeftOversEnd, OthersArePassed, ReadingBegins, ReadingEnds, RefusalsEnd, WorldsAreBound};
ghost use Rattle.bind_sections.specs.BoundLaws.{BoundAreBindings, BoundIsNotRefused, BoundOnce, BoundSectionsMean, OneRefusal, OneSectionBinds, SectionsAreBindings, SectionsBindTheirWorlds, SectionsMeanOnce};

/// A list of section bindings is bound, one after the other onto the empty root world, exactly where no two of them clash in either order, the empty
/// root world counted as one of them. What is bound has, by sense, exactly the packages, interfaces, worlds, imports, exports and encodings of its
/// members. So a list is bound in every order or in none, and each order gives the same. Two bindings unite or clash.
///
/// What the sections of a module bind is what comes of the bindings that their data mean. So a module whose sections stand in another order binds the
/// same by sense.
pub fn any_order()
    ensures binds { BindsWhereNoTwoClash }
    ensures theirs { FoldsHoldTheirs }
    ensures same { SameInEachOrder }
    ensures every { EveryOrderFolds }
    ensures orders { OrdersGiveTheSame }
    ensures either { EachUnitesOrClashes }
    ensures folds { SectionsFold }
    ensures in_each_order { SectionsInEachOrder }
    ensures modules { ModulesInEachOrder }
{}

/// A module binds one thing at most, by one world and one encoding of each section, or is refused in one way, and never both, want of memory aside.
pub fn bound_once()
    ensures sections { SectionsMeanOnce }
    ensures one { BoundOnce }
    ensures refused { BoundIsNotRefused }
    ensures refusal { OneRefusal }
{}

/// What the data of a section binds, and what a module does, are bindings: the bound world stands under its path, no path is an interface and a world, and
/// no key of it stands twice.
pub fn bound_are_bindings()
    ensures sections { SectionsAreBindings }
    ensures modules { BoundAreBindings }
{}

/// Data that is bound means a world and says an encoding. And of bytes that mean exactly what a world of a `Resolve` does and carry an encoding, as those
/// that `wit_metadata::encode` answers: a module with them as its one section binds that world, unless it shows an interface `root:root/root`.
pub fn one_section_binds()
    ensures means { BoundSectionsMean }
    ensures binds { OneSectionBinds }
{}

/// What is bound of the data of a section is, by meaning, the binding of the world that the data means, with the encoding that it says.
pub fn sections_bind_their_worlds()
    ensures { SectionsBindTheirWorlds }
{}

/// A module is read section by section: what has been bound so far, and what is left, is known, and the first refusal is that of the module.
pub fn modules_are_read_in_order()
    ensures begins { ReadingBegins }
    ensures others { OthersArePassed }
    ensures worlds { WorldsAreBound }
    ensures ends { ReadingEnds }
    ensures refusals { RefusalsEnd }
    ensures left { LeftOversEnd }
{}

/// One section of a module is refused at most: the number that is told of it is its only one, and where none is told, none is refused.
pub fn one_refused_section()
    ensures one { OneRefusedSection }
    ensures none { NoRefusedSection }
{}
