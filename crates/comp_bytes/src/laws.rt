//! Laws of the format.

ghost use Rattle.comp_bytes.specs.{FirstByte.DeclaredTypesAreChosen, FirstByte.DefinitionsAreChosen, FirstByte.ValueTypesAreChosen, Laws.IsReadBy};
ghost use Rattle.comp_bytes.specs.{Reading.declaration_at, FormatLaws.OneForm, FormatLaws.ShortestIndex, FormatLaws.ShortestName, FormatLaws.ShortestNumber};
ghost use Rattle.comp_bytes.specs.Levels.{EntriesAreDeclarations, EntriesByFront, IsEntry, IsPartType, LevelsAreSections, PartTypesByFront, PiecesByFrames, TakesBytes, entry_at, part_type_at};

/// A byte string spells the sections of one component at most.
pub fn one_form()
    ensures { OneForm }
{}

/// What is written of a number are its shortest bytes.
pub fn shortest_number()
    ensures { ShortestNumber }
{}

/// What is written of the index of a type are its shortest bytes.
pub fn shortest_index()
    ensures { ShortestIndex }
{}

/// What is written of a name are its shortest bytes.
pub fn shortest_name()
    ensures { ShortestName }
{}

/// The declarations of a world or an interface, and the types at the top, are read level by level as they are spelled, and the
/// sections that are read so are those of the component.
pub fn levels()
    ensures entries_read { IsReadBy IsEntry entry_at }
    ensures entries_are { EntriesAreDeclarations }
    ensures types_read { IsReadBy IsPartType part_type_at }
    ensures sections { LevelsAreSections }
    ensures by_frames { PiecesByFrames }
{}

/// What is read of declarations, entries and types at the top takes bytes, so that fewer are left.
pub fn bytes_are_taken()
    ensures declarations { TakesBytes declaration_at }
    ensures entries { TakesBytes entry_at }
    ensures part_types { TakesBytes part_type_at }
{}

/// What the bytes in front choose is what tests of these bytes, one after the other, read: of a type, an entry and a type at the top.
pub fn first_bytes()
    ensures definitions { DefinitionsAreChosen }
    ensures declared { DeclaredTypesAreChosen }
    ensures values { ValueTypesAreChosen }
    ensures entries { EntriesByFront }
    ensures part_types { PartTypesByFront }
{}
