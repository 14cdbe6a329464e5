//! Laws of components that export component types.

ghost use Rattle.encode_exports.specs.ExportLaws.{TypesAreExported};

/// What a component exports that was given component types, each with its export under a label that stands once: these types, in order.
pub fn types_are_exported()
    ensures { TypesAreExported }
{}
