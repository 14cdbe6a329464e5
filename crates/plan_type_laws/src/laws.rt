//! Laws over definitions alone.

ghost use Rattle.plan_type_laws.specs.{FormsObeyed.FormsAreObeyed, ReadTypes.PlannedTypesAreRead, ShownForms.FirstsAreFound, UsedParts.UsedPartsAreFine};
ghost use Rattle.plan_type_laws.specs.{KeptMarks.MarksAreKept, ShownMarks.NamesAreMarked};
ghost use Rattle.plan_type_laws.specs.{MembersStand.MembersStandTogether, PlanTypes.PlannedTypesAreKept, ShownRules.NamesObeyRules, ShownRules.ShownObeysRules};

/// Where what is shown obeys the rules, each unnamed type that is used is one that a type may have as its part, and isn't too deep.
pub fn used_parts_are_fine()
    ensures { UsedPartsAreFine }
{}

/// The types that are made of those that are used, where what is shown obeys the rules, are those of a plan that was read.
pub fn planned_types_are_kept()
    ensures { PlannedTypesAreKept }
{}

/// Where the parts at the top are well-formed, each form that they show is one that a definition may have (Binary.md, "Type Definitions"): it has
/// its items, a fixed length from 1 below 2^32, or a key.
pub fn forms_are_obeyed()
    ensures { FormsAreObeyed }
{}

/// The marks of what is shown tell which types of a plan are resources: a handle is of one, and nothing else has one as a part.
pub fn marks_are_kept()
    ensures { MarksAreKept }
{}

/// Where the parts at the top are well-formed, and each name is a resource wherever it is met, or nowhere, marks tell which names are
/// resources. Those of a handle are, and nothing else is over one (Explainer.md, "Type Definitions"; WIT.md, "Interfaces: use").
pub fn names_are_marked()
    ensures { NamesAreMarked }
{}

/// The first showing of a type is a showing of it, also as a table tells it.
pub fn firsts_are_found()
    ensures { FirstsAreFound }
{}

/// Where the parts at the top are well-formed, and the views of interfaces may be ones, all that they show obeys the rules. Each type is a
/// label of its place, behind what it is declared as, which may be declared there. Each function's type is one that may be there (WIT.md,
/// "Types" and "Functions").
pub fn shown_obeys()
    ensures { ShownObeysRules }
{}

/// Each name that is used is a label, and what it is shown as may be declared in its place, behind which it stands.
pub fn names_obey()
    ensures { NamesObeyRules }
{}

/// The types that are made of those that are used, each as it is shown first, are those of a plan that was read, and marks tell which of them are
/// resources, where what is exported was followed and read.
pub fn planned_types_are_read()
    ensures { PlannedTypesAreRead }
{}

/// Parts at the top that are well-formed each alone are so together: each name that is met was shown before it, by the same part or by one before it.
pub fn members_stand_together()
    ensures { MembersStandTogether }
{}
