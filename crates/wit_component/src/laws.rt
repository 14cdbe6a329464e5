//! Laws that join the crates, and those of the crates below that users cite.

ghost use Rattle.wit_component.specs.ReadBack.{DecodedHaveMembers, DecodingGivesThatMeaning, EncodingKeepsMeaning, MemoryAloneIsRefused};
ghost use Rattle.wit_component.specs.SectionBindings.{CarriedWorldsAreBound};

pub use bind_meaning::laws::{both_orders, clashes};
pub use bind_sections::laws::{
    any_order, bound_are_bindings, bound_once, modules_are_read_in_order, one_refused_section,
    one_section_binds, sections_bind_their_worlds,
};
pub use comp_read::laws::one_meaning;
pub use print_grammar::laws::one_reading;
pub use wit_bind::laws::roots_are_roots;
pub use wit_compat::laws::{reflexive, refusals_are_exact, semver_check_counted, transitive};
pub use wit_encode::laws::{
    equal_lists, exports_end, functions_encode, imports_grow, imports_stand,
    interface_uses_dependencies, items_meet_standing, lacking_interfaces_are_heavy,
    lacking_worlds_are_heavy, names_encode, table_scope_is_of_owner, types_encode,
};
pub use wit_interfaces::laws::{definitions_leave_interfaces, interface_scope_is_of_owner};
pub use wit_model::laws::canonical_paths_join;
pub use wit_print::laws::{
    interfaces_can_be_given, kept_text_reads, packages_read, undocumented_prints_alike,
    worlds_can_be_given,
};

/// Bytes may mean exactly what a package of a `Resolve` does, as those do that `encode` answers of a valid package with an interface or
/// a world. What `decode` answers of such bytes is valid, without documentation, and means that and nothing else. It refuses them for
/// want of memory alone.
pub fn decoding_gives_that_meaning()
    ensures decoded { DecodingGivesThatMeaning }
    ensures refused { MemoryAloneIsRefused }
{}

/// What `decode` answers has an interface or a world, so that the bytes which `encode` answers of it mean exactly what it does; and that is what
/// the bytes mean which it was decoded of.
pub fn encoding_keeps_that_meaning()
    ensures encoded { EncodingKeepsMeaning }
    ensures members { DecodedHaveMembers }
{}

/// Of bytes that mean exactly what a world of a `Resolve` does and carry an encoding, as those that `metadata::encode` answers: what they bind is a
/// world that means the same and nothing else, and that encoding.
pub fn carried_worlds_are_bound()
    ensures { CarriedWorldsAreBound }
{}
