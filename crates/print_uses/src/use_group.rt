//! Types that are used from other interfaces, in groups.
#![tactic(auto, using(print_items::proofs::Driven::driving))]

ghost use Rattle.std.specs.Prelude.{◌≡◌, ◌++◌, ◌∷◌, ◌&&◌, ◌||◌, [], codes, true, false, option_map, IfOk, IfSome, OnErr, OnOk, IfErr};
ghost use Rattle.std.specs.{List.list_all, Option.option_eq, Str.chars};
ghost use Rattle.semver.specs.Identifiers.{build_text, pre_text, version_text};
ghost use Rattle.wit_model.specs.{Lookup.optional_version_text, Names.is_label, Names.is_version, Text.text_eq, Text.text_of, Types.number_of as number_of_lem};
ghost use Rattle.wit_model.specs.{Parts.same_owner as same_owner_lem, Rules.in_list, Rules.is_stability, Rules.passes, Rules.same_version as same_version_lem};
ghost use Rattle.wit_model.specs.{Uses.alias_target, Valid.IsValid, Refusals.IsMemory};
ghost use Rattle.print_items.specs.Drives.{Drives, LineIs, Makes, MakesInPart};
ghost use Rattle.print_items.specs.Shown.{own_name, same_gates as same_gates_lem, same_group as same_group_lem, shown_external_id, shown_gates, shown_path, used_of};
ghost use Rattle.print_output.specs.OutputCall.{OutputCall, Moves, Begins};
ghost use Rattle.print_grammar.specs.{Keyword.escaped, Tree.Gates.Since, Tree.Gates.Ungated, Tree.Gates.Unstable};
ghost use Rattle.print_grammar.specs.{Calls.members_calls, Calls.path_calls, Calls.printed_after, Calls.space, Calls.used_name_calls, WellNamed.is_well_path};
ghost use Rattle.print_uses.specs.UseGroups.{as_listed, group_end_calls, group_start_calls, is_listed_type, is_printable_use, listed_of, listed_use, listed_use_calls, more_names_calls, new_group_calls, open_end_calls, shown_use, use_after, use_from as use_from_lem, use_run_calls, uses_of};

use crate::path::write_path;
use print_items::{Driver, present, write_external_id, write_gates};
use print_output::{Output, TypeKind};
use semver::Version;
use std::alloc::Global;
use wit_model::{
    Error, InterfaceId, PackageId, Resolve, Stability, Type, TypeDef, TypeDefKind, TypeId,
    TypeOwner,
};

/// A type of an owner that is used from another interface.
#[derive(Clone, Copy)]
pub struct Use<'a> {
    pub interface: InterfaceId,
    pub def: &'a TypeDef,
    /// Its name there.
    pub other: &'a str,
    /// Its name here.
    pub own: &'a str,
}

fn same_owner(a: TypeOwner, b: TypeOwner) -> bool
    ensures { result ≡ same_owner_lem a b }
{
    match a {
        TypeOwner::World(a) => matches!(b, TypeOwner::World(b) if a.0 == b.0),
        TypeOwner::Interface(a) => matches!(b, TypeOwner::Interface(b) if a.0 == b.0),
        TypeOwner::None => matches!(b, TypeOwner::None),
    }
}

fn number_of(ty: &Type) -> Option<TypeId>
    ensures { option_map (λ id. id.0) result ≡ number_of_lem ty.now }
{
    match ty {
        Type::Id(id) => Some(*id),
        _ => None,
    }
}

/// The type number that an alias is of.
fn alias_of(kind: &TypeDefKind) -> Option<TypeId>
    ensures { option_map (λ id. id.0) result ≡ alias_target kind.now }
{
    match kind {
        TypeDefKind::Type_(ty) => number_of(ty),
        _ => None,
    }
}

/// The use that a type of an owner is under this name, if its target is another interface's.
pub fn use_of<'a>(
    resolve: &'a Resolve,
    owner: TypeOwner,
    own: &'a str,
    def: &'a TypeDef,
) -> Option<Use<'a>>
    ensures used { option_map shown_use result ≡ used_of resolve.now owner own.now def.now }
    ensures same { IfSome result (λ used. used.def.now ≡ def.now) }
    ensures own { IfSome result (λ used. used.own.now ≡ own.now) }
{
    let id = match alias_of(&def.kind) {
        Some(id) => id,
        None => return None,
    };
    let target = match resolve.types.get(id.0 as usize) {
        Some(target) => target,
        None => return None,
    };
    use_from(owner, own, def, target)
}

/// The use that an alias is under this name, if its target is another interface's.
fn use_from<'a>(
    owner: TypeOwner,
    own: &'a str,
    def: &'a TypeDef,
    target: &'a TypeDef,
) -> Option<Use<'a>>
    ensures used { option_map shown_use result ≡ use_from_lem owner own.now def.now target.now }
    ensures same { IfSome result (λ used. used.def.now ≡ def.now) }
    ensures own { IfSome result (λ used. used.own.now ≡ own.now) }
{
    let interface = match target.owner {
        TypeOwner::Interface(id) => id,
        _ => return None,
    };
    if same_owner(owner, target.owner) {
        return None;
    }
    let other = present(&target.name);
    Some(Use {
        interface,
        def,
        other,
        own,
    })
}

// ---- groups

fn same_text(a: &str, b: &str) -> bool
    ensures { result ≡ text_eq a.now b.now }
{
    a == b
}

fn same_identifiers(a: &Version, b: &Version) -> bool
    ensures { result ≡ (text_eq (pre_text a.now.pre) (pre_text b.now.pre) && text_eq (build_text a.now.build) (build_text b.now.build)) }
{
    if !same_text(a.pre.as_str(), b.pre.as_str()) {
        return false;
    }
    same_text(a.build.as_str(), b.build.as_str())
}

fn same_parts(a: &Version, b: &Version) -> bool
    ensures { result ≡ same_version_lem a.now b.now }
{
    if a.major != b.major {
        return false;
    }
    if a.minor != b.minor {
        return false;
    }
    if a.patch != b.patch {
        return false;
    }
    same_identifiers(a, b)
}

/// Whether two versions have one text.
fn same_version(a: &Version, b: &Version) -> bool
    requires left { is_version a.now ≡ true }
    requires right { is_version b.now ≡ true }
    ensures { result ≡ text_eq (version_text a.now) (version_text b.now) }
{
    same_parts(a, b)
}

fn same_optional_version(a: &Option<Version>, b: &Option<Version>) -> bool
    requires left { passes is_version a.now ≡ true }
    requires right { passes is_version b.now ≡ true }
    ensures { result ≡ option_eq text_eq (optional_version_text a.now) (optional_version_text b.now) }
{
    match a {
        Some(a) => match b {
            Some(b) => same_version(a, b),
            None => false,
        },
        None => b.is_none(),
    }
}

/// Whether gates are those that stand since a version.
fn is_since(since: &Version, deprecated: &Option<Version>, other: &Stability) -> bool
    requires since { is_version since.now ≡ true }
    requires deprecated { passes is_version deprecated.now ≡ true }
    requires other { is_stability other.now ≡ true }
    ensures { result ≡ same_gates_lem (Since (version_text since.now) (optional_version_text deprecated.now)) (shown_gates other.now) }
{
    match other {
        Stability::Stable {
            since: version,
            deprecated: end,
        } => same_version(since, version) && same_optional_version(deprecated, end),
        _ => false,
    }
}

/// Whether gates are those of a feature.
fn is_unstable(feature: &str, deprecated: &Option<Version>, other: &Stability) -> bool
    requires deprecated { passes is_version deprecated.now ≡ true }
    requires other { is_stability other.now ≡ true }
    ensures { result ≡ same_gates_lem (Unstable feature.now (optional_version_text deprecated.now)) (shown_gates other.now) }
{
    match other {
        Stability::Unstable {
            feature: name,
            deprecated: end,
        } => same_text(feature, name) && same_optional_version(deprecated, end),
        _ => false,
    }
}

fn is_ungated(gates: &Stability) -> bool
    ensures { result ≡ same_gates_lem Ungated (shown_gates gates.now) }
{
    match gates {
        Stability::Unknown => true,
        _ => false,
    }
}

fn same_gates(a: &Stability, b: &Stability) -> bool
    requires left { is_stability a.now ≡ true }
    requires right { is_stability b.now ≡ true }
    ensures { result ≡ same_gates_lem (shown_gates a.now) (shown_gates b.now) }
{
    match a {
        Stability::Unknown => is_ungated(b),
        Stability::Stable { since, deprecated } => is_since(since, deprecated, b),
        Stability::Unstable {
            feature,
            deprecated,
        } => is_unstable(feature, deprecated, b),
    }
}

/// Whether two texts have the same characters.
fn same_characters(a: &String, b: &String) -> bool
    ensures { result ≡ text_eq (chars (text_of a.now)) (chars (text_of b.now)) }
{
    same_text(a, b)
}

fn same_external_id(a: &Option<String>, b: &Option<String>) -> bool
    ensures { result ≡ option_eq text_eq (shown_external_id a.now) (shown_external_id b.now) }
{
    match a {
        Some(a) => match b {
            Some(b) => same_characters(a, b),
            None => false,
        },
        None => b.is_none(),
    }
}

/// Whether two uses have one interface, the same gates and the same external id.
fn same_group(a: Use, b: Use) -> bool
    requires left { is_stability a.def.now.stability ≡ true }
    requires right { is_stability b.def.now.stability ≡ true }
    ensures { result ≡ same_group_lem (shown_use a.entry) (shown_use b.entry) }
{
    a.interface.0 == b.interface.0
        && same_gates(&a.def.stability, &b.def.stability)
        && same_external_id(&a.def.external_id, &b.def.external_id)
}

// ---- calls

/// What a used type is called here, where that is another name.
fn write_own_name<O: Output>(driver: &mut Driver<O>, own: &str)
    requires same_line { LineIs O.view false driver.old }
    requires label { is_label own.now ≡ true }
    ensures calls { Drives O.view O.keeps driver.old (space ∷ OutputCall.Keyword (codes "as") ∷ space ∷ OutputCall.Ty (escaped own.now) TypeKind.TypeAlias ∷ [])
        driver.new }
    ensures line { LineIs O.view false driver.new }
{
    driver.str(" ");
    driver.keyword_and_blank("as");
    driver.name(own, TypeKind::TypeAlias);
}

/// A name of a group.
fn write_used_name<O: Output>(driver: &mut Driver<O>, own: &str, other: &str)
    requires own { is_label own.now ≡ true }
    requires other { is_label other.now ≡ true }
    ensures calls { Drives O.view O.keeps driver.old (used_name_calls (record { other = other.now; own = own_name own.now other.now })) driver.new }
    ensures line { LineIs O.view false driver.new }
{
    driver.name(other, TypeKind::TypeImport);
    if same_text(own, other) {
        return;
    }
    write_own_name(driver, own);
}

/// The path of a group, up to its names.
fn write_use_path<O: Output>(
    driver: &mut Driver<O>,
    resolve: &Resolve,
    here: PackageId,
    interface: InterfaceId,
)
    requires valid { IsValid resolve.now }
    requires in_range { in_list resolve.now.interfaces.items interface.0 ≡ true }
    requires well { is_well_path (shown_path resolve.now here interface) ≡ true }
    ensures calls { Drives O.view O.keeps driver.old (OutputCall.Keyword (codes "use") ∷ space
        ∷ (path_calls (shown_path resolve.now here interface) ++ (OutputCall.Str (codes ".{") ∷ []))) driver.new }
    ensures line { LineIs O.view false driver.new }
{
    driver.keyword_and_blank("use");
    write_path(driver, resolve, here, interface);
    driver.str(".{");
}

/// What stands before the names of a group: gates, an external id and a path.
fn write_group_start<O: Output>(
    driver: &mut Driver<O>,
    resolve: &Resolve,
    here: PackageId,
    used: Use,
)
    requires valid { IsValid resolve.now }
    requires printable { is_printable_use resolve.now here used ≡ true }
    ensures calls { Drives O.view O.keeps driver.old (group_start_calls (shown_use used.entry).prefix (shown_path resolve.now here used.entry.interface))
        driver.new }
    ensures line { LineIs O.view false driver.new }
{
    write_gates(driver, &used.def.stability);
    write_external_id(driver, &used.def.external_id);
    write_use_path(driver, resolve, here, used.interface);
}

/// A use that begins a group.
fn write_new_group<O: Output>(driver: &mut Driver<O>, resolve: &Resolve, here: PackageId, used: Use)
    requires valid { IsValid resolve.now }
    requires printable { is_printable_use resolve.now here used ≡ true }
    ensures calls { Drives O.view O.keeps driver.old (new_group_calls (shown_path resolve.now here) (shown_use used.entry)) driver.new }
    ensures line { LineIs O.view false driver.new }
{
    write_group_start(driver, resolve, here, used);
    write_used_name(driver, used.own, used.other);
}

/// A use that joins the group of the use before it.
fn write_one_more<O: Output>(driver: &mut Driver<O>, used: Use)
    requires own { is_label used.own.now ≡ true }
    requires other { is_label used.other.now ≡ true }
    ensures calls { Drives O.view O.keeps driver.old (more_names_calls (shown_use used.entry).names) driver.new }
    ensures line { LineIs O.view false driver.new }
{
    driver.str(", ");
    write_used_name(driver, used.own, used.other);
}

/// The end of a group.
fn write_group_end<O: Output>(driver: &mut Driver<O>)
    ensures calls { Drives O.view O.keeps driver.old group_end_calls driver.new }
{
    driver.str("}");
    driver.semicolon();
}

/// A use that begins a group behind another.
fn write_next_group<O: Output>(
    driver: &mut Driver<O>,
    resolve: &Resolve,
    here: PackageId,
    used: Use,
)
    requires valid { IsValid resolve.now }
    requires printable { is_printable_use resolve.now here used ≡ true }
    ensures calls { Drives O.view O.keeps driver.old (group_end_calls ++ new_group_calls (shown_path resolve.now here) (shown_use used.entry)) driver.new }
    ensures line { LineIs O.view false driver.new }
{
    write_group_end(driver);
    write_new_group(driver, resolve, here, used);
}

/// A use behind the use before it, or the first.
fn write_use<O: Output>(
    driver: &mut Driver<O>,
    resolve: &Resolve,
    here: PackageId,
    before: Option<Use>,
    used: Use,
)
    requires valid { IsValid resolve.now }
    requires before { passes (is_printable_use resolve.now here) before ≡ true }
    requires printable { is_printable_use resolve.now here used ≡ true }
    ensures calls { Drives O.view O.keeps driver.old (use_run_calls (shown_path resolve.now here) (option_map shown_use before.entry) (shown_use used.entry))
        driver.new }
    ensures line { LineIs O.view false driver.new }
{
    let other = match before {
        Some(other) => other,
        None => return write_new_group(driver, resolve, here, used),
    };
    if same_group(other, used) {
        return write_one_more(driver, used);
    }
    write_next_group(driver, resolve, here, used);
}

/// A use behind the use before it, or the first.
#[tactic(auto, using(print_items::proofs::Driven::finishing))]
fn print_use<'a, O: Output>(
    output: &mut O,
    alloc: Global,
    resolve: &'a Resolve,
    here: PackageId,
    before: Option<Use<'a>>,
    used: Use<'a>,
) -> Result<(), Error>
    requires valid { IsValid resolve.now }
    requires before { passes (is_printable_use resolve.now here) before ≡ true }
    requires printable { is_printable_use resolve.now here used ≡ true }
    ensures ok { OnOk result (Moves O.keeps (O.view output.old)
        (use_run_calls (shown_path resolve.now here) (option_map shown_use before.entry) (shown_use used.entry)) (O.view output.new)) }
    ensures err { OnErr result (Begins O.keeps (O.view output.old)
        (use_run_calls (shown_path resolve.now here) (option_map shown_use before.entry) (shown_use used.entry)) (O.view output.new)) }
    ensures memory { IfErr result IsMemory }
{
    let mut driver = Driver::new(output, alloc);
    write_use(&mut driver, resolve, here, before, used);
    driver.finish()
}

#[tactic(auto, using(print_items::proofs::Driven::finishing))]
fn print_group_end<O: Output>(output: &mut O, alloc: Global) -> Result<(), Error>
    ensures ok { OnOk result (Moves O.keeps (O.view output.old) group_end_calls (O.view output.new)) }
    ensures err { OnErr result (Begins O.keeps (O.view output.old) group_end_calls (O.view output.new)) }
    ensures memory { IfErr result IsMemory }
{
    let mut driver = Driver::new(output, alloc);
    write_group_end(&mut driver);
    driver.finish()
}

/// The end of the group of this use, if there is one.
fn print_open_end<'a, O: Output>(
    output: &mut O,
    alloc: Global,
    before: Option<Use<'a>>,
) -> Result<(), Error>
    ensures ok { OnOk result (Moves O.keeps (O.view output.old) (open_end_calls (option_map shown_use before.entry)) (O.view output.new)) }
    ensures err { OnErr result (Begins O.keeps (O.view output.old) (open_end_calls (option_map shown_use before.entry)) (O.view output.new)) }
    ensures memory { IfErr result IsMemory }
{
    match before {
        Some(_) => print_group_end(output, alloc),
        None => Ok(()),
    }
}

/// A type of an owner, if it is a use. Answers the use before the next type.
fn print_listed_use<'a, O: Output>(
    output: &mut O,
    alloc: Global,
    resolve: &'a Resolve,
    here: PackageId,
    owner: TypeOwner,
    before: Option<Use<'a>>,
    listed: (&'a str, TypeId),
) -> Result<Option<Use<'a>>, Error>
    requires valid { IsValid resolve.now }
    requires placed { same_owner_lem owner TypeOwner.None ≡ false }
    requires before { passes (is_printable_use resolve.now here) before ≡ true }
    requires known { is_listed_type resolve.now owner (as_listed listed) ≡ true }
    ensures ok { OnOk result (Moves O.keeps (O.view output.old)
        (listed_use_calls (shown_path resolve.now here) (option_map shown_use before.entry) (listed_use resolve.now owner (as_listed listed.entry)))
        (O.view output.new)) }
    ensures err { OnErr result (Begins O.keeps (O.view output.old)
        (listed_use_calls (shown_path resolve.now here) (option_map shown_use before.entry) (listed_use resolve.now owner (as_listed listed.entry)))
        (O.view output.new)) }
    ensures after { IfOk result (λ last. option_map shown_use last
        ≡ use_after (option_map shown_use before.entry) (listed_use resolve.now owner (as_listed listed.entry))) }
    ensures printable { IfOk result (λ last. passes (is_printable_use resolve.now here) last ≡ true) }
    ensures memory { IfErr result IsMemory }
{
    let def = &resolve.types[listed.1.0 as usize];
    let used = match use_of(resolve, owner, listed.0, def) {
        Some(used) => used,
        None => return Ok(before),
    };
    print_use(output, alloc, resolve, here, before, used)?;
    Ok(Some(used))
}

pub fn either(a: bool, b: bool) -> bool
    ensures { result ≡ (a || b) }
{
    a || b
}

/// The uses among types of an owner under their names, in groups. Answers whether there are any.
pub fn print_uses<'a, O: Output>(
    output: &mut O,
    alloc: Global,
    emits_docs: bool,
    has_printed: bool,
    resolve: &'a Resolve,
    here: PackageId,
    owner: TypeOwner,
    types: &[(&'a str, TypeId)],
) -> Result<bool, Error>
    requires valid { IsValid resolve.now }
    requires placed { same_owner_lem owner TypeOwner.None ≡ false }
    requires known { list_all (is_listed_type resolve.now owner) (listed_of types.now) ≡ true }
    ensures ok { OnOk result (Makes O.view O.keeps output.old (members_calls emits_docs has_printed (uses_of resolve.now here owner types.now)) output.new) }
    ensures err { OnErr result (MakesInPart O.view O.keeps output.old (members_calls emits_docs has_printed (uses_of resolve.now here owner types.now))
        output.new) }
    ensures printed { IfOk result (λ b. b ≡ printed_after has_printed (uses_of resolve.now here owner types.now)) }
    ensures memory { IfErr result IsMemory }
{
    let _emits_docs = emits_docs;
    let mut last = None;
    for listed in types {
        let next = print_listed_use(output, alloc, resolve, here, owner, last, *listed)?;
        last = next;
    }
    print_open_end(output, alloc, last)?;
    Ok(either(has_printed, last.is_some()))
}
