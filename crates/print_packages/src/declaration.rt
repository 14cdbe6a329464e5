//! Declared types, printed.
#![tactic(auto, using(print_items::proofs::Driven::driving))]

ghost use Rattle.std.specs.Prelude.{◌≡◌, ◌∷◌, [], true, filter, map, Some, IfOk, OnErr, OnOk, IfErr};
ghost use Rattle.std.specs.List.{list_all};
ghost use Rattle.wit_model.specs.{Lookup.type_at, Valid.IsValid, Refusals.IsMemory};
ghost use Rattle.print_items.specs.{Drives.Drives, Shown.belongs_to as belongs_to_lem, Shown.present_name};
ghost use Rattle.print_output.specs.OutputCall.{Moves, Begins};
ghost use Rattle.print_grammar.specs.{Calls.declared_calls, Calls.members_calls, Calls.printed_after, WellNamed.is_well_declared, WellNamed.is_well_prefix};
ghost use Rattle.print_uses.specs.Printable.{declaration_of, is_printable_type};
ghost use Rattle.print_uses.specs.UseGroups.{as_listed, is_listed_function, is_listed_type, listed_declaration, listed_of};
ghost use Rattle.print_packages.specs.GivenTypes.{functions_under as under, given_declarations};
ghost use Rattle.print_packages.specs.Members.{declared_under, type_member, type_prefix};

use crate::interface::write_line_before;
use print_items::{
    Driver, present, write_carrier_alias, write_enum, write_fixed_list_alias, write_flags,
    write_handle_alias, write_kind_alias, write_list_alias, write_map_alias, write_prefix,
    write_record, write_resource, write_type_alias, write_variant,
};
use print_output::{Output, TypeKind};
use print_uses::use_of;
use std::alloc::{AllocError, Global};
use std::collections::HashMap;
use wit_model::{Error, Function, Resolve, TypeDef, TypeDefKind, TypeId, TypeOwner};

/// A declared type under a name, with its functions if it is a resource.
fn write_declared<O: Output>(
    driver: &mut Driver<O>,
    emits_docs: bool,
    resolve: &Resolve,
    id: TypeId,
    name: &str,
    def: &TypeDef,
    functions: &[&Function],
)
    requires valid { IsValid resolve.now }
    requires at { type_at resolve.now id.0 ≡ Some def.now }
    requires well { is_well_declared (declared_under resolve.now name.now functions.now def.now) ≡ true }
    ensures calls { Drives O.view O.keeps driver.old (declared_calls emits_docs (declared_under resolve.now name.now functions.now def.now)) driver.new }
{
    match &def.kind {
        TypeDefKind::Record(of) => write_record(driver, emits_docs, resolve, name, of),
        TypeDefKind::Variant(of) => write_variant(driver, emits_docs, resolve, name, of),
        TypeDefKind::Flags(of) => write_flags(driver, emits_docs, name, of),
        TypeDefKind::Enum(of) => write_enum(driver, emits_docs, name, of),
        TypeDefKind::Resource => write_resource(driver, emits_docs, resolve, name, functions),
        TypeDefKind::Type_(ty) => write_type_alias(driver, resolve, name, ty),
        TypeDefKind::Handle(handle) => write_handle_alias(driver, resolve, name, handle),
        TypeDefKind::Tuple(_) => write_kind_alias(driver, resolve, id, name, TypeKind::Tuple),
        TypeDefKind::Option(_) => write_kind_alias(driver, resolve, id, name, TypeKind::Option),
        TypeDefKind::Result(_) => write_kind_alias(driver, resolve, id, name, TypeKind::Result),
        TypeDefKind::List(ty) => write_list_alias(driver, resolve, name, ty),
        TypeDefKind::FixedLengthList(ty, length) => {
            write_fixed_list_alias(driver, resolve, name, ty, *length)
        }
        TypeDefKind::Map(key, value) => write_map_alias(driver, resolve, name, key, value),
        TypeDefKind::Future(payload) => {
            write_carrier_alias(driver, resolve, name, TypeKind::Future, "future", payload)
        }
        TypeDefKind::Stream(payload) => {
            write_carrier_alias(driver, resolve, name, TypeKind::Stream, "stream", payload)
        }
    }
}

/// A declared type with what stands in front of it, an item of its block.
fn write_declaration<O: Output>(
    driver: &mut Driver<O>,
    emits_docs: bool,
    has_printed: bool,
    resolve: &Resolve,
    id: TypeId,
    def: &TypeDef,
    functions: &[&Function],
)
    requires valid { IsValid resolve.now }
    requires at { type_at resolve.now id.0 ≡ Some def.now }
    requires prefix { is_well_prefix (type_prefix def.now) ≡ true }
    requires well { is_well_declared (declared_under resolve.now (present_name def.now.name) functions.now def.now) ≡ true }
    ensures calls { Drives O.view O.keeps driver.old (members_calls emits_docs has_printed (type_member resolve.now functions.now def.now ∷ [])) driver.new }
{
    write_line_before(driver, has_printed);
    write_prefix(
        driver,
        emits_docs,
        &def.docs,
        &def.stability,
        &def.external_id,
    );
    let name = present(&def.name);
    write_declared(driver, emits_docs, resolve, id, name, def, functions);
}

#[tactic(auto, using(print_items::proofs::Driven::finishing))]
fn print_declaration<'a, O: Output>(
    output: &mut O,
    alloc: Global,
    emits_docs: bool,
    has_printed: bool,
    resolve: &'a Resolve,
    id: TypeId,
    def: &'a TypeDef,
    functions: &[&'a Function],
) -> Result<(), Error>
    requires valid { IsValid resolve.now }
    requires at { type_at resolve.now id.0 ≡ Some def.now }
    requires prefix { is_well_prefix (type_prefix def.now) ≡ true }
    requires well { is_well_declared (declared_under resolve.now (present_name def.now.name) functions.now def.now) ≡ true }
    ensures ok { OnOk result (Moves O.keeps (O.view output.old) (members_calls emits_docs has_printed (type_member resolve.now functions.now def.now ∷ []))
        (O.view output.new)) }
    ensures err { OnErr result (Begins O.keeps (O.view output.old) (members_calls emits_docs has_printed (type_member resolve.now functions.now def.now ∷ []))
        (O.view output.new)) }
    ensures memory { IfErr result IsMemory }
{
    let mut driver = Driver::new(output, alloc);
    write_declaration(
        &mut driver,
        emits_docs,
        has_printed,
        resolve,
        id,
        def,
        functions,
    );
    driver.finish()
}

/// Whether a function belongs to the resource of this number.
fn belongs_to(resource: TypeId, function: &Function) -> bool
    ensures { result ≡ belongs_to_lem resource function.now }
{
    match function.kind.resource() {
        Some(other) => other.0 == resource.0,
        None => false,
    }
}

/// The functions of a resource among these, in their order.
fn functions_of<'a>(
    alloc: Global,
    resource: TypeId,
    functions: &[&'a Function],
) -> Result<Vec<&'a Function>, AllocError>
    ensures { IfOk result (λ found. map (λ f. f.now) found.items ≡ filter (belongs_to_lem resource) (map (λ f. f.now) functions.now)) }
{
    let mut found = Vec::new(alloc);
    for function in functions {
        let function = *function;
        if belongs_to(resource, function) {
            found.push(function)?;
        }
    }
    Ok(found)
}

/// A type of an owner, with its functions among these if it is a resource.
fn print_owned<'a, O: Output>(
    output: &mut O,
    alloc: Global,
    emits_docs: bool,
    has_printed: bool,
    resolve: &'a Resolve,
    id: TypeId,
    functions: &[&'a Function],
) -> Result<(), Error>
    requires valid { IsValid resolve.now }
    requires printable { is_printable_type resolve.now (map (λ f. f.now) functions.now) id ≡ true }
    ensures ok { OnOk result (Moves O.keeps (O.view output.old)
        (members_calls emits_docs has_printed (declaration_of resolve.now (map (λ f. f.now) functions.now) id)) (O.view output.new)) }
    ensures err { OnErr result (Begins O.keeps (O.view output.old)
        (members_calls emits_docs has_printed (declaration_of resolve.now (map (λ f. f.now) functions.now) id)) (O.view output.new)) }
    ensures memory { IfErr result IsMemory }
{
    let def = &resolve.types[id.0 as usize];
    let members = functions_of(alloc, id, functions)?;
    print_declaration(
        output,
        alloc,
        emits_docs,
        has_printed,
        resolve,
        id,
        def,
        &members,
    )
}

/// A type of an owner, if it is no use. Answers whether the block has printed something then.
fn print_listed_type<'a, O: Output>(
    output: &mut O,
    alloc: Global,
    emits_docs: bool,
    has_printed: bool,
    resolve: &'a Resolve,
    owner: TypeOwner,
    listed: (&'a str, TypeId),
    functions: &[&'a Function],
) -> Result<bool, Error>
    requires valid { IsValid resolve.now }
    requires known { is_listed_type resolve.now owner (as_listed listed) ≡ true }
    requires functions { list_all (is_listed_function resolve.now owner) (map (λ f. f.now) functions.now) ≡ true }
    ensures ok { OnOk result (Moves O.keeps (O.view output.old)
        (members_calls emits_docs has_printed (listed_declaration resolve.now owner (map (λ f. f.now) functions.now) (as_listed listed.entry)))
        (O.view output.new)) }
    ensures err { OnErr result (Begins O.keeps (O.view output.old)
        (members_calls emits_docs has_printed (listed_declaration resolve.now owner (map (λ f. f.now) functions.now) (as_listed listed.entry)))
        (O.view output.new)) }
    ensures printed { IfOk result (λ b. b ≡ printed_after has_printed
        (listed_declaration resolve.now owner (map (λ f. f.now) functions.now) (as_listed listed.entry))) }
    ensures memory { IfErr result IsMemory }
{
    let def = &resolve.types[listed.1.0 as usize];
    if use_of(resolve, owner, listed.0, def).is_some() {
        return Ok(has_printed);
    }
    print_owned(
        output,
        alloc,
        emits_docs,
        has_printed,
        resolve,
        listed.1,
        functions,
    )?;
    Ok(true)
}

/// A type of an owner, if it is no use, with the functions under it if it is a resource. Answers whether the block has printed
/// something then.
fn print_type_with_functions<'a, O: Output>(
    output: &mut O,
    alloc: Global,
    emits_docs: bool,
    has_printed: bool,
    resolve: &'a Resolve,
    owner: TypeOwner,
    listed: (&'a str, TypeId),
    functions: &HashMap<TypeId, Vec<&'a Function>>,
) -> Result<bool, Error>
    requires valid { IsValid resolve.now }
    requires known { is_listed_type resolve.now owner (as_listed listed) ≡ true }
    requires functions { list_all (is_listed_function resolve.now owner) (under functions.now.entries listed.1) ≡ true }
    ensures ok { OnOk result (Moves O.keeps (O.view output.old)
        (members_calls emits_docs has_printed (listed_declaration resolve.now owner (under functions.now.entries listed.entry.1)
        (as_listed listed.entry))) (O.view output.new)) }
    ensures err { OnErr result (Begins O.keeps (O.view output.old)
        (members_calls emits_docs has_printed (listed_declaration resolve.now owner (under functions.now.entries listed.entry.1)
        (as_listed listed.entry))) (O.view output.new)) }
    ensures printed { IfOk result (λ b. b ≡ printed_after has_printed
        (listed_declaration resolve.now owner (under functions.now.entries listed.entry.1) (as_listed listed.entry))) }
    ensures memory { IfErr result IsMemory }
{
    let found = match functions.get(&listed.1) {
        Some(found) => found,
        None => {
            return print_listed_type(
                output,
                alloc,
                emits_docs,
                has_printed,
                resolve,
                owner,
                listed,
                &[],
            );
        }
    };
    print_listed_type(
        output,
        alloc,
        emits_docs,
        has_printed,
        resolve,
        owner,
        listed,
        found,
    )
}

/// The types of an owner that are no uses, each an item of its block, a resource with the functions under it. One is printed at a
/// time. Answers whether the block has printed something then.
pub(crate) fn print_declarations<'a, O: Output>(
    output: &mut O,
    alloc: Global,
    emits_docs: bool,
    has_printed: bool,
    resolve: &'a Resolve,
    owner: TypeOwner,
    types: &[(&'a str, TypeId)],
    functions: &HashMap<TypeId, Vec<&'a Function>>,
) -> Result<bool, Error>
    requires valid { IsValid resolve.now }
    requires known { list_all (is_listed_type resolve.now owner) (listed_of types.now) ≡ true }
    requires functions { (id : TypeId) → list_all (is_listed_function resolve.now owner) (under functions.now.entries id) ≡ true }
    ensures ok { OnOk result (Moves O.keeps (O.view output.old)
        (members_calls emits_docs has_printed (given_declarations resolve.now owner functions.now.entries (listed_of types.now))) (O.view output.new)) }
    ensures err { OnErr result (Begins O.keeps (O.view output.old)
        (members_calls emits_docs has_printed (given_declarations resolve.now owner functions.now.entries (listed_of types.now))) (O.view output.new)) }
    ensures printed { IfOk result (λ b. b ≡ printed_after has_printed (given_declarations resolve.now owner functions.now.entries (listed_of types.now))) }
    ensures memory { IfErr result IsMemory }
{
    let mut has_printed = has_printed;
    for listed in types {
        let printed = print_type_with_functions(
            output,
            alloc,
            emits_docs,
            has_printed,
            resolve,
            owner,
            *listed,
            functions,
        )?;
        has_printed = printed;
    }
    Ok(has_printed)
}
