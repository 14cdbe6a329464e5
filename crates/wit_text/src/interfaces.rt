//! Interfaces: those of the texts, and those that stand in worlds.
#![tactic(auto, using(text_types::proofs::Growth::growing, text_types::proofs::ScopeLaws::keeping))]

ghost use Rattle.std.specs.Prelude.{◌≡◌, length, map, IfOk};
ghost use Rattle.text_names.specs.{Contents.text_at, Tables.IsIndex};
ghost use Rattle.text_trees.specs.TreesSeen.{member_of};
ghost use Rattle.text_types.specs.Kept.{defs_of, Grows};
ghost use Rattle.wit_text.specs.MadeInterfaces.{AddsInline, AddsInterface};

use std::alloc::Global;
use text_names::{Fault, InterfaceSource, Sources, WorldSource};
use text_trees::MemberTree;
use text_types::{
    Interfaces, Scope, Text, Types, docs_of, members_of, no_docs, stability_of, string_of,
};
use wit_model::{Interface, InterfaceId, PackageId, Stability, TypeOwner};

fn next(interfaces: &Interfaces) -> Result<u32, Fault>
    ensures { IfOk result (λ n. n ≡ length interfaces.now.list.items) }
{
    match u32::try_from(interfaces.list.len()) {
        Ok(number) => Ok(number),
        Err(_) => Err(Fault::Size),
    }
}

/// The text of this number.
pub(crate) fn text_of<'t>(sources: &Sources<'t>, number: u32) -> Text<'t>
    ensures number { result.number ≡ number }
    ensures text { result.text.now ≡ text_at sources.now.texts.now number }
{
    Text {
        number,
        text: sources.text(number),
    }
}

/// Makes an interface of the texts.
pub(crate) fn add_interface<'t>(
    alloc: Global,
    sources: &Sources<'t>,
    interfaces: &mut Interfaces,
    types: &mut Types,
    source: &InterfaceSource<'t>,
) -> Result<u32, Fault>
    requires { IsIndex sources.now }
    ensures grows { Grows types.old types.new }
    ensures added { IfOk result (AddsInterface sources.now interfaces.old interfaces.new (defs_of types.new) source.now) }
{
    let number = next(interfaces)?;
    let text = text_of(sources, source.text);
    let owner = TypeOwner::Interface(InterfaceId(number));
    let mut scope = Scope::new(alloc, sources.hash, text, source.package, owner);
    let members = members_of(
        alloc,
        sources,
        interfaces,
        &mut scope,
        types,
        source.members.as_slice(),
    )?;
    interfaces.list.push(Interface {
        name: Some(string_of(alloc, &text, source.name)?),
        types: members.types,
        functions: members.functions,
        docs: docs_of(alloc, text.text, source.docs)?,
        stability: stability_of(alloc, &text, source.gates)?,
        package: Some(PackageId(source.package)),
    })?;
    Ok(number)
}

/// Makes an interface that stands in a world. Its documentation is that of the import or the export.
pub(crate) fn add_inline<'t>(
    alloc: Global,
    sources: &Sources<'t>,
    interfaces: &mut Interfaces,
    types: &mut Types,
    world: &WorldSource<'t>,
    members: &'t [MemberTree],
) -> Result<u32, Fault>
    requires { IsIndex sources.now }
    ensures grows { Grows types.old types.new }
    ensures added { IfOk result (AddsInline sources.now interfaces.old interfaces.new (defs_of types.new) world.now.«package»
        (map (member_of (text_at sources.now.texts.now world.now.text)) members.now)) }
{
    let number = next(interfaces)?;
    let text = text_of(sources, world.text);
    let owner = TypeOwner::Interface(InterfaceId(number));
    let mut scope = Scope::new(alloc, sources.hash, text, world.package, owner);
    let members = members_of(alloc, sources, interfaces, &mut scope, types, members)?;
    interfaces.list.push(Interface {
        name: None,
        types: members.types,
        functions: members.functions,
        docs: no_docs(),
        stability: Stability::Unknown,
        package: Some(PackageId(world.package)),
    })?;
    Ok(number)
}
