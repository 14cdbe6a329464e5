//! What an interface has.
#![tactic(auto, using(crate::proofs::Growth::growing, crate::proofs::ScopeLaws::keeping))]

ghost use Rattle.std.specs.Prelude.{◌≡◌, ◌<◌, ◌∷◌, [], length, map, None, IfOk, OnOk};
ghost use Rattle.std.specs.{HashMap.get_by_text, List.flat_map};
ghost use Rattle.wit_model.specs.Text.{text_of};
ghost use Rattle.print_grammar.specs.Tree.{MemberTree.UseMember, MemberTree.TypeMember};
ghost use Rattle.text_names.specs.{Contents.text_at, Tables.IsIndex};
ghost use Rattle.text_trees.specs.{Seen.cut, TreesSeen.declared_of, TreesSeen.member_of, TreesSeen.path_of, TreesSeen.prefix_of, TreesSeen.used_name_of};
ghost use Rattle.text_types.specs.{Declares.declared_name, Declares.DeclaredAt};
ghost use Rattle.text_types.specs.{Kept.defs_of, Kept.Grows, Plain.plain_declared, Scopes.text_in, Scopes.types_in};
ghost use Rattle.text_types.specs.Made.{functions_of, functions_of_declared, types_of, IsOfPlace};
ghost use Rattle.text_types.specs.Making.{AddsAll, AddsEntry, AddsFunctions, AreTypesOf, IsHere, IsTypeOf, MakesMembers, MakesUnder, UsesType};
ghost use Rattle.text_types.specs.Scopes.{made_under, AddsTypes, Agrees, IsFresh, IsPlaced, Places, StaysIn};
ghost use Rattle.text_types.specs.Targets.{HasType};

use crate::declared::{add_declared, add_named};
use crate::functions::{Callable, function_of, functions_of_resource};
use crate::scope::{Own, Scope, name_of, own_name};
use crate::texts::{no_docs, string_of};
use crate::types::Types;
use std::alloc::Global;
use text_names::{Fault, Sources, Why};
use text_trees::{Declared, MemberTree, PathTree, Prefix, Span, UsedName};
use wit_model::{Function, Interface, Map, Type, TypeDefKind, TypeId};

/// The interfaces that are made so far, and the number of each interface of the texts, once it is made.
#[derive(Drop)]
pub struct Interfaces {
    pub list: Vec<Interface>,
    pub numbers: Vec<Option<u32>>,
}

impl Interfaces {
    /// The type of this name of an interface of the texts.
    fn type_of(&self, scope: &Scope<'_>, interface: u32, used: UsedName) -> Result<TypeId, Fault>
        ensures found { IfOk result (HasType self.now interface (cut (text_in scope.now) used.other)) }
    {
        match self.numbers.get(interface as usize) {
            Some(Some(number)) => match self.list.get(*number as usize) {
                Some(interface) => match interface.types.get(scope.text.part(used.other)?) {
                    Some(id) => Ok(*id),
                    None => scope.text.refused(used.other, Why::NoType),
                },
                None => scope.text.refused(used.other, Why::NoType),
            },
            _ => scope.text.refused(used.other, Why::NoType),
        }
    }
}

/// The types and the functions of an interface, under their names.
#[derive(Drop)]
pub struct Members {
    pub types: Map<String, TypeId>,
    pub functions: Map<String, Function>,
}

fn add_used<'t>(
    alloc: Global,
    sources: &Sources<'t>,
    interfaces: &Interfaces,
    scope: &Scope<'t>,
    types: &mut Types,
    prefix: &Prefix,
    path: PathTree,
    used: UsedName,
) -> Result<TypeId, Fault>
    requires index { IsIndex sources.now }
    requires here { IsHere sources.now scope.now }
    ensures grows { Grows types.old types.new }
    ensures added { IfOk result (UsesType sources.now interfaces.now (defs_of types.new) scope.now (prefix_of (text_in scope.now) prefix.now)
        (path_of (text_in scope.now) path) (used_name_of (text_in scope.now) used)) }
{
    let interface = sources.interface_of(scope.text.number, scope.package, path)?;
    let target = interfaces.type_of(scope, interface, used)?;
    let kind = TypeDefKind::Type_(Type::Id(target));
    add_named(alloc, scope, types, no_docs(), prefix, own_name(used), kind)
}

impl<'t> Scope<'t> {
    /// Places the type of a name, and answers both.
    fn place(&mut self, alloc: Global, name: Span, id: TypeId) -> Result<(String, TypeId), Fault>
        ensures placed { OnOk result (Places self.old self.new (cut (text_in self.old) name) id) }
        ensures named { IfOk result (λ r. text_of r.0 ≡ cut (text_in self.old) name) }
        ensures number { IfOk result (λ r. r.1 ≡ id) }
    {
        let text = string_of(alloc, &self.text, name)?;
        self.made(name, id)?;
        Ok((text, id))
    }

    /// Makes the type of a use.
    fn make_used(
        &mut self,
        alloc: Global,
        sources: &Sources<'t>,
        interfaces: &Interfaces,
        types: &mut Types,
        prefix: &Prefix,
        path: PathTree,
        used: UsedName,
    ) -> Result<(String, TypeId), Fault>
        requires placed { IsPlaced self.old (defs_of types.old) }
        requires index { IsIndex sources.now }
        requires here { IsHere sources.now self.old }
        ensures grows { Grows types.old types.new }
        ensures placed { OnOk result (StaysIn self.old self.new (defs_of types.new)) }
        ensures made { IfOk result (IsTypeOf sources.now interfaces.now (defs_of types.new) self.old (UseMember (prefix_of (text_in self.old) prefix.now)
            (path_of (text_in self.old) path) (used_name_of (text_in self.old) used ∷ []))) }
        ensures under { IfOk result (MakesUnder self.old self.new) }
    {
        let id = add_used(alloc, sources, interfaces, self, types, prefix, path, used)?;
        self.place(alloc, own_name(used), id)
    }

    /// Makes a declared type.
    fn make_declared(
        &mut self,
        alloc: Global,
        sources: &Sources<'t>,
        types: &mut Types,
        prefix: &Prefix,
        declared: &Declared,
    ) -> Result<(String, TypeId), Fault>
        requires { IsPlaced self.old (defs_of types.old) }
        ensures grows { Grows types.old types.new }
        ensures placed { OnOk result (StaysIn self.old self.new (defs_of types.new)) }
        ensures named { IfOk result (λ r. text_of r.0 ≡ declared_name (declared_of (text_in self.old) declared.now)) }
        ensures made { IfOk result (λ r. DeclaredAt (defs_of types.new) self.old.owner (prefix_of (text_in self.old) prefix.now)
            (plain_declared (declared_of (text_in self.old) declared.now)) r.1) }
        ensures under { IfOk result (MakesUnder self.old self.new) }
    {
        let id = add_declared(alloc, sources.hash, self, types, prefix, declared)?;
        self.place(alloc, name_of(declared), id)
    }

    /// Makes the type at a place.
    fn make(
        &mut self,
        alloc: Global,
        sources: &Sources<'t>,
        interfaces: &Interfaces,
        types: &mut Types,
        place: usize,
    ) -> Result<(String, TypeId), Fault>
        requires within { place < length self.old.types.items }
        requires placed { IsPlaced self.old (defs_of types.old) }
        requires index { IsIndex sources.now }
        requires here { IsHere sources.now self.old }
        ensures grows { Grows types.old types.new }
        ensures placed { OnOk result (StaysIn self.old self.new (defs_of types.new)) }
        ensures made { IfOk result (IsOfPlace (IsTypeOf sources.now interfaces.now (defs_of types.new) self.old) (types_in self.old) place) }
        ensures under { IfOk result (MakesUnder self.old self.new) }
    {
        match self.types[place] {
            Own::Used(prefix, path, used) => {
                self.make_used(alloc, sources, interfaces, types, prefix, path, used)
            }
            Own::Declared(prefix, declared) => {
                self.make_declared(alloc, sources, types, prefix, declared)
            }
        }
    }

    /// Makes all types of the scope, and answers their names and numbers, in the order in which they are made.
    pub fn make_all(
        &mut self,
        alloc: Global,
        sources: &Sources<'t>,
        interfaces: &Interfaces,
        types: &mut Types,
    ) -> Result<Map<String, TypeId>, Fault>
        requires placed { IsPlaced self.old (defs_of types.old) }
        requires index { IsIndex sources.now }
        requires here { IsHere sources.now self.old }
        requires fresh { IsFresh self.old }
        ensures grows { Grows types.old types.new }
        ensures placed { OnOk result (StaysIn self.old self.new (defs_of types.new)) }
        ensures made { IfOk result (AreTypesOf sources.now interfaces.now (defs_of types.new) self.old) }
        ensures agrees { IfOk result (λ all. Agrees all self.new) }
    {
        let order = self.order(alloc)?;
        let mut all = Map::new(alloc);
        for place in &order {
            let entry = self.make(alloc, sources, interfaces, types, *place as usize)?;
            add_entry(&mut all, entry)?;
        }
        Ok(all)
    }
}

/// Adds a type. No other has its name.
fn add_entry(all: &mut Map<String, TypeId>, entry: (String, TypeId)) -> Result<(), Fault>
    requires { get_by_text all.old (text_of entry.0) ≡ None }
    ensures adds { OnOk result (AddsEntry entry all.old all.new) }
{
    let (name, id) = entry;
    all.insert(name, id)?;
    Ok(())
}

/// Adds a function. Refuses a name that is there.
fn add_function(
    alloc: Global,
    scope: &Scope<'_>,
    functions: &mut Map<String, Function>,
    callable: Callable,
) -> Result<(), Fault>
    ensures adds { OnOk result (AddsAll (callable ∷ []) functions.old functions.new) }
{
    let at = callable.at;
    let key = String::from_str(alloc, &callable.function.name)?;
    if functions.insert(key, callable.function)?.is_some() {
        return scope.text.refused(at, Why::Twice);
    }
    Ok(())
}

fn add_all(
    alloc: Global,
    scope: &Scope<'_>,
    functions: &mut Map<String, Function>,
    callables: Vec<Callable>,
) -> Result<(), Fault>
    ensures adds { OnOk result (AddsAll callables.items functions.old functions.new) }
{
    for callable in callables {
        add_function(alloc, scope, functions, callable)?;
    }
    Ok(())
}

/// Adds what types a member is.
fn add_types_of<'t>(scope: &mut Scope<'t>, member: &'t MemberTree) -> Result<(), Fault>
    ensures adds { OnOk result (AddsTypes scope.old scope.new (types_of (member_of (text_in scope.old) member.now))) }
{
    match member {
        MemberTree::UseMember(prefix, path, names) => scope.add_use(prefix, *path, names),
        MemberTree::TypeMember(prefix, declared) => scope.add_type(prefix, declared),
        MemberTree::FunctionMember(_, _, _) => Ok(()),
    }
}

fn add_types<'t>(scope: &mut Scope<'t>, members: &'t [MemberTree]) -> Result<(), Fault>
    ensures adds { OnOk result (AddsTypes scope.old scope.new (flat_map types_of (map (member_of (text_in scope.old)) members.now))) }
{
    for member in members {
        add_types_of(scope, member)?;
    }
    Ok(())
}

/// Adds the functions of a declared type.
fn add_declared_functions<'t>(
    alloc: Global,
    sources: &Sources<'t>,
    scope: &Scope<'t>,
    types: &mut Types,
    functions: &mut Map<String, Function>,
    declared: &Declared,
) -> Result<(), Fault>
    requires { IsPlaced scope.now (defs_of types.old) }
    ensures grows { Grows types.old types.new }
    ensures adds { OnOk result (AddsFunctions (defs_of types.new) (λ name. made_under scope.now name)
        (functions_of_declared (declared_of (text_in scope.now) declared.now)) functions.old functions.new) }
{
    match declared {
        Declared::ResourceOf(name, inner) => {
            let callables = functions_of_resource(alloc, sources.hash, scope, types, *name, inner)?;
            add_all(alloc, scope, functions, callables)
        }
        Declared::RecordOf(_, _) => Ok(()),
        Declared::VariantOf(_, _) => Ok(()),
        Declared::FlagsOf(_, _) => Ok(()),
        Declared::EnumOf(_, _) => Ok(()),
        Declared::AliasOf(_, _) => Ok(()),
    }
}

/// Adds what functions a member is.
fn add_functions<'t>(
    alloc: Global,
    sources: &Sources<'t>,
    scope: &Scope<'t>,
    types: &mut Types,
    functions: &mut Map<String, Function>,
    member: &MemberTree,
) -> Result<(), Fault>
    requires { IsPlaced scope.now (defs_of types.old) }
    ensures grows { Grows types.old types.new }
    ensures adds { OnOk result (AddsFunctions (defs_of types.new) (λ name. made_under scope.now name)
        (functions_of (member_of (text_in scope.now) member.now)) functions.old functions.new) }
{
    match member {
        MemberTree::TypeMember(_, declared) => {
            add_declared_functions(alloc, sources, scope, types, functions, declared)
        }
        MemberTree::FunctionMember(prefix, name, signature) => {
            if scope.has(*name) {
                return scope.text.refused(*name, Why::Twice);
            }
            let function = function_of(
                alloc,
                sources.hash,
                scope,
                types,
                prefix,
                *name,
                signature,
            )?;
            let callable = Callable {
                function,
                at: *name,
            };
            add_function(alloc, scope, functions, callable)
        }
        MemberTree::UseMember(_, _, _) => Ok(()),
    }
}

/// What an interface with these members has. The scope is empty before.
pub fn members_of<'t>(
    alloc: Global,
    sources: &Sources<'t>,
    interfaces: &Interfaces,
    scope: &mut Scope<'t>,
    types: &mut Types,
    members: &'t [MemberTree],
) -> Result<Members, Fault>
    requires placed { IsPlaced scope.old (defs_of types.old) }
    requires index { IsIndex sources.now }
    requires here { IsHere sources.now scope.old }
    requires fresh { IsFresh scope.old }
    requires empty { types_in scope.old ≡ [] }
    ensures grows { Grows types.old types.new }
    ensures made { IfOk result (MakesMembers sources.now interfaces.now (defs_of types.new) scope.old (map (member_of (text_in scope.old)) members.now)) }
{
    add_types(scope, members)?;
    let own = scope.make_all(alloc, sources, interfaces, types)?;
    let mut functions = Map::new(alloc);
    for member in members {
        add_functions(alloc, sources, scope, types, &mut functions, member)?;
    }
    Ok(Members {
        types: own,
        functions,
    })
}
