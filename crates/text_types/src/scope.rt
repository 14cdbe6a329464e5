//! The types that an interface or a world has, by name.
#![tactic(auto, using(crate::proofs::ScopeLaws::keeping))]

ghost use Rattle.std.specs.Prelude.{◌≡◌, ◌<◌, ℕ, [], ◌∷◌, List, Some, length, map, IfOk, OnOk};
ghost use Rattle.wit_model.specs.Text.{Text as TextModel};
ghost use Rattle.print_grammar.specs.Tree.{MemberTree.UseMember, MemberTree.TypeMember};
ghost use Rattle.text_trees.specs.{Seen.cut, TreesSeen.declared_of, TreesSeen.path_of, TreesSeen.prefix_of, TreesSeen.used_name_of};
ghost use Rattle.text_types.specs.{Declares.declared_name, Made.name_here, Made.types_of};
ghost use Rattle.wit_model.specs.declared.model.TypeDef.{TypeDef as TypeDefModel};
ghost use Rattle.text_names.specs.Orders.{links_of, IsOrder};
ghost use Rattle.text_types.specs.Needed.{AreAllBelow, AreBelow};
ghost use Rattle.text_types.specs.Scopes.{id_under, member_of_own, name_count, text_in, type_name, types_in, AddsTypes, IsCounted, IsFresh};
ghost use Rattle.text_types.specs.Scopes.{IsPlaced, KeepsPlaced, OrdersTypes, Places};
ghost use Rattle.text_plain.specs.Orders.{AreWithin};

use crate::needs::needs_of_declared;
use crate::texts::Text;
use indexmap::IndexMap;
use keyed_hash::KeyedHash;
use std::alloc::Global;
use text_names::{Fault, Need, Order, Why, order_of};
use text_trees::{Declared, PathTree, Prefix, Span, UsedName};
use wit_model::{TypeId, TypeOwner};

/// A type that an owner has by a use or by a declaration.
#[derive(Clone, Copy)]
pub(crate) enum Own<'t> {
    Used(&'t Prefix, PathTree, UsedName),
    Declared(&'t Prefix, &'t Declared),
}

/// What names stand for in an interface or a world: the text and the package that it stands in, and its types, which get their numbers as
/// they are made.
#[derive(Drop)]
pub struct Scope<'t> {
    pub text: Text<'t>,
    pub package: u32,
    pub owner: TypeOwner,
    pub(crate) types: Vec<Own<'t>>,
    names: IndexMap<&'t [u8], Option<TypeId>, KeyedHash>,
}

/// The name of a declared type.
pub(crate) fn name_of(declared: &Declared) -> Span
    ensures name { (text : TextModel) → cut text result ≡ declared_name (declared_of text declared.now) }
{
    match declared {
        Declared::RecordOf(name, _) => *name,
        Declared::VariantOf(name, _) => *name,
        Declared::FlagsOf(name, _) => *name,
        Declared::EnumOf(name, _) => *name,
        Declared::AliasOf(name, _) => *name,
        Declared::ResourceOf(name, _) => *name,
    }
}

/// What a used name is called here.
pub(crate) fn own_name(used: UsedName) -> Span
    ensures { (text : TextModel) → cut text result ≡ name_here (used_name_of text used) }
{
    match used.own {
        Some(own) => own,
        None => used.other,
    }
}

impl<'t> Scope<'t> {
    /// No types.
    pub fn new(
        alloc: Global,
        hash: KeyedHash,
        text: Text<'t>,
        package: u32,
        owner: TypeOwner,
    ) -> Scope<'t>
        ensures empty { (defs : List TypeDefModel) → IsPlaced result defs }
        ensures fresh { IsFresh result }
        ensures types { types_in result ≡ [] }
        ensures text { result.text ≡ text.entry }
        ensures home { result.«package» ≡ «package» }
        ensures owner { result.owner ≡ owner }
    {
        Scope {
            text,
            package,
            owner,
            types: Vec::new(alloc),
            names: IndexMap::with_hasher(alloc, hash),
        }
    }

    /// Adds a type of this name. Refuses a name that is there.
    fn add(&mut self, name: Span, own: Own<'t>) -> Result<(), Fault>
        requires named { cut (text_in self.old) name ≡ type_name (member_of_own (text_in self.old) own) }
        ensures adds { OnOk result (AddsTypes self.old self.new (member_of_own (text_in self.old) own.entry ∷ [])) }
    {
        let key = self.text.cut(name);
        if self.names.contains_key(&key) {
            return self.text.refused(name, Why::Twice);
        }
        self.names.insert(key, None)?;
        self.types.push(own)?;
        Ok(())
    }

    /// Adds the names of a use. Refuses a name that is there.
    pub fn add_use(
        &mut self,
        prefix: &'t Prefix,
        path: PathTree,
        names: &[UsedName],
    ) -> Result<(), Fault>
        ensures adds { OnOk result (AddsTypes self.old self.new (types_of (UseMember (prefix_of (text_in self.old) prefix.now)
            (path_of (text_in self.old) path) (map (used_name_of (text_in self.old)) names.now)))) }
    {
        for used in names {
            self.add(own_name(*used), Own::Used(prefix, path, *used))?;
        }
        Ok(())
    }

    /// Adds a declared type. Refuses a name that is there.
    pub fn add_type(&mut self, prefix: &'t Prefix, declared: &'t Declared) -> Result<(), Fault>
        ensures adds { OnOk result (AddsTypes self.old self.new (TypeMember (prefix_of (text_in self.old) prefix.now)
            (declared_of (text_in self.old) declared.now) ∷ [])) }
    {
        self.add(name_of(declared), Own::Declared(prefix, declared))
    }

    /// Whether a type has this name.
    pub fn has(&self, name: Span) -> bool {
        self.names.contains_key(&self.text.cut(name))
    }

    /// The type of a name, by its place among the types of the scope.
    pub(crate) fn place_of(&self, name: Span) -> Result<usize, Fault>
        ensures within { IfOk result (λ place. place < name_count self.now) }
    {
        match self.names.get_index_of(&self.text.cut(name)) {
            Some(place) => Ok(place),
            None => self.text.refused(name, Why::NoType),
        }
    }

    /// The number of the type that a name stands for.
    pub(crate) fn id_of(&self, name: Span) -> Result<TypeId, Fault>
        ensures found { IfOk result (λ id. id_under self.now (cut (text_in self.now) name) ≡ Some (Some id)) }
    {
        match self.names.get(&self.text.cut(name)) {
            Some(Some(id)) => Ok(*id),
            Some(None) => self.text.refused(name, Why::NoType),
            None => self.text.refused(name, Why::NoType),
        }
    }

    /// The type of a name has been made.
    pub(crate) fn made(&mut self, name: Span, id: TypeId) -> Result<(), Fault>
        ensures placed { OnOk result (Places self.old self.new (cut (text_in self.old) name) id) }
    {
        self.names.insert(self.text.cut(name), Some(id))?;
        Ok(())
    }

    /// What a type of the scope needs.
    fn needs_of(&self, alloc: Global, own: Own<'t>) -> Result<Vec<Need>, Fault>
        ensures { IfOk result (λ needs. AreBelow (name_count self.now) needs.items) }
    {
        let mut needs = Vec::new(alloc);
        match own {
            Own::Used(_, _, _) => {}
            Own::Declared(_, declared) => needs_of_declared(self, declared, &mut needs)?,
        }
        Ok(needs)
    }

    /// What each type of the scope needs.
    fn all_needs(&self, alloc: Global) -> Result<Vec<Vec<Need>>, Fault>
        requires { IsCounted self.now }
        ensures within { IfOk result (λ all. AreWithin (links_of all.items)) }
        ensures long { IfOk result (λ all. length all.items ≡ length self.now.types.items) }
    {
        let mut all = Vec::with_capacity(alloc, self.types.len())?;
        for own in &self.types {
            all.push(self.needs_of(alloc, *own)?)?;
        }
        Ok(all)
    }

    /// The places of the types, in an order in which they can be made.
    pub(crate) fn order(&self, alloc: Global) -> Result<Vec<u32>, Fault>
        requires { IsCounted self.now }
        ensures order { IfOk result (λ order. OrdersTypes self.now order.items) }
    {
        let all = self.all_needs(alloc)?;
        match order_of(alloc, &all)? {
            Order::Numbers(order) => Ok(order),
            Order::Cycle(_, need) => self.text.refused(need.at, Why::Cycle),
        }
    }
}
