//! The packages, interfaces and worlds that texts declare.

ghost use Rattle.std.specs.Prelude.{◌≡◌, ℕ, ◌∷◌, [], option_map, IfOk, IfErr, OnOk};
ghost use Rattle.text_plain.specs.declared.files.ItemTree.TheVariants.{InterfaceItem, WorldItem};
ghost use Rattle.text_trees.specs.Seen.{cut as cut_lem};
ghost use Rattle.text_trees.specs.TreesSeen.{head_of as head_seen};
ghost use Rattle.text_names.specs.Contents.{all_heads, all_items, all_mains, heads_in, items_of, main_of, text_at, IsFaultOf};
ghost use Rattle.text_names.specs.Faults.{IsMemoryOrSize};
ghost use Rattle.text_names.specs.Paths.{IsHome, IsInterfaceOf, IsRefusalOf};
ghost use Rattle.text_names.specs.Tables.{entry_of, head_of_key, interface_in, Adds, AddsItems, AddsPackages, Declares};
ghost use Rattle.text_names.specs.Tables.{Fails, FailsItems, FailsPackages, IsIndex, IsNumberOf, Numbers, PutsOrStands};

use crate::error::{Fault, Why};
use crate::hashes::hash_of;
use crate::source::{Source, cut, number_behind, refused};
use indexmap::{IndexMap, IndexSet};
use keyed_hash::KeyedHash;
use std::alloc::{AllocError, Global};
use text_plain::{ItemTree, PackageTree};
use text_trees::{Gates, MemberTree, PackageHead, PathTree, Span, WorldMember};

/// A package, by the first text that declares it, and what names it there.
#[derive(Clone, Copy)]
pub struct PackageSource {
    pub text: u32,
    pub head: PackageHead,
}

/// An interface, by its package and its text.
#[derive(Clone, Copy)]
pub struct InterfaceSource<'t> {
    pub package: u32,
    pub text: u32,
    /// The gap with the documentation.
    pub docs: Span,
    pub gates: Gates,
    pub name: Span,
    pub members: &'t Vec<MemberTree>,
}

/// A world, by its package and its text.
#[derive(Clone, Copy)]
pub struct WorldSource<'t> {
    pub package: u32,
    pub text: u32,
    /// The gap with the documentation.
    pub docs: Span,
    pub gates: Gates,
    pub name: Span,
    pub members: &'t Vec<WorldMember>,
}

/// What a name of a package stands for, by its number.
#[derive(Clone, Copy)]
pub enum Named {
    Interface(u32),
    World(u32),
}

/// What names a package (WIT.md, Package declaration).
#[derive(Clone, Copy, PartialEq, Eq, Hash)]
pub(crate) struct PackageTexts<'t> {
    pub(crate) namespace: &'t [u8],
    pub(crate) name: &'t [u8],
    pub(crate) version: Option<&'t [u8]>,
}

fn cut_if<'t>(text: &'t str, span: Option<Span>) -> Option<&'t [u8]>
    ensures { option_map (λ v. v.now) result ≡ option_map (cut_lem text.now) span }
{
    match span {
        Some(span) => Some(cut(text, span)),
        None => None,
    }
}

pub(crate) fn texts_of<'t>(text: &'t str, head: PackageHead) -> PackageTexts<'t>
    ensures { head_of_key result ≡ head_seen text.now head }
{
    PackageTexts {
        namespace: cut(text, head.namespace),
        name: cut(text, head.name),
        version: cut_if(text, head.version),
    }
}

/// Whether the name wasn't in the table, and stands there from now on.
fn put<'t>(
    names: &mut IndexMap<(u32, &'t [u8]), Named, KeyedHash>,
    key: (u32, &'t [u8]),
    named: Named,
) -> Result<bool, AllocError>
    ensures { IfOk result (PutsOrStands names.old.entries (key.entry.0, key.entry.1.now) named names.new.entries) }
{
    if names.contains_key(&key) {
        return Ok(false);
    }
    names.insert(key, named)?;
    Ok(true)
}

/// What has the name, if anything has.
fn find<'t>(
    names: &IndexMap<(u32, &'t [u8]), Named, KeyedHash>,
    key: (u32, &'t [u8]),
) -> Option<Named>
    ensures { result ≡ entry_of names.now.entries (key.entry.0, key.entry.1.now) }
{
    names.get(&key).copied()
}

/// The interface's number, if it is one.
fn number_in(named: Option<Named>) -> Option<u32>
    ensures { result ≡ interface_in named }
{
    match named {
        Some(Named::Interface(number)) => Some(number),
        Some(Named::World(_)) => None,
        None => None,
    }
}

/// All that texts declare. Packages, interfaces and worlds stand in the order of the texts, and a package that several texts have stands
/// once.
#[derive(Drop)]
pub struct Sources<'t> {
    pub texts: &'t [Source<'t>],
    pub packages: Vec<PackageSource>,
    /// The package that each text begins with.
    pub mains: Vec<u32>,
    pub interfaces: Vec<InterfaceSource<'t>>,
    pub worlds: Vec<WorldSource<'t>>,
    pub hash: KeyedHash,
    pub(crate) numbers: IndexSet<PackageTexts<'t>, KeyedHash>,
    pub(crate) names: IndexMap<(u32, &'t [u8]), Named, KeyedHash>,
}

impl<'t> Sources<'t> {
    fn new(alloc: Global, texts: &'t [Source<'t>]) -> Sources<'t>
        ensures index { IsIndex result }
        ensures texts { result.texts.now ≡ texts.now }
        ensures declares { Declares result [] [] [] }
    {
        let hash = hash_of(texts);
        Sources {
            texts,
            packages: Vec::new(alloc),
            mains: Vec::new(alloc),
            interfaces: Vec::new(alloc),
            worlds: Vec::new(alloc),
            hash,
            numbers: IndexSet::with_hasher(alloc, hash),
            names: IndexMap::with_hasher(alloc, hash),
        }
    }

    /// What texts declare.
    ///
    /// Takes time and memory linear in their trees. Refuses for want of memory, where there are 2^32 of something, or where a package has two
    /// items of one name.
    pub fn of(alloc: Global, texts: &'t [Source<'t>]) -> Result<Sources<'t>, Fault>
        ensures index { IfOk result IsIndex }
        ensures texts { IfOk result (λ s. s.texts.now ≡ texts.now) }
        ensures declares { IfOk result (λ s. Declares s (all_heads texts.now) (all_items texts.now) (all_mains texts.now)) }
        ensures refuses { IfErr result (IsFaultOf (all_items texts.now)) }
    {
        let mut sources = Sources::new(alloc, texts);
        for (number, source) in texts.iter().enumerate() {
            sources.add_file(number_behind(number)?, source)?;
        }
        Ok(sources)
    }

    fn add_file(&mut self, number: u32, source: &Source<'t>) -> Result<(), Fault>
        requires index { IsIndex self.old }
        requires text { text_at self.old.texts.now number ≡ source.now.text.now }
        ensures ok { OnOk result (Adds self.old self.new (heads_in source.now) (items_of number source.now) (main_of source.now ∷ [])) }
        ensures err { IfErr result (Fails self.old (items_of number source.now)) }
    {
        let main = self.add_package(number, &source.file.main)?;
        self.mains.push(main)?;
        self.add_nested(number, &source.file.nested)
    }

    fn add_nested(&mut self, number: u32, trees: &'t Vec<PackageTree>) -> Result<(), Fault>
        requires index { IsIndex self.old }
        ensures ok { OnOk result (AddsPackages self.old self.new number trees.now.items) }
        ensures err { IfErr result (FailsPackages self.old number trees.now.items) }
    {
        for tree in trees {
            self.add_package(number, tree)?;
        }
        Ok(())
    }

    fn add_package(&mut self, number: u32, tree: &'t PackageTree) -> Result<u32, Fault>
        requires index { IsIndex self.old }
        ensures ok { OnOk result (AddsPackages self.old self.new number (tree.now ∷ [])) }
        ensures number { IfOk result (IsNumberOf self.new (head_seen (text_at self.old.texts.now number) tree.now.head)) }
        ensures err { IfErr result (FailsPackages self.old number (tree.now ∷ [])) }
    {
        let home = self.number_of(number, tree.head)?;
        self.add_items(home, number, &tree.items)?;
        Ok(home)
    }

    fn add_items(&mut self, home: u32, number: u32, items: &'t Vec<ItemTree>) -> Result<(), Fault>
        requires index { IsIndex self.old }
        ensures ok { OnOk result (AddsItems self.old self.new home number items.now.items) }
        ensures err { IfErr result (FailsItems self.old home number items.now.items) }
    {
        for item in items {
            self.add_item(home, number, item)?;
        }
        Ok(())
    }

    /// The number of a package: its own, if it has one, or the next.
    fn number_of(&mut self, number: u32, head: PackageHead) -> Result<u32, Fault>
        requires index { IsIndex self.old }
        ensures ok { IfOk result (Numbers self.old self.new (head_seen (text_at self.old.texts.now number) head)) }
        ensures err { IfErr result IsMemoryOrSize }
    {
        let key = texts_of(self.text(number), head);
        match self.numbers.get_index_of(&key) {
            Some(package) => Ok(package as u32),
            None => self.add_new(number, head, key),
        }
    }

    fn add_new(
        &mut self,
        number: u32,
        head: PackageHead,
        key: PackageTexts<'t>,
    ) -> Result<u32, Fault>
        requires index { IsIndex self.old }
        requires key { head_of_key key ≡ head_seen (text_at self.old.texts.now number) head }
        requires fresh { (n : ℕ) → IsNumberOf self.old (head_of_key key) n → ⊥ }
        ensures ok { IfOk result (Numbers self.old self.new (head_seen (text_at self.old.texts.now number) head)) }
        ensures err { IfErr result IsMemoryOrSize }
    {
        let package = number_behind(self.packages.len())?;
        self.numbers.insert(key)?;
        self.packages.push(PackageSource { text: number, head })?;
        Ok(package)
    }

    fn add_item(&mut self, home: u32, number: u32, item: &'t ItemTree) -> Result<(), Fault>
        requires index { IsIndex self.old }
        ensures ok { OnOk result (AddsItems self.old self.new home number (item.now ∷ [])) }
        ensures err { IfErr result (FailsItems self.old home number (item.now ∷ [])) }
    {
        match item {
            ItemTree::InterfaceItem(docs, gates, name, members) => {
                self.add_interface(home, number, *docs, *gates, *name, members)
            }
            ItemTree::WorldItem(docs, gates, name, members) => {
                self.add_world(home, number, *docs, *gates, *name, members)
            }
        }
    }

    fn add_interface(
        &mut self,
        home: u32,
        number: u32,
        docs: Span,
        gates: Gates,
        name: Span,
        members: &'t Vec<MemberTree>,
    ) -> Result<(), Fault>
        requires index { IsIndex self.old }
        ensures ok { OnOk result (AddsItems self.old self.new home number (InterfaceItem docs gates name members.now ∷ [])) }
        ensures err { IfErr result (FailsItems self.old home number (InterfaceItem docs gates name members.now ∷ [])) }
    {
        let named = Named::Interface(number_behind(self.interfaces.len())?);
        let key = (home, cut(self.text(number), name));
        if !put(&mut self.names, key, named)? {
            return refused(number, name, Why::Twice);
        }
        self.interfaces.push(InterfaceSource {
            package: home,
            text: number,
            docs,
            gates,
            name,
            members,
        })?;
        Ok(())
    }

    fn add_world(
        &mut self,
        home: u32,
        number: u32,
        docs: Span,
        gates: Gates,
        name: Span,
        members: &'t Vec<WorldMember>,
    ) -> Result<(), Fault>
        requires index { IsIndex self.old }
        ensures ok { OnOk result (AddsItems self.old self.new home number (WorldItem docs gates name members.now ∷ [])) }
        ensures err { IfErr result (FailsItems self.old home number (WorldItem docs gates name members.now ∷ [])) }
    {
        let named = Named::World(number_behind(self.worlds.len())?);
        let key = (home, cut(self.text(number), name));
        if !put(&mut self.names, key, named)? {
            return refused(number, name, Why::Twice);
        }
        self.worlds.push(WorldSource {
            package: home,
            text: number,
            docs,
            gates,
            name,
            members,
        })?;
        Ok(())
    }

    /// The text of this number, or none. Takes constant time.
    pub fn text(&self, number: u32) -> &'t str
        ensures { result.now ≡ text_at self.now.texts.now number }
    {
        match self.texts.get(number as usize) {
            Some(source) => source.text,
            None => "",
        }
    }

    /// The package of a path, and the name behind it.
    fn package_of(&self, text: u32, own: u32, path: PathTree) -> Result<(u32, Span), Fault>
        requires { IsIndex self.now }
        ensures ok { IfOk result (IsHome self.now text own path) }
        ensures err { IfErr result (IsRefusalOf self.now text own path) }
    {
        match path {
            PathTree::Local(name) => Ok((own, name)),
            PathTree::Full(namespace, name, interface, version) => {
                let head = PackageHead {
                    namespace,
                    name,
                    version,
                };
                let key = texts_of(self.text(text), head);
                match self.numbers.get_index_of(&key) {
                    Some(number) => Ok((number as u32, interface)),
                    None => {
                        let at = Span {
                            start: namespace.start,
                            end: name.end,
                        };
                        refused(text, at, Why::NoPackage)
                    }
                }
            }
        }
    }

    /// The interface of a path that stands in a text, in this package. Takes time linear in the path. Refuses for want of it alone.
    pub fn interface_of(&self, text: u32, own: u32, path: PathTree) -> Result<u32, Fault>
        requires { IsIndex self.now }
        ensures found { IfOk result (IsInterfaceOf self.now text own path) }
        ensures refused { IfErr result (IsRefusalOf self.now text own path) }
    {
        let (home, name) = match self.package_of(text, own, path) {
            Ok(found) => found,
            Err(fault) => return Err(fault),
        };
        let key = (home, cut(self.text(text), name));
        match number_in(find(&self.names, key)) {
            Some(number) => Ok(number),
            None => refused(text, name, Why::NoInterface),
        }
    }
}
