//! Reading texts.

ghost use Rattle.std.specs.Prelude.{◌≡◌, ◌<◌, ℕ, [], length, map, string_bytes, Contains, IfErr, IfOk, OnOk};
ghost use Rattle.std.specs.List.{AllZip};
ghost use Rattle.text_plain.specs.{FilesSeen.file_of, Places.folder_text_of};
ghost use Rattle.text_trees.specs.Reads.{IsReadAs};
ghost use Rattle.text_names.specs.{Orders.links_of, Orders.IsOrder, Tables.IsIndex};
ghost use Rattle.text_plain.specs.Orders.{AreApart, AreWithin};
ghost use Rattle.text_types.specs.Kept.{defs_of, Grows};
ghost use Rattle.wit_model.specs.Valid.{IsValid};
ghost use Rattle.text_shown.specs.Shows.{ShowsFiles};
ghost use Rattle.wit_text.specs.MadeInterfaces.{AreAllMade, GrowsInterfaces};
ghost use Rattle.wit_text.specs.MadeWorlds.{AreWorldsMade};
ghost use Rattle.wit_text.specs.SoFar.{AreMadeSoFar, IsResolveOf, MakesNext};
ghost use Rattle.wit_text.specs.{Mains.files_of, Mains.numbers_of, Mains.trees_in, Refusals.AreTreesOf, Rules.SaysBroken};
ghost use Rattle.wit_text.specs.Texts.{folder_of as folder_of_lem, in_folders, ReadsTexts, RefusesTexts};

use crate::interfaces::add_interface;
use crate::packages::packages_of;
use crate::shown::Around;
use crate::trees::trees_of;
use crate::worlds::world_of;
use std::alloc::Global;
use text_names::{
    Fault, Need, Order, Refused, Source, Sources, Why, needs_of_interfaces, order_of,
};
use text_plain::{FileTree, FolderText, Plain, Why as NotPlain, plain_files};
use text_shown::laws::packages_are_shown;
use text_trees::{Span, TextTree};
use text_types::{Interfaces, Types};
use wit_check::Check;
use wit_model::{Fault as Unsound, PackageId, Resolve, World};

fn sources_of<'p>(
    alloc: Global,
    whole: &'p str,
    files: &'p [FileTree],
) -> Result<Vec<Source<'p>>, Fault>
    ensures { IfOk result (λ sources. files_of sources.items ≡ map (file_of whole.now) files.now) }
{
    let mut sources = Vec::with_capacity(alloc, files.len())?;
    for file in files {
        sources.push(Source { text: whole, file })?;
    }
    Ok(sources)
}

/// The interfaces of the texts, in an order in which they can be made. Refused where one needs itself.
fn order_of_interfaces(
    alloc: Global,
    sources: &Sources<'_>,
    needs: &[Vec<Need>],
) -> Result<Vec<u32>, Fault>
    requires { AreWithin (links_of needs.now) }
    ensures { IfOk result (λ order. IsOrder (links_of needs.now) order.items) }
{
    match order_of(alloc, needs)? {
        Order::Numbers(order) => Ok(order),
        Order::Cycle(number, need) => match sources.interfaces.get(number as usize) {
            Some(source) => Err(Fault::Refused(Refused {
                text: source.text,
                at: need.at,
                why: Why::Cycle,
            })),
            None => Err(Fault::Size),
        },
    }
}

/// Makes the interface of this number, if there is one.
fn make_interface(
    alloc: Global,
    sources: &Sources<'_>,
    interfaces: &mut Interfaces,
    types: &mut Types,
    own: u32,
) -> Result<(), Fault>
    requires { IsIndex sources.now }
    ensures made { OnOk result (MakesNext sources.now own interfaces.old (defs_of types.old) interfaces.new (defs_of types.new)) }
{
    let place = own as usize;
    if let Some(source) = sources.interfaces.get(place) {
        let number = add_interface(alloc, sources, interfaces, types, source)?;
        if place < interfaces.numbers.len() {
            interfaces.numbers[place] = Some(number);
        }
    }
    Ok(())
}

fn add_interfaces(
    alloc: Global,
    sources: &Sources<'_>,
    order: &[u32],
    interfaces: &mut Interfaces,
    types: &mut Types,
) -> Result<(), Fault>
    requires index { IsIndex sources.now }
    requires apart { AreApart order.now }
    requires start { AreMadeSoFar sources.now [] interfaces.old (defs_of types.old) }
    ensures made { OnOk result (AreMadeSoFar sources.now order.now interfaces.new (defs_of types.new)) }
{
    for own in order {
        make_interface(alloc, sources, interfaces, types, *own)?;
    }
    Ok(())
}

fn interfaces_of(
    alloc: Global,
    sources: &Sources<'_>,
    order: &[u32],
    types: &mut Types,
) -> Result<Interfaces, Fault>
    requires index { IsIndex sources.now }
    requires apart { AreApart order.now }
    requires all { (n : ℕ) → n < length sources.now.interfaces.items → Contains order.now n }
    ensures made { IfOk result (λ interfaces. AreAllMade sources.now interfaces (defs_of types.new)) }
{
    let mut interfaces = Interfaces {
        list: Vec::new(alloc),
        numbers: vec![in alloc; None; sources.interfaces.len()]?,
    };
    add_interfaces(alloc, sources, order, &mut interfaces, types)?;
    Ok(interfaces)
}

fn worlds_of(
    alloc: Global,
    around: &Around<'_, '_>,
    interfaces: &mut Interfaces,
    types: &mut Types,
) -> Result<Vec<World>, Fault>
    requires index { IsIndex around.now.sources.now }
    requires made { AreAllMade around.now.sources.now interfaces.old (defs_of types.old) }
    ensures grows { Grows types.old types.new }
    ensures made { OnOk result (GrowsInterfaces interfaces.old interfaces.new) }
    ensures worlds { IfOk result (λ worlds. AreWorldsMade around.now.sources.now interfaces.new (defs_of types.new) worlds.items) }
{
    let sources = around.sources;
    let mut worlds = Vec::with_capacity(alloc, sources.worlds.len())?;
    for (number, source) in sources.worlds.iter().enumerate() {
        match u32::try_from(number) {
            Ok(number) => {
                worlds.push(world_of(alloc, around, interfaces, types, source, number)?)?
            }
            Err(_) => return Err(Fault::Size),
        }
    }
    Ok(worlds)
}

/// What texts declare, where their interfaces can be made in this order.
fn resolve_in(
    alloc: Global,
    sources: &Sources<'_>,
    needs: &[Vec<Need>],
    order: &[u32],
) -> Result<Resolve, Fault>
    requires order { IsOrder (links_of needs.now) order.now }
    requires many { length needs.now ≡ length sources.now.interfaces.items }
    requires index { IsIndex sources.now }
    ensures { IfOk result (IsResolveOf sources.now) }
{
    let around = Around { sources, needs };
    let mut types = Types::new(alloc);
    let mut interfaces = interfaces_of(alloc, sources, order, &mut types)?;
    let worlds = worlds_of(alloc, &around, &mut interfaces, &mut types)?;
    let packages = packages_of(alloc, sources, &interfaces)?;
    Ok(Resolve {
        packages,
        interfaces: interfaces.list,
        worlds,
        types: types.defs,
    })
}

fn resolve_of(alloc: Global, sources: &Sources<'_>) -> Result<Resolve, Fault>
    requires { IsIndex sources.now }
    ensures { IfOk result (IsResolveOf sources.now) }
{
    let needs = needs_of_interfaces(alloc, sources)?;
    let order = order_of_interfaces(alloc, sources, &needs)?;
    resolve_in(alloc, sources, &needs, &order)
}

fn mains_of(alloc: Global, sources: &Sources<'_>) -> Result<Vec<PackageId>, Fault>
    ensures { IfOk result (λ mains. numbers_of mains.items ≡ sources.now.mains.items) }
{
    let mut mains = Vec::with_capacity(alloc, sources.mains.len())?;
    for main in &sources.mains {
        mains.push(PackageId(*main))?;
    }
    Ok(mains)
}

/// Tests validity. Refused where a rule is broken, which is named, with an entry that breaks it.
fn validate(alloc: Global, resolve: &Resolve) -> Result<(), Fault>
    ensures ok { OnOk result (IsValid resolve.now) }
    ensures broken { IfErr result (SaysBroken resolve.now) }
{
    match resolve.check(alloc) {
        Ok(()) => Ok(()),
        Err(Unsound::Memory) => Err(Fault::Memory),
        Err(Unsound::Broken { rule, list, number }) => Err(Fault::Broken(rule, list, number)),
    }
}

/// The packages of texts with their trees.
fn read_sources(alloc: Global, list: &[Source<'_>]) -> Result<(Resolve, Vec<PackageId>), Fault>
    ensures valid { IfOk result (λ r. IsValid r.0) }
    ensures shows { IfOk result (λ r. ShowsFiles (files_of list.now) r.0 r.1.items) }
{
    let sources = Sources::of(alloc, list)?;
    let resolve = resolve_of(alloc, &sources)?;
    validate(alloc, &resolve)?;
    let mains = mains_of(alloc, &sources)?;
    Ok((resolve, mains))
}

/// The fault of a place in the whole text, at the place of its own text.
fn located(bases: &[u32], fault: Fault) -> Fault {
    let Fault::Refused(refused) = fault else {
        return fault;
    };
    let mut text = 0u32;
    let mut base = 0u32;
    let mut number = 0u32;
    for begin in bases {
        if *begin <= refused.at.start {
            text = number;
            base = *begin;
        }
        number = number.saturating_add(1);
    }
    Fault::Refused(Refused {
        text,
        at: Span {
            start: refused.at.start.saturating_sub(base),
            end: refused.at.end.saturating_sub(base),
        },
        why: refused.why,
    })
}

/// What files declare.
fn read_plain(alloc: Global, plain: &Plain) -> Result<(Resolve, Vec<PackageId>), Fault>
    ensures valid { IfOk result (λ r. IsValid r.0) }
    ensures shows { IfOk result (λ r. ShowsFiles (map (file_of (string_bytes plain.now.whole)) plain.now.files.items) r.0 r.1.items) }
{
    let list = sources_of(alloc, &plain.whole, &plain.files)?;
    match read_sources(alloc, &list) {
        Ok(read) => Ok(read),
        Err(fault) => Err(located(&plain.bases, fault)),
    }
}

fn why_not_plain(why: NotPlain) -> Why {
    match why {
        NotPlain::NoHead => Why::NoHead,
        NotPlain::Twice => Why::Twice,
        NotPlain::NoPackage => Why::NoPackage,
        NotPlain::NoWorld => Why::NoWorld,
        NotPlain::NoName => Why::NoName,
        NotPlain::Cycle => Why::Cycle,
    }
}

/// The fault of texts that aren't written out as files.
fn not_plain(fault: text_plain::Fault) -> Fault {
    match fault {
        text_plain::Fault::Memory => Fault::Memory,
        text_plain::Fault::Size => Fault::Size,
        text_plain::Fault::Refused(refused) => Fault::Refused(Refused {
            text: refused.text,
            at: refused.at,
            why: why_not_plain(refused.why),
        }),
    }
}

fn folder_of(own: usize, number: usize) -> Result<u32, Fault>
    ensures { IfOk result (λ n. n ≡ folder_of_lem own number) }
{
    if number < own {
        return Ok(0);
    }
    match u32::try_from(number) {
        Ok(number) => Ok(number),
        Err(_) => Err(Fault::Size),
    }
}

/// Texts with their trees, in folders.
fn folder_texts_of<'t>(
    alloc: Global,
    texts: &[&'t str],
    trees: &'t [TextTree],
    own: usize,
) -> Result<Vec<FolderText<'t>>, Fault>
    requires many { length trees.now ≡ length texts.now }
    requires trees { AreTreesOf (map (λ t. t.now) texts.now) trees.now }
    ensures folders { IfOk result (λ list. map folder_text_of list.items ≡ in_folders own (trees_in list.items)) }
    ensures read { IfOk result (λ list. AllZip IsReadAs (map (λ t. t.now) texts.now) (trees_in list.items)) }
{
    let mut list = Vec::with_capacity(alloc, texts.len())?;
    for (number, tree) in trees.iter().enumerate() {
        list.push(FolderText {
            folder: folder_of(own, number)?,
            text: texts[number],
            tree,
        })?;
    }
    Ok(list)
}

fn read_trees(
    alloc: Global,
    texts: &[&str],
    trees: &[TextTree],
    own: usize,
) -> Result<(Resolve, Vec<PackageId>), Fault>
    requires { AreTreesOf (map (λ t. t.now) texts.now) trees.now }
    ensures reads { IfOk result (λ r. ReadsTexts (map (λ t. t.now) texts.now) own r.0 r.1.items) }
{
    packages_are_shown();
    let list = folder_texts_of(alloc, texts, trees, own)?;
    match plain_files(alloc, &list) {
        Ok(plain) => read_plain(alloc, &plain),
        Err(fault) => Err(not_plain(fault)),
    }
}

/// The packages of WIT texts, and the package that each text begins with.
///
/// So many texts, the first ones, stand in one folder, and each other one by itself: one that names no package is of that which another text of its folder
/// names. All packages that are used stand among the texts, in any order, each a text's own or nested in one; several texts may have one package. What a
/// world includes is written out, with the other names that it has there. Packages, worlds and interfaces come in the order of the texts, but that an interface comes behind those that it needs, and a world's imports are completed by
/// those that its items need. The documentation of packages and of uses is left out. Takes time linear in the texts and in what each world's items need, beside the time that the
/// test of validity takes. Errors: `Memory` where a growth is refused, `Size` for a text of 2^32 bytes or more, or 2^32 of something; `Refused` with a
/// place; `Broken` where what the texts declare breaks a rule of validity for which no place is named. Source: WIT.md.
pub fn read_texts(
    alloc: Global,
    texts: &[&str],
    own: usize,
) -> Result<(Resolve, Vec<PackageId>), Fault>
    ensures reads { IfOk result (λ r. ReadsTexts (map (λ t. t.now) texts.now) own r.0 r.1.items) }
    ensures refuses { IfErr result (RefusesTexts (map (λ t. t.now) texts.now)) }
{
    match trees_of(alloc, texts) {
        Ok(trees) => read_trees(alloc, texts, &trees, own),
        Err(fault) => Err(fault),
    }
}
