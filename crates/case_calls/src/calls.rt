//! The calls of the library, each after its conditions were tested.

ghost use Rattle.std.specs.Prelude.{◌≡◌, ◌<◌, true, length, is_some, OnOk};
ghost use Rattle.std.specs.List.{list_all};
ghost use Rattle.wit_component.specs.Senses.{sense_of};
ghost use Rattle.wit_model.specs.{Rules.in_list, Valid.IsValid};

use crate::answer::Answer;
use crate::encodings::{UnversionedWords, letters, letters_of};
use crate::marks::Marks;
use bind_json::bindgen_listing;
use std::alloc::{AllocError, Global};
use wit_bind::Bindgen;
use wit_component::laws::semver_check_counted;
use wit_component::{
    Cause, Check, ComponentBuilder, ComponentType, EncodingMap, Error, Fault, Map, ModuleMetadata,
    OutputToString, PackageId, Place, Resolve, Side, Steps, StringEncoding, WitPrinter, WorldId,
    WorldKey, decode, decode_world, encode, encode_world, is_label, metadata, normalized,
    same_sense, semver_check,
};
use wit_encode::wrapped_world;
use wit_json::{package_listing, world_listing};
use wit_metadata::{encoding_in, stripped};
use wit_text::read_texts;

// ---- conditions

/// Whether calls may be asked of a `Resolve`.
pub fn test_valid(alloc: Global, resolve: &Resolve) -> Result<(), Answer>
    ensures { OnOk result (IsValid resolve.now) }
{
    match resolve.check(alloc) {
        Ok(()) => Ok(()),
        Err(Fault::Memory) => Err(Answer::Fault(Fault::Memory)),
        Err(Fault::Broken { .. }) => Err(Answer::Unmet("valid")),
    }
}

fn test_package(resolve: &Resolve, package: PackageId) -> Result<(), Answer>
    ensures { OnOk result («package».0 < length resolve.now.packages.items) }
{
    if (package.0 as usize) < resolve.packages.len() {
        Ok(())
    } else {
        Err(Answer::Unmet("range"))
    }
}

pub fn test_world(resolve: &Resolve, world: WorldId) -> Result<(), Answer>
    ensures { OnOk result (world.0 < length resolve.now.worlds.items) }
{
    if (world.0 as usize) < resolve.worlds.len() {
        Ok(())
    } else {
        Err(Answer::Unmet("range"))
    }
}

fn test_place(resolve: &Resolve, place: &Place) -> Result<(), Answer>
    ensures { OnOk result (is_some (sense_of resolve.now place.now) ≡ true) }
{
    if place.is_in(resolve) {
        Ok(())
    } else {
        Err(Answer::Unmet("range"))
    }
}

// ---- validity and names

/// Which rule is broken, and by what.
pub fn check(alloc: Global, resolve: &Resolve) -> Answer {
    match resolve.check(alloc) {
        Ok(()) => Answer::Yes,
        Err(fault) => Answer::Fault(fault),
    }
}

/// How many packages, interfaces, worlds and types there are.
pub fn counts(alloc: Global, resolve: &Resolve) -> Result<Answer, Answer> {
    let (packages, interfaces) = (resolve.packages.len(), resolve.interfaces.len());
    let (worlds, types) = (resolve.worlds.len(), resolve.types.len());
    let words = format!(in alloc; " {packages} {interfaces} {worlds} {types}")?;
    Ok(Answer::Words(words))
}

/// Which rule is broken, where by what is open.
pub fn rule(alloc: Global, resolve: &Resolve) -> Answer {
    match resolve.check(alloc) {
        Ok(()) => Answer::Yes,
        Err(Fault::Memory) => Answer::Fault(Fault::Memory),
        Err(Fault::Broken { rule, .. }) => Answer::Rule(rule),
    }
}

/// Whether a `Resolve` is valid, where which rule is named is open.
pub fn valid(alloc: Global, resolve: &Resolve) -> Answer {
    match resolve.check(alloc) {
        Ok(()) => Answer::Yes,
        Err(Fault::Memory) => Answer::Fault(Fault::Memory),
        Err(Fault::Broken { .. }) => Answer::No,
    }
}

pub fn label(text: &str) -> Answer {
    if is_label(text) {
        Answer::Yes
    } else {
        Answer::No
    }
}

// ---- bytes of packages and worlds

pub fn encode_package(
    alloc: Global,
    resolve: &Resolve,
    package: PackageId,
    canonical_names: bool,
) -> Result<Answer, Answer>
    requires { IsValid resolve.now }
{
    test_package(resolve, package)?;
    let bytes = encode(alloc, resolve, package, canonical_names)?;
    Ok(Answer::Bytes(bytes))
}

// A component with one type.
fn component_of(alloc: Global, declared: &ComponentType) -> Result<Vec<u8>, Error> {
    let mut builder = ComponentBuilder::new(alloc);
    builder.type_component(declared)?;
    builder.finish()
}

/// A component whose one type is the component type of a world.
pub fn world_type(
    alloc: Global,
    resolve: &Resolve,
    world: WorldId,
    canonical_names: bool,
) -> Result<Answer, Answer>
    requires { IsValid resolve.now }
{
    test_world(resolve, world)?;
    let declared = encode_world(alloc, resolve, world, canonical_names)?;
    Ok(Answer::Bytes(component_of(alloc, &declared)?))
}

/// A component whose one type is the wrapper of a world in its package.
pub fn wrapped_type(
    alloc: Global,
    resolve: &Resolve,
    world: WorldId,
    canonical_names: bool,
) -> Result<Answer, Answer>
    requires { IsValid resolve.now }
{
    test_world(resolve, world)?;
    let Some(package) = resolve.worlds[world.0 as usize].package else {
        return Err(Answer::Unmet("package"));
    };
    test_package(resolve, package)?;
    let name = &resolve.packages[package.0 as usize].name;
    let declared = wrapped_world(alloc, resolve, name, world, canonical_names)?;
    Ok(Answer::Bytes(component_of(alloc, &declared)?))
}

/// What a module carries of a world.
pub fn encode_metadata(
    alloc: Global,
    resolve: &Resolve,
    world: WorldId,
    encoding: StringEncoding,
    canonical_names: bool,
) -> Result<Answer, Answer>
    requires { IsValid resolve.now }
{
    test_world(resolve, world)?;
    let bytes = metadata::encode(alloc, resolve, world, encoding, canonical_names)?;
    Ok(Answer::Bytes(bytes))
}

// ---- text

// The text of a package with no others nested in it, without documentation.
fn plain_text(alloc: Global, resolve: &Resolve, package: PackageId) -> Result<Answer, Answer>
    requires { IsValid resolve.now }
{
    test_package(resolve, package)?;
    let mut printer = WitPrinter::new(OutputToString::new(alloc));
    printer.emit_docs(false);
    printer.print(alloc, resolve, package, &[])?;
    Ok(Answer::Text(String::from(printer.output)))
}

fn are_packages(resolve: &Resolve, packages: &[PackageId]) -> bool
    ensures { result ≡ list_all (λ other. in_list resolve.now.packages.items other.0) packages.now }
{
    packages
        .iter()
        .all(|other| (other.0 as usize) < resolve.packages.len())
}

/// The text of a package with others nested in it.
pub fn print_package(
    alloc: Global,
    resolve: &Resolve,
    package: PackageId,
    emit_docs: bool,
    nested: &[PackageId],
) -> Result<Answer, Answer>
    requires { IsValid resolve.now }
{
    test_package(resolve, package)?;
    if !are_packages(resolve, nested) {
        return Err(Answer::Unmet("range"));
    }
    let mut printer = WitPrinter::new(OutputToString::new(alloc));
    printer.emit_docs(emit_docs);
    printer.print(alloc, resolve, package, nested)?;
    Ok(Answer::Text(String::from(printer.output)))
}

/// The text of a package as others read it.
pub fn normal_text(alloc: Global, resolve: &Resolve, package: PackageId) -> Result<Answer, Answer>
    requires { IsValid resolve.now }
{
    test_package(resolve, package)?;
    let (other, id) = normalized(alloc, resolve, package)?;
    plain_text(alloc, &other, id)
}

// ---- bytes read

/// The text of the package that bytes mean.
pub fn decoded_text(alloc: Global, bytes: &[u8]) -> Result<Answer, Answer> {
    let (resolve, package) = decode(alloc, bytes)?;
    plain_text(alloc, &resolve, package)
}

/// The text of the package of the one world that bytes mean.
pub fn decoded_world_text(alloc: Global, bytes: &[u8]) -> Result<Answer, Answer> {
    let (resolve, world) = decode_world(alloc, bytes)?;
    test_world(&resolve, world)?;
    let Some(package) = resolve.worlds[world.0 as usize].package else {
        return Err(Answer::Unmet("package"));
    };
    plain_text(alloc, &resolve, package)
}

fn unread(error: Error, shows_offset: bool) -> Answer {
    match error {
        Error::NoReading(cause, offset) if shows_offset => Answer::NoReading(cause, Some(offset)),
        Error::NoReading(cause, _) => Answer::NoReading(cause, None),
        other => Answer::Refused(other),
    }
}

/// Whether bytes mean a package, and why they don't.
pub fn decode_package(alloc: Global, bytes: &[u8], shows_offset: bool) -> Answer {
    match decode(alloc, bytes) {
        Ok((resolve, package)) => Answer::Decoded(package.0, resolve.types.len()),
        Err(error) => unread(error, shows_offset),
    }
}

// The numbers of packages as words, and behind them how many types there are.
fn numbers(alloc: Global, mains: &[PackageId], types: usize) -> Result<String, AllocError> {
    let mut words = String::new(alloc);
    for main in mains {
        words.push_str(&format!(in alloc; " {}", main.0)?)?;
    }
    words.push_str(&format!(in alloc; " {types}")?)?;
    Ok(words)
}

fn lent(alloc: Global, texts: &[String]) -> Result<Vec<&str>, AllocError> {
    let mut all = Vec::with_capacity(alloc, texts.len())?;
    for text in texts {
        all.push(text.as_str())?;
    }
    Ok(all)
}

/// The packages of texts; and the number of the one that each text begins with, and how many types there are.
pub fn packages_of_texts(alloc: Global, texts: &[String]) -> Result<(Resolve, Answer), Answer> {
    let all = lent(alloc, texts)?;
    let (resolve, mains) = read_texts(alloc, &all, all.len())?;
    let words = numbers(alloc, &mains, resolve.types.len())?;
    Ok((resolve, Answer::Words(words)))
}

/// A module without the sections that carry worlds.
pub fn strip(alloc: Global, bytes: &[u8]) -> Result<Answer, Answer> {
    match stripped(alloc, bytes)? {
        Some(kept) => Ok(Answer::Bytes(kept)),
        None => Ok(Answer::Nothing),
    }
}

// All packages of a `Resolve` but the first, in order.
fn other_packages(alloc: Global, resolve: &Resolve) -> Result<Vec<PackageId>, Error> {
    let mut others = Vec::new(alloc);
    for number in 1..resolve.packages.len() {
        others.push(PackageId(u32::try_from(number).unwrap_or(0)))?;
    }
    Ok(others)
}

/// The text of what a module binds: its first package, with all others nested in it.
pub fn bound_text(alloc: Global, bytes: &[u8]) -> Result<Answer, Answer> {
    let (_module, bound) = metadata::decode(alloc, bytes)?;
    let others = other_packages(alloc, &bound.resolve)?;
    print_package(alloc, &bound.resolve, PackageId(0), true, &others)
}

/// A module without the sections that carry worlds, where what they bind isn't refused.
pub fn left_of_module(alloc: Global, bytes: &[u8]) -> Result<Answer, Answer> {
    let (module, _bound) = metadata::decode(alloc, bytes)?;
    match module {
        Some(kept) => Ok(Answer::Bytes(kept)),
        None => Ok(Answer::Nothing),
    }
}

/// The encoding that a component says.
pub fn said(bytes: &[u8]) -> Result<Answer, Answer> {
    Ok(Answer::Encoding(encoding_in(bytes)?))
}

/// The number of the section that is refused.
pub fn refused_section(alloc: Global, bytes: &[u8]) -> Result<Answer, Answer> {
    match metadata::refused_section(alloc, bytes)? {
        Some(number) => Ok(Answer::Count(number as u64)),
        None => Ok(Answer::Nothing),
    }
}

// ---- comparisons

/// Whether two places have the same sense.
pub fn sense(
    alloc: Global,
    marks: Marks,
    resolve: &Resolve,
    at: Place,
    other: &Resolve,
    place: Place,
) -> Result<Answer, Answer>
    requires resolve { IsValid resolve.now }
    requires other { IsValid other.now }
{
    test_place(resolve, &at)?;
    test_place(other, &place)?;
    marks.begin(alloc)?;
    let same = same_sense(alloc, resolve, at, other, place);
    marks.end(alloc)?;
    if same? {
        Ok(Answer::Yes)
    } else {
        Ok(Answer::No)
    }
}

/// Whether a world may take the place of another.
pub fn semver(
    alloc: Global,
    resolve: Resolve,
    prev: WorldId,
    new: WorldId,
) -> Result<Answer, Answer>
    requires { IsValid resolve }
{
    test_world(&resolve, prev)?;
    test_world(&resolve, new)?;
    semver_check(alloc, resolve, prev, new)?;
    Ok(Answer::Yes)
}

/// The same with its steps counted, which are answered where it may.
pub fn semver_counted(
    alloc: Global,
    resolve: Resolve,
    prev: WorldId,
    new: WorldId,
) -> Result<Answer, Answer>
    requires { IsValid resolve }
{
    test_world(&resolve, prev)?;
    test_world(&resolve, new)?;
    let mut steps = Steps::new();
    semver_check_counted(alloc, resolve, prev, new, &mut steps)?;
    Ok(Answer::Count(steps.count))
}

// ---- encodings of functions

/// The encodings of a world's functions, and the letters of all.
pub fn module(
    alloc: Global,
    resolve: &Resolve,
    world: WorldId,
    encoding: StringEncoding,
) -> Result<(ModuleMetadata, Answer), Answer> {
    test_world(resolve, world)?;
    let metadata = ModuleMetadata::new(alloc, resolve, world, encoding)?;
    let words = letters(alloc, resolve, &resolve.worlds[world.0 as usize], &metadata)?;
    Ok((metadata, Answer::Words(words)))
}

/// What the maps of imports and of exports answer.
pub fn get(
    alloc: Global,
    marks: Marks,
    resolve: &Resolve,
    metadata: &ModuleMetadata,
    key: &WorldKey,
    name: &str,
) -> Result<Answer, Answer> {
    marks.begin(alloc)?;
    let [imported, exported] = letters_of(resolve, metadata, key, name);
    marks.end(alloc)?;
    Ok(Answer::Words(format!(in alloc; " ={imported}{exported}")?))
}

// The keys of a list as a map, the last of equal ones.
fn map_of(
    alloc: Global,
    entries: Vec<UnversionedWords>,
) -> Result<Map<String, StringEncoding>, AllocError> {
    let mut map = Map::new(alloc);
    for entry in entries {
        map.insert(entry.key, entry.encoding)?;
    }
    Ok(map)
}

/// What is carried over for a world's imports or exports from keys without version, and nothing for its other side.
pub fn carried_over(
    alloc: Global,
    marks: Marks,
    resolve: &Resolve,
    world: WorldId,
    side: Side,
    entries: Vec<UnversionedWords>,
) -> Result<ModuleMetadata, Answer> {
    test_world(resolve, world)?;
    let unversioned = map_of(alloc, entries)?;
    marks.begin(alloc)?;
    let found = EncodingMap::from_unversioned(alloc, resolve, world, side, &unversioned);
    marks.end(alloc)?;
    Ok(match side {
        Side::Imports => ModuleMetadata {
            import_encodings: found?,
            export_encodings: EncodingMap::new(alloc),
        },
        Side::Exports => ModuleMetadata {
            import_encodings: EncodingMap::new(alloc),
            export_encodings: found?,
        },
    })
}

// ---- JSON

pub fn package_json(
    alloc: Global,
    resolve: &Resolve,
    package: PackageId,
) -> Result<Answer, Answer> {
    Ok(Answer::Text(package_listing(alloc, resolve, package)?))
}

pub fn world_json(alloc: Global, resolve: &Resolve, world: WorldId) -> Result<Answer, Answer> {
    Ok(Answer::Text(world_listing(alloc, resolve, world)?))
}

/// A world with encodings of its functions, as what a module binds.
pub fn bound_json(
    alloc: Global,
    resolve: Resolve,
    world: WorldId,
    metadata: ModuleMetadata,
) -> Result<Answer, Answer> {
    let bound = Bindgen {
        resolve,
        world,
        metadata,
    };
    Ok(Answer::Text(bindgen_listing(alloc, &bound)?))
}
