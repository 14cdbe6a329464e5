//! The paths of interfaces and of names in packages, whole and canonical.

ghost use Rattle.std.specs.Prelude.{◌≡◌, ◌<◌, length, option_map, Some, IfErr, IfOk};
ghost use Rattle.std.specs.Option.{option_copied};
ghost use Rattle.semver.specs.Identifiers.{parts_of};
ghost use Rattle.wit_model.specs.Lookup.{canonical_identity_of, canonical_path, canonical_suffix, identity_of, interface_path, key_text, path_in_package};
ghost use Rattle.wit_model.specs.Names.{canonical_version as canonical_version_lem, path_in, version_suffix as version_suffix_lem};
ghost use Rattle.wit_model.specs.{Paths.full_name as full_name_lem, Paths.suffix_after, Text.optional_text, Text.text_of, Refusals.IsMemory};

use crate::lookup::full_name;
use crate::names::after_prefix;
use crate::{Error, InterfaceId, PackageId, PackageName, Resolve, WorldKey};
use semver::Version;
use std::alloc::Global;

impl PackageName {
    /// The path of an interface or a world of the package by its name: `namespace:name/interface`, and `@version` where the
    /// package has one (WIT.md, "Package declaration"). Takes one pass over the texts. Refuses `Memory` alone.
    pub fn interface_id(&self, alloc: Global, interface: &str) -> Result<String, Error>
        ensures ok { IfOk result (λ path. text_of path ≡ path_in (identity_of self.now) interface.now) }
        ensures refuses { IfErr result IsMemory }
    {
        let namespace = &self.namespace;
        let name = &self.name;
        match &self.version {
            Some(version) => Ok(format!(in alloc; "{namespace}:{name}/{interface}@{version}")?),
            None => Ok(format!(in alloc; "{namespace}:{name}/{interface}")?),
        }
    }
}

// ---- the canonical split of a version

fn canonical_version(alloc: Global, version: &Version) -> Result<String, Error>
    ensures ok { IfOk result (λ text. text_of text ≡ canonical_version_lem (parts_of version.now)) }
    ensures refuses { IfErr result IsMemory }
{
    let (major, minor, patch) = (version.major, version.minor, version.patch);
    if version.pre.as_str().len() > 0 {
        Ok(format!(in alloc; "{version}")?)
    } else if major > 0 {
        Ok(format!(in alloc; "{major}")?)
    } else if minor > 0 {
        Ok(format!(in alloc; "{major}.{minor}")?)
    } else {
        Ok(format!(in alloc; "{major}.{minor}.{patch}")?)
    }
}

// What follows the canonical part in a version's text, and none where nothing does.
fn suffix_of<'a>(text: &'a str, canonical: &str) -> Option<&'a str>
    ensures { option_copied result ≡ suffix_after canonical.now text.now }
{
    let rest = after_prefix(canonical, text)?;
    if rest.len() > 0 { Some(rest) } else { None }
}

fn version_suffix(alloc: Global, version: &Version) -> Result<Option<String>, Error>
    ensures ok { IfOk result (λ suffix. optional_text suffix ≡ version_suffix_lem (parts_of version.now)) }
    ensures refuses { IfErr result IsMemory }
{
    let text = format!(in alloc; "{version}")?;
    let canonical = canonical_version(alloc, version)?;
    match suffix_of(&text, &canonical) {
        Some(suffix) => Ok(Some(String::from_str(alloc, suffix)?)),
        None => Ok(None),
    }
}

fn canonical_path_in(alloc: Global, own: &PackageName, name: &str) -> Result<String, Error>
    ensures ok { IfOk result (λ path. text_of path ≡ path_in (canonical_identity_of own.now) name.now) }
    ensures refuses { IfErr result IsMemory }
{
    let namespace = &own.namespace;
    let short = &own.name;
    match &own.version {
        Some(version) => {
            let canonical = canonical_version(alloc, version)?;
            Ok(format!(in alloc; "{namespace}:{short}/{name}@{canonical}")?)
        }
        None => Ok(format!(in alloc; "{namespace}:{short}/{name}")?),
    }
}

// ---- interfaces

impl Resolve {
    /// The path of a name in the package of this number, which is in range: `namespace:name/interface`, and `@version` where the
    /// package has one. Takes one pass over the texts. Refuses `Memory` alone.
    pub fn id_of_name(&self, alloc: Global, package: PackageId, name: &str) -> Result<String, Error>
        requires { «package».0 < length self.now.packages.items }
        ensures ok { IfOk result (λ path. path_in_package self.now «package».0 name.now ≡ Some (text_of path)) }
        ensures refuses { IfErr result IsMemory }
    {
        self.packages[package.0 as usize]
            .name
            .interface_id(alloc, name)
    }

    /// The path of an interface, and none where it is inline. In a valid `Resolve` an interface in range has one or the other;
    /// out of range it is none. Takes one pass over the texts. Refuses `Memory` alone.
    pub fn id_of(&self, alloc: Global, interface: InterfaceId) -> Result<Option<String>, Error>
        ensures ok { IfOk result (λ path. optional_text path ≡ interface_path self.now interface.0) }
        ensures refuses { IfErr result IsMemory }
    {
        match full_name(self, interface.0 as usize) {
            Some((own, name)) => Ok(Some(own.interface_id(alloc, name)?)),
            None => Ok(None),
        }
    }

    /// The path of an interface with the canonical part of its version alone, and none where it is inline or out of range. The
    /// canonical part is what tells incompatible versions apart: the whole text of a pre-release, and otherwise `major`, `0.minor`
    /// or `0.0.patch`. Takes one pass over the texts. Refuses `Memory` alone.
    pub fn canonicalized_id_of(
        &self,
        alloc: Global,
        interface: InterfaceId,
    ) -> Result<Option<String>, Error>
        ensures ok { IfOk result (λ path. optional_text path ≡ canonical_path self.now interface.0) }
        ensures refuses { IfErr result IsMemory }
    {
        match full_name(self, interface.0 as usize) {
            Some((own, name)) => Ok(Some(canonical_path_in(alloc, own, name)?)),
            None => Ok(None),
        }
    }

    /// What follows the canonical part in the version of an interface's package. None where nothing follows, the package has no
    /// version, or the interface is inline or out of range. Takes one pass over the version's text. Refuses `Memory` alone.
    pub fn version_suffix_of(
        &self,
        alloc: Global,
        interface: InterfaceId,
    ) -> Result<Option<String>, Error>
        ensures ok { IfOk result (λ suffix. optional_text suffix ≡ canonical_suffix self.now interface.0) }
        ensures refuses { IfErr result IsMemory }
    {
        match full_name(self, interface.0 as usize) {
            Some((own, _)) => match &own.version {
                Some(version) => version_suffix(alloc, version),
                None => Ok(None),
            },
            None => Ok(None),
        }
    }

    /// The label or the path of a key. The key of an interface is that of a named one in a valid `Resolve`; any other gives the
    /// empty text. Takes one pass over the text. Refuses `Memory` alone.
    pub fn name_world_key(&self, alloc: Global, key: &WorldKey) -> Result<String, Error>
        ensures ok { IfOk result (λ text. text_of text ≡ key_text self.now key.now) }
        ensures refuses { IfErr result IsMemory }
    {
        match key {
            WorldKey::Name(name) => Ok(name.clone()?),
            WorldKey::Interface(id) => match self.id_of(alloc, *id)? {
                Some(path) => Ok(path),
                None => Ok(String::new(alloc)),
            },
        }
    }
}
