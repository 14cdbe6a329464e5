//! Packages, interfaces, worlds, and whole `Resolve`s, from words.

use crate::read_types::optional_version;
use crate::words::{Bad, FromWords, Words};
use wit_model::{
    Interface, InterfaceId, Package, PackageId, PackageName, Resolve, World, WorldId, WorldItem,
    WorldKey,
};

impl FromWords for PackageId {
    fn from_words(words: &mut Words<'_>) -> PackageId {
        PackageId(words.number())
    }
}

impl FromWords for InterfaceId {
    fn from_words(words: &mut Words<'_>) -> InterfaceId {
        InterfaceId(words.number())
    }
}

impl FromWords for WorldId {
    fn from_words(words: &mut Words<'_>) -> WorldId {
        WorldId(words.number())
    }
}

impl FromWords for PackageName {
    fn from_words(words: &mut Words<'_>) -> PackageName {
        PackageName {
            namespace: words.text(),
            name: words.text(),
            version: optional_version(words),
        }
    }
}

impl FromWords for Package {
    fn from_words(words: &mut Words<'_>) -> Package {
        Package {
            name: words.read(),
            docs: words.read(),
            interfaces: words.map(),
            worlds: words.map(),
        }
    }
}

fn optional_package(words: &mut Words<'_>) -> Option<PackageId> {
    let number = words.optional_number()?;
    Some(PackageId(number))
}

impl FromWords for Interface {
    fn from_words(words: &mut Words<'_>) -> Interface {
        let name = words.optional_text();
        let docs = words.read();
        let stability = words.read();
        let package = optional_package(words);
        Interface {
            name,
            types: words.map(),
            functions: words.map(),
            docs,
            stability,
            package,
        }
    }
}

/// `n` and a name, or `i` and an interface's number.
impl FromWords for WorldKey {
    fn from_words(words: &mut Words<'_>) -> WorldKey {
        match words.word() {
            b"n" => WorldKey::Name(words.text()),
            b"i" => WorldKey::Interface(words.read()),
            _ => {
                words.fail(Bad::Form);
                WorldKey::Interface(InterfaceId(0))
            }
        }
    }
}

fn interface_item(words: &mut Words<'_>) -> WorldItem {
    WorldItem::Interface {
        id: words.read(),
        stability: words.read(),
        docs: words.read(),
        external_id: words.optional_text(),
    }
}

/// `i` and an interface with what belongs to it, or `f` and a function, or `t` and a type's number.
impl FromWords for WorldItem {
    fn from_words(words: &mut Words<'_>) -> WorldItem {
        match words.word() {
            b"i" => interface_item(words),
            b"f" => WorldItem::Function(words.read()),
            b"t" => WorldItem::Type_ { id: words.read() },
            _ => {
                words.fail(Bad::Form);
                WorldItem::Type_ { id: words.read() }
            }
        }
    }
}

impl FromWords for World {
    fn from_words(words: &mut Words<'_>) -> World {
        let name = words.text();
        let docs = words.read();
        let stability = words.read();
        let package = optional_package(words);
        World {
            name,
            imports: words.map(),
            exports: words.map(),
            docs,
            stability,
            package,
        }
    }
}

impl FromWords for Resolve {
    fn from_words(words: &mut Words<'_>) -> Resolve {
        Resolve {
            packages: words.list(),
            interfaces: words.list(),
            worlds: words.list(),
            types: words.list(),
        }
    }
}
