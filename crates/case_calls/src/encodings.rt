//! The string encodings of a world's functions, a letter each.

use crate::answer::letter_of;
use case_words::{Bad, FromWords, Words};
use std::alloc::{AllocError, Global};
use wit_component::lookup::interface_at;
use wit_component::{Map, ModuleMetadata, Resolve, StringEncoding, World, WorldItem, WorldKey};

/// A string encoding as a word: `8`, `6` or `c`.
#[derive(Clone, Copy)]
pub struct EncodingWord {
    pub encoding: StringEncoding,
}

impl FromWords for EncodingWord {
    fn from_words(words: &mut Words<'_>) -> EncodingWord {
        let encoding = match words.word() {
            b"8" => StringEncoding::UTF8,
            b"6" => StringEncoding::UTF16,
            b"c" => StringEncoding::CompactUTF16,
            _ => {
                words.fail(Bad::Form);
                StringEncoding::UTF8
            }
        };
        EncodingWord { encoding }
    }
}

/// A key without version, and what its function is encoded in.
#[derive(Drop)]
pub struct UnversionedWords {
    pub key: String,
    pub encoding: StringEncoding,
}

impl FromWords for UnversionedWords {
    fn from_words(words: &mut Words<'_>) -> UnversionedWords {
        let key = words.text();
        let word: EncodingWord = words.read();
        UnversionedWords {
            key,
            encoding: word.encoding,
        }
    }
}

/// The letters for what is imported under a key and a name, and for what is exported.
pub fn letters_of(
    resolve: &Resolve,
    metadata: &ModuleMetadata,
    key: &WorldKey,
    name: &str,
) -> [char; 2] {
    [
        letter_of(metadata.import_encodings.get(resolve, key, name)),
        letter_of(metadata.export_encodings.get(resolve, key, name)),
    ]
}

fn put_letters(
    resolve: &Resolve,
    metadata: &ModuleMetadata,
    key: &WorldKey,
    name: &str,
    letters: &mut String,
) -> Result<(), AllocError> {
    for letter in letters_of(resolve, metadata, key, name) {
        letters.push(letter)?;
    }
    Ok(())
}

fn put_item(
    resolve: &Resolve,
    metadata: &ModuleMetadata,
    key: &WorldKey,
    item: &WorldItem,
    letters: &mut String,
) -> Result<(), AllocError> {
    match item {
        WorldItem::Interface { id, .. } => {
            if let Some(interface) = interface_at(resolve, *id) {
                for (name, _function) in &interface.functions {
                    put_letters(resolve, metadata, key, name, letters)?;
                }
            }
            Ok(())
        }
        WorldItem::Function(function) => {
            put_letters(resolve, metadata, key, &function.name, letters)
        }
        WorldItem::Type_ { .. } => Ok(()),
    }
}

fn put_items(
    resolve: &Resolve,
    metadata: &ModuleMetadata,
    items: &Map<WorldKey, WorldItem>,
    letters: &mut String,
) -> Result<(), AllocError> {
    for (key, item) in items {
        put_item(resolve, metadata, key, item, letters)?;
    }
    Ok(())
}

/// A word of two letters for each function of the imports, and then of the exports, by the map of imports and by that of exports; `=` in front.
pub fn letters(
    alloc: Global,
    resolve: &Resolve,
    world: &World,
    metadata: &ModuleMetadata,
) -> Result<String, AllocError> {
    let mut letters = String::from_str(alloc, " =")?;
    put_items(resolve, metadata, &world.imports, &mut letters)?;
    put_items(resolve, metadata, &world.exports, &mut letters)?;
    Ok(letters)
}
