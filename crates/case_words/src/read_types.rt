//! Types and functions, and what belongs to them, from words.

use crate::words::{Bad, FromWords, Words, meaning_of};
use semver::Version;
use wit_model::{
    Case, Docs, Enum, EnumCase, Field, Flag, Flags, Function, FunctionKind, Handle, InterfaceId,
    Param, Record, Result_, Stability, Tuple, Type, TypeDef, TypeDefKind, TypeId, TypeOwner,
    Variant, WorldId,
};

impl FromWords for String {
    fn from_words(words: &mut Words<'_>) -> String {
        words.text()
    }
}

// The version that a text is.
fn version_of(words: &mut Words<'_>, text: &str) -> Option<Version> {
    match Version::parse(words.alloc, text) {
        Ok(version) => Some(version),
        Err(_) => {
            words.fail(Bad::Form);
            None
        }
    }
}

fn version(words: &mut Words<'_>) -> Option<Version> {
    let text = words.text();
    version_of(words, &text)
}

/// A version, or none where `-` stands.
pub fn optional_version(words: &mut Words<'_>) -> Option<Version> {
    let text = words.optional_text()?;
    version_of(words, &text)
}

impl FromWords for Docs {
    fn from_words(words: &mut Words<'_>) -> Docs {
        Docs {
            contents: words.optional_text(),
        }
    }
}

fn stable(words: &mut Words<'_>) -> Stability {
    match version(words) {
        Some(since) => Stability::Stable {
            since,
            deprecated: optional_version(words),
        },
        None => Stability::Unknown,
    }
}

fn unstable(words: &mut Words<'_>) -> Stability {
    Stability::Unstable {
        feature: words.text(),
        deprecated: optional_version(words),
    }
}

/// `-`; or `s`, a version and the version of its end; or `u`, a feature and the version of its end.
impl FromWords for Stability {
    fn from_words(words: &mut Words<'_>) -> Stability {
        match words.word() {
            b"-" => Stability::Unknown,
            b"s" => stable(words),
            b"u" => unstable(words),
            _ => {
                words.fail(Bad::Form);
                Stability::Unknown
            }
        }
    }
}

static PRIMITIVES: [(&[u8], Type); 14] = [
    (b"bool", Type::Bool),
    (b"u8", Type::U8),
    (b"u16", Type::U16),
    (b"u32", Type::U32),
    (b"u64", Type::U64),
    (b"s8", Type::S8),
    (b"s16", Type::S16),
    (b"s32", Type::S32),
    (b"s64", Type::S64),
    (b"f32", Type::F32),
    (b"f64", Type::F64),
    (b"char", Type::Char),
    (b"string", Type::String),
    (b"error-context", Type::ErrorContext),
];

// A primitive's word, or a type's number.
fn type_of(words: &mut Words<'_>, word: &[u8]) -> Type {
    match meaning_of(&PRIMITIVES, word) {
        Some(ty) => ty,
        None => Type::Id(TypeId(words.number_of(word))),
    }
}

impl FromWords for Type {
    fn from_words(words: &mut Words<'_>) -> Type {
        let word = words.word();
        type_of(words, word)
    }
}

// A value type, or none where `-` stands.
fn optional_type(words: &mut Words<'_>) -> Option<Type> {
    match words.word() {
        b"-" => None,
        word => Some(type_of(words, word)),
    }
}

impl FromWords for TypeId {
    fn from_words(words: &mut Words<'_>) -> TypeId {
        TypeId(words.number())
    }
}

// ---- kinds of types

impl FromWords for Field {
    fn from_words(words: &mut Words<'_>) -> Field {
        Field {
            name: words.text(),
            ty: words.read(),
            docs: words.read(),
        }
    }
}

impl FromWords for Flag {
    fn from_words(words: &mut Words<'_>) -> Flag {
        Flag {
            name: words.text(),
            docs: words.read(),
        }
    }
}

impl FromWords for Case {
    fn from_words(words: &mut Words<'_>) -> Case {
        Case {
            name: words.text(),
            ty: optional_type(words),
            docs: words.read(),
        }
    }
}

impl FromWords for EnumCase {
    fn from_words(words: &mut Words<'_>) -> EnumCase {
        EnumCase {
            name: words.text(),
            docs: words.read(),
        }
    }
}

/// What a word says of a kind.
#[derive(Clone, Copy)]
enum Kind {
    Resource,
    Own,
    Borrow,
    Option,
    List,
    Alias,
    Future,
    Stream,
    Result,
    Map,
    Fixed,
    Record,
    Flags,
    Variant,
    Enum,
    Tuple,
}

static KINDS: [(&[u8], Kind); 16] = [
    (b"resource", Kind::Resource),
    (b"own", Kind::Own),
    (b"borrow", Kind::Borrow),
    (b"option", Kind::Option),
    (b"list", Kind::List),
    (b"alias", Kind::Alias),
    (b"future", Kind::Future),
    (b"stream", Kind::Stream),
    (b"result", Kind::Result),
    (b"map", Kind::Map),
    (b"fixed", Kind::Fixed),
    (b"record", Kind::Record),
    (b"flags", Kind::Flags),
    (b"variant", Kind::Variant),
    (b"enum", Kind::Enum),
    (b"tuple", Kind::Tuple),
];

fn result(words: &mut Words<'_>) -> TypeDefKind {
    TypeDefKind::Result(Result_ {
        ok: optional_type(words),
        err: optional_type(words),
    })
}

fn kind_of(words: &mut Words<'_>, kind: Kind) -> TypeDefKind {
    match kind {
        Kind::Resource => TypeDefKind::Resource,
        Kind::Own => TypeDefKind::Handle(Handle::Own(words.read())),
        Kind::Borrow => TypeDefKind::Handle(Handle::Borrow(words.read())),
        Kind::Option => TypeDefKind::Option(words.read()),
        Kind::List => TypeDefKind::List(words.read()),
        Kind::Alias => TypeDefKind::Type_(words.read()),
        Kind::Future => TypeDefKind::Future(optional_type(words)),
        Kind::Stream => TypeDefKind::Stream(optional_type(words)),
        Kind::Result => result(words),
        Kind::Map => TypeDefKind::Map(words.read(), words.read()),
        Kind::Fixed => TypeDefKind::FixedLengthList(words.read(), words.number()),
        Kind::Record => TypeDefKind::Record(Record {
            fields: words.list(),
        }),
        Kind::Flags => TypeDefKind::Flags(Flags {
            flags: words.list(),
        }),
        Kind::Variant => TypeDefKind::Variant(Variant {
            cases: words.list(),
        }),
        Kind::Enum => TypeDefKind::Enum(Enum {
            cases: words.list(),
        }),
        Kind::Tuple => TypeDefKind::Tuple(Tuple {
            types: words.list(),
        }),
    }
}

/// A word and what belongs to it.
impl FromWords for TypeDefKind {
    fn from_words(words: &mut Words<'_>) -> TypeDefKind {
        match meaning_of(&KINDS, words.word()) {
            Some(kind) => kind_of(words, kind),
            None => {
                words.fail(Bad::Form);
                TypeDefKind::Resource
            }
        }
    }
}

/// `-`, or `i` and an interface's number, or `w` and a world's.
impl FromWords for TypeOwner {
    fn from_words(words: &mut Words<'_>) -> TypeOwner {
        match words.word() {
            b"-" => TypeOwner::None,
            b"i" => TypeOwner::Interface(InterfaceId(words.number())),
            b"w" => TypeOwner::World(WorldId(words.number())),
            _ => {
                words.fail(Bad::Form);
                TypeOwner::None
            }
        }
    }
}

impl FromWords for TypeDef {
    fn from_words(words: &mut Words<'_>) -> TypeDef {
        let name = words.optional_text();
        let owner = words.read();
        let docs = words.read();
        let stability = words.read();
        let external_id = words.optional_text();
        TypeDef {
            name,
            kind: words.read(),
            owner,
            docs,
            stability,
            external_id,
        }
    }
}

// ---- functions

/// `f`, `m`, `s` or `c`, with an `a` behind where it is asynchronous, and the resource's number.
impl FromWords for FunctionKind {
    fn from_words(words: &mut Words<'_>) -> FunctionKind {
        match words.word() {
            b"f" => FunctionKind::Freestanding,
            b"fa" => FunctionKind::AsyncFreestanding,
            word => member_kind(words, word),
        }
    }
}

// The kind of a function of a resource.
fn member_kind(words: &mut Words<'_>, word: &[u8]) -> FunctionKind {
    let id = words.read();
    match word {
        b"m" => FunctionKind::Method(id),
        b"ma" => FunctionKind::AsyncMethod(id),
        b"s" => FunctionKind::Static(id),
        b"sa" => FunctionKind::AsyncStatic(id),
        b"c" => FunctionKind::Constructor(id),
        _ => {
            words.fail(Bad::Form);
            FunctionKind::Freestanding
        }
    }
}

impl FromWords for Param {
    fn from_words(words: &mut Words<'_>) -> Param {
        Param {
            name: words.text(),
            ty: words.read(),
        }
    }
}

impl FromWords for Function {
    fn from_words(words: &mut Words<'_>) -> Function {
        Function {
            name: words.text(),
            kind: words.read(),
            params: words.list(),
            result: optional_type(words),
            docs: words.read(),
            stability: words.read(),
            external_id: words.optional_text(),
        }
    }
}
