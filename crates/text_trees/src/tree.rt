//! Trees of WIT text. Names, numbers, versions and strings are spans of the text that was read; so are the gaps in which documentation stands, in front of
//! what it belongs to.

use text_tokens::Primitive;

/// Bytes of a text, from `start` on, up to before `end`.
#[derive(Clone, Copy, Debug, PartialEq, Eq)]
pub struct Span {
    pub start: u32,
    pub end: u32,
}

/// A type where it is used (WIT.md, Types).
#[derive(Drop)]
pub enum TypeTree {
    PrimitiveType(Primitive),
    /// A declared type, without `%`.
    Name(Span),
    Own(Span),
    Borrow(Span),
    TupleOf(Vec<TypeTree>),
    OptionOf(Box<TypeTree>),
    ListOf(Box<TypeTree>),
    /// A list of so many elements, by the digits of the number.
    FixedListOf(Box<TypeTree>, Span),
    MapOf(Box<TypeTree>, Box<TypeTree>),
    Result,
    ResultOk(Box<TypeTree>),
    ResultErr(Box<TypeTree>),
    ResultOf(Box<TypeTree>, Box<TypeTree>),
    Future,
    FutureOf(Box<TypeTree>),
    Stream,
    StreamOf(Box<TypeTree>),
}

/// A parameter of a function.
#[derive(Drop)]
pub struct ParamTree {
    pub name: Span,
    pub ty: TypeTree,
}

/// A function's type (WIT.md, Item: func-type).
#[derive(Drop)]
pub struct SignatureTree {
    pub is_async: bool,
    pub params: Vec<ParamTree>,
    pub result: Option<TypeTree>,
}

/// Feature gates (WIT.md, Feature gates).
#[derive(Clone, Copy, Debug, PartialEq, Eq)]
pub enum Gates {
    Ungated,
    /// Since a version, and deprecated since one.
    Since(Span, Option<Span>),
    /// Unstable under a feature, and deprecated since a version.
    Unstable(Span, Option<Span>),
}

/// What stands in front of an item: the gap with its documentation, gates, and an external id with its quotation marks.
#[derive(Clone, Copy, Debug, PartialEq, Eq)]
pub struct Prefix {
    pub docs: Span,
    pub gates: Gates,
    pub external_id: Option<Span>,
}

/// An interface's place: in the same package, or by namespace, package, interface and version (WIT.md, use-path).
#[derive(Clone, Copy, Debug, PartialEq, Eq)]
pub enum PathTree {
    Local(Span),
    Full(Span, Span, Span, Option<Span>),
}

/// A name of a `use`, and what it is called here, if that is another name.
#[derive(Clone, Copy, Debug, PartialEq, Eq)]
pub struct UsedName {
    pub other: Span,
    pub own: Option<Span>,
}

/// A field of a record.
#[derive(Drop)]
pub struct FieldTree {
    pub docs: Span,
    pub name: Span,
    pub ty: TypeTree,
}

/// A case of a variant, with its payload where it has one.
#[derive(Drop)]
pub struct CaseTree {
    pub docs: Span,
    pub name: Span,
    pub payload: Option<TypeTree>,
}

/// A flag, or a case of an enum.
#[derive(Clone, Copy, Debug, PartialEq, Eq)]
pub struct LabelTree {
    pub docs: Span,
    pub name: Span,
}

/// What a resource has (WIT.md, Item: resource).
#[derive(Drop)]
pub enum ResourceMember {
    Constructor(Prefix, Vec<ParamTree>, Option<TypeTree>),
    Method(Prefix, Span, SignatureTree),
    Static(Prefix, Span, SignatureTree),
}

/// A declared type (WIT.md, Item: type).
#[derive(Drop)]
pub enum Declared {
    RecordOf(Span, Vec<FieldTree>),
    VariantOf(Span, Vec<CaseTree>),
    FlagsOf(Span, Vec<LabelTree>),
    EnumOf(Span, Vec<LabelTree>),
    AliasOf(Span, TypeTree),
    ResourceOf(Span, Vec<ResourceMember>),
}

/// What an interface has (WIT.md, Item: interface).
#[derive(Drop)]
pub enum MemberTree {
    UseMember(Prefix, PathTree, Vec<UsedName>),
    TypeMember(Prefix, Declared),
    FunctionMember(Prefix, Span, SignatureTree),
}

/// What a world imports or exports.
#[derive(Drop)]
pub enum ExternTree {
    Path(PathTree),
    NamedFunction(Span, SignatureTree),
    NamedPath(Span, PathTree),
    NamedInterface(Span, Vec<MemberTree>),
}

/// What a world has (WIT.md, Item: world).
#[derive(Drop)]
pub enum WorldMember {
    WorldUse(Prefix, PathTree, Vec<UsedName>),
    WorldType(Prefix, Declared),
    WorldImport(Prefix, ExternTree),
    WorldExport(Prefix, ExternTree),
}

/// A package's namespace, name and version (WIT.md, Package declaration).
#[derive(Clone, Copy, Debug, PartialEq, Eq)]
pub struct PackageHead {
    pub namespace: Span,
    pub name: Span,
    pub version: Option<Span>,
}

/// What a world of a text has (WIT.md, Item: world, Item: include).
#[derive(Drop)]
pub enum WorldPart {
    Has(WorldMember),
    /// All that the world of a path has, with other names for some of it.
    Includes(Prefix, PathTree, Vec<UsedName>),
}

/// An item of a text: an interface or a world, with the gap with its documentation, its gates, its name and what it has. Or a name for the one that a path
/// means: its last name, or another (WIT.md, Item: toplevel-use).
#[derive(Drop)]
pub enum TextItem {
    AnInterface(Span, Gates, Span, Vec<MemberTree>),
    AWorld(Span, Gates, Span, Vec<WorldPart>),
    AName(PathTree, Option<Span>),
}

/// A package that is nested in a text: the gap with its documentation, what names it, and items.
#[derive(Drop)]
pub struct NestedTree {
    pub docs: Span,
    pub head: PackageHead,
    pub items: Vec<TextItem>,
}

/// A text: the gap in front of it, which has its package's documentation where it names one, what names its package, if it says so, its items, and the nested
/// packages.
#[derive(Drop)]
pub struct TextTree {
    pub docs: Span,
    pub head: Option<PackageHead>,
    pub items: Vec<TextItem>,
    pub nested: Vec<NestedTree>,
}
