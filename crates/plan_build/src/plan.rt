//! A plan: what a package or a world is read as, in the numbers that it gets in the `Resolve`, before that is made. What a plan states, in
//! the words of `plan_meaning`, is `stated_plan`.
//!
//! Each list stands in the order of the numbers, and each may be filled entry by entry as its entries are met. Texts are parts of the
//! input, or of texts that whoever fills the plan keeps.

use wit_model::{FunctionKind, InterfaceId, PackageId, Type, TypeId, TypeOwner, WorldId};

/// All that is read.
#[derive(Drop)]
pub struct Plan<'a> {
    pub packages: Vec<PlannedPackage<'a>>,
    pub interfaces: Vec<PlannedInterface<'a>>,
    pub worlds: Vec<PlannedWorld<'a>>,
    pub types: Vec<PlannedType<'a>>,
    /// The package that it is read as, or whose world it is.
    pub main: PackageId,
}

/// A package (WIT.md, "Package declaration"): its name, and its interfaces and worlds by name.
#[derive(Drop)]
pub struct PlannedPackage<'a> {
    pub namespace: &'a str,
    pub name: &'a str,
    /// The text of a version, of Semantic Versioning 2.0.0.
    pub version: Option<&'a str>,
    pub interfaces: Vec<(&'a str, InterfaceId)>,
    pub worlds: Vec<(&'a str, WorldId)>,
}

/// An interface (WIT.md, "Interfaces"), inline where it has no name: its types by name, and its functions.
#[derive(Drop)]
pub struct PlannedInterface<'a> {
    pub name: Option<&'a str>,
    pub package: Option<PackageId>,
    pub types: Vec<(&'a str, TypeId)>,
    pub functions: Vec<PlannedFunction<'a>>,
}

/// A world (WIT.md, "Worlds"): its imports and its exports.
#[derive(Drop)]
pub struct PlannedWorld<'a> {
    pub name: &'a str,
    pub package: Option<PackageId>,
    pub imports: Vec<(PlannedKey<'a>, PlannedItem<'a>)>,
    pub exports: Vec<(PlannedKey<'a>, PlannedItem<'a>)>,
}

/// Under what an import or an export stands: a label, or the path of an interface.
#[derive(Clone, Copy)]
pub enum PlannedKey<'a> {
    Label(&'a str),
    Path(InterfaceId),
}

/// An import or an export.
#[derive(Drop)]
pub enum PlannedItem<'a> {
    /// An interface, and the external id of the import or export.
    Interface {
        id: InterfaceId,
        external_id: Option<&'a str>,
    },
    Function(PlannedFunction<'a>),
    Declares(TypeId),
}

/// A function (WIT.md, "Functions").
#[derive(Drop)]
pub struct PlannedFunction<'a> {
    pub name: &'a str,
    pub kind: FunctionKind,
    pub params: Vec<(&'a str, Type)>,
    pub result: Option<Type>,
    pub external_id: Option<&'a str>,
}

/// A type (WIT.md, "Types"), with a name and an owner where it is declared.
#[derive(Drop)]
pub struct PlannedType<'a> {
    pub name: Option<&'a str>,
    pub owner: TypeOwner,
    pub kind: PlannedKind<'a>,
    pub external_id: Option<&'a str>,
}

/// What a type is.
#[derive(Drop)]
pub enum PlannedKind<'a> {
    Resource,
    /// Another name for a type.
    Alias(Type),
    Record(Vec<(&'a str, Type)>),
    Variant(Vec<(&'a str, Option<Type>)>),
    List(Type),
    FixedLengthList(Type, u32),
    Map(Type, Type),
    Tuple(Vec<Type>),
    Flags(Vec<&'a str>),
    Enum(Vec<&'a str>),
    Option(Type),
    Result(Option<Type>, Option<Type>),
    Own(TypeId),
    Borrow(TypeId),
    Future(Option<Type>),
    Stream(Option<Type>),
}
