//! The data of WIT packages: packages, interfaces, worlds and types that are named by number, their names, and validity.
#![tactic(auto)]

mod direct_deps;
mod error;
mod function_kind;
mod item_names;
pub mod laws;
pub mod lookup;
mod model;
pub mod named;
mod names;
mod paths;
mod world_entries;

pub use error::{Cause, ClashKind, EntryList, Error, Fault};
pub use model::{
    Case, Docs, Enum, EnumCase, Field, Flag, Flags, Function, FunctionKind, Handle, Interface,
    InterfaceId, Map, Package, PackageId, PackageName, Param, Record, Resolve, Result_, Stability,
    StringEncoding, Tuple, Type, TypeDef, TypeDefKind, TypeId, TypeOwner, Variant, World, WorldId,
    WorldItem, WorldKey,
};
pub use names::{after_prefix, is_label, is_version};
