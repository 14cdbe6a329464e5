//! Readers of WIT text: which tree stands in front of a list of tokens, or what is wanted there, and the laws that this is the grammar.
#![tactic(auto)]

mod declared;
mod externs;
mod front;
mod items;
mod keywords;
pub mod laws;
mod lists;
mod members;
mod packages;
mod parts;
mod paths;
mod prefix;
mod read;
mod refusal;
mod signatures;
mod sorts;
mod tree;
mod types;
mod words;
mod worlds;

pub use read::read_tree;
pub use refusal::{TreeError, Wanted, Word};
pub use tree::{
    CaseTree, Declared, ExternTree, FieldTree, Gates, LabelTree, MemberTree, NestedTree,
    PackageHead, ParamTree, PathTree, Prefix, ResourceMember, SignatureTree, Span, TextItem,
    TextTree, TypeTree, UsedName, WorldMember, WorldPart,
};
