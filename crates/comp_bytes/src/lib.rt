//! The bytes of component types: numbers, names, and the forms that stand over indexes.
#![tactic(auto)]

mod append;
mod builder;
mod component;
mod declare;
mod forms;
mod frames;
mod instance;
pub mod laws;
mod name;
mod nested;
mod number;
mod section;

pub use builder::ComponentBuilder;
pub use component::ComponentType;
pub use forms::{
    Alias, ComponentDefinedType, ComponentExternName, ComponentFuncType, ComponentTypeRef,
    ComponentValType, PrimitiveValType,
};
pub use frames::{Section, Sections, custom_name, front_section};
pub use instance::InstanceType;
pub use name::{read_name, write_name};
pub use number::{read_index, read_u32, write_index, write_u32};
