//! What a slot or a name of an encoder is of.

use comp_bytes::{ComponentDefinedType, ComponentExternName, ComponentFuncType};

/// What a slot is of, or a name. A type of another interface has no form.
#[derive(Drop)]
pub enum Form<'a> {
    Definition(ComponentDefinedType<'a>),
    Function(ComponentFuncType<'a>),
    /// A name of the type of a slot. It has no slot of its own.
    Export(u32, ComponentExternName<'a>),
    /// The name of a fresh resource.
    Resource(ComponentExternName<'a>),
}
