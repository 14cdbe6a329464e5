//! What the kind of a function says of it.

ghost use Rattle.std.specs.Prelude.{◌≡◌, option_map};
ghost use Rattle.wit_model.specs.Lookup.{is_async as is_async_lem, resource_of};

use crate::{FunctionKind, TypeId};

impl FunctionKind {
    /// The resource that a method, a static function or a constructor belongs to, by number. Takes constant time and no memory.
    pub fn resource(&self) -> Option<TypeId>
        ensures { option_map (λ id. id.0) result ≡ resource_of self.now }
    {
        match self {
            FunctionKind::Freestanding | FunctionKind::AsyncFreestanding => None,
            FunctionKind::Method(id)
            | FunctionKind::AsyncMethod(id)
            | FunctionKind::Static(id)
            | FunctionKind::AsyncStatic(id)
            | FunctionKind::Constructor(id) => Some(*id),
        }
    }

    /// Whether functions of this kind are asynchronous. Takes constant time and no memory.
    pub fn is_async(&self) -> bool
        ensures { result ≡ is_async_lem self.now }
    {
        match self {
            FunctionKind::AsyncFreestanding
            | FunctionKind::AsyncMethod(_)
            | FunctionKind::AsyncStatic(_) => true,
            FunctionKind::Freestanding
            | FunctionKind::Method(_)
            | FunctionKind::Static(_)
            | FunctionKind::Constructor(_) => false,
        }
    }
}
