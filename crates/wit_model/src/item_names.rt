//! The names of functions among their owner's items, and how constructors may be written.

ghost use Rattle.std.specs.Prelude.{◌≡◌};
ghost use Rattle.wit_model.specs.Calls.{after_dot as after_dot_lem, gives_own as gives_own_lem, is_constructor_shorthand as is_constructor_shorthand_lem, item_name as item_name_lem};

use crate::lookup::is_own_of;
use crate::{Function, FunctionKind, Resolve};

// What follows the first dot of a name.
fn after_dot(name: &str) -> &str
    ensures { result.now ≡ after_dot_lem name.now }
{
    match name.split_once('.') {
        Some((_, member)) => member,
        None => "",
    }
}

fn gives_own(resolve: &Resolve, number: usize, function: &Function) -> bool
    ensures { result ≡ gives_own_lem resolve.now number function.now }
{
    match function.result {
        Some(ty) => is_own_of(resolve, ty, number),
        None => false,
    }
}

impl Function {
    /// The name of a function without that of its resource: after the dot for methods and static functions, `constructor` for a
    /// constructor. Takes one pass over the name, and no memory.
    pub fn item_name(&self) -> &str
        ensures { result.now ≡ item_name_lem self.now }
    {
        match self.kind {
            FunctionKind::Freestanding | FunctionKind::AsyncFreestanding => self.name.as_str(),
            FunctionKind::Method(_)
            | FunctionKind::AsyncMethod(_)
            | FunctionKind::Static(_)
            | FunctionKind::AsyncStatic(_) => after_dot(&self.name),
            FunctionKind::Constructor(_) => "constructor",
        }
    }

    /// Whether a function is a constructor of a resource that gives an unnamed `own` of it, so that its result need not be written.
    /// Takes constant time and no memory.
    pub fn is_constructor_shorthand(&self, resolve: &Resolve) -> bool
        ensures { result ≡ is_constructor_shorthand_lem resolve.now self.now }
    {
        match self.kind {
            FunctionKind::Constructor(id) => gives_own(resolve, id.0 as usize, self),
            FunctionKind::Freestanding
            | FunctionKind::AsyncFreestanding
            | FunctionKind::Method(_)
            | FunctionKind::AsyncMethod(_)
            | FunctionKind::Static(_)
            | FunctionKind::AsyncStatic(_) => false,
        }
    }
}
