//! The rules of reading over numbers.
#![tactic(auto)]

mod functions;
mod interfaces;
mod items;
mod parts;
mod places;
mod reached;
mod resources;
mod scopes;
mod sights;
mod tables;
mod types_of_interfaces;
mod uses;
mod views;
mod worlds;

pub use functions::{is_function, resource_in};
pub use interfaces::is_interface;
pub use items::{are_exports, are_imports};
pub use parts::{is_declared, is_signature};
pub use places::are_once;
pub use reached::{ImportedView, are_reached};
pub use resources::hash_of;
pub use scopes::{Instance, InstanceKey, Scope, Seen, Shown};
pub use sights::{Sight, add_sights, are_interfaces, sights_of_scope};
pub use tables::{Fact, FunctionType, Names, Tables, TypeShape, function_at, name_in, shape_at};
pub use types_of_interfaces::{exported_view, imported_view};
pub use uses::stand_earlier;
pub use views::{TypeSlot, View, ViewFunction, ViewType};
pub use worlds::is_world;
