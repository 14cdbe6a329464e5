//! Prints types and functions: the calls that they come to, made one by one.
#![tactic(auto)]

mod alias;
mod block;
mod driver;
mod function;
mod gates;
mod labels;
mod prefix;
mod record;
mod resource;
mod spelled;
mod type_name;
mod variant;

pub use alias::{
    write_carrier_alias, write_fixed_list_alias, write_handle_alias, write_kind_alias,
    write_list_alias, write_map_alias, write_type_alias,
};
pub use driver::Driver;
pub use function::write_named;
pub use gates::write_gates;
pub use labels::{write_enum, write_flags};
pub use prefix::{write_docs, write_external_id, write_prefix};
pub use record::write_record;
pub use resource::write_resource;
pub use type_name::{present, write_type_name};
pub use variant::write_variant;
