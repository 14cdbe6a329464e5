//! Defines the types of packages as component types, in any encoder that keeps a stated law.
#![tactic(auto)]

mod define;
mod encode;
mod func_type;
mod name;

pub use encode::{
    encode_enum, encode_flags, encode_future, encode_option, encode_optional_valtype,
    encode_params, encode_record, encode_result, encode_stream, encode_tuple, encode_unit_future,
    encode_unit_stream, encode_valtype, encode_variant, maybe_import_type,
};
pub use func_type::encode_func_type;
pub use name::{extern_name, name_of};
