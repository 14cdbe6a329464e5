//! Encodes worlds as component types, interfaces as instance types, and their types and functions in any encoder.
#![tactic(auto)]

mod component_types;
mod interface;
pub mod laws;
mod order;
mod package;
mod world;

pub use component_types::interface_type;
pub use encode_kinds::{
    encode_enum, encode_flags, encode_func_type, encode_future, encode_option,
    encode_optional_valtype, encode_params, encode_record, encode_result, encode_stream,
    encode_tuple, encode_unit_future, encode_unit_stream, encode_valtype, encode_variant,
    extern_name, maybe_import_type,
};
pub use encode_types::{
    FunctionKey, LendsMaps, NameKey, NumberMap, ParamSignatures, TypeEncodingMaps, ValtypeEncoder,
    key_of,
};
pub use interface::Foreign;
pub use package::{encode, encode_component, wrapped_world};
pub use world::{WorldEncoder, WorldEncoderOf, encode_world};
