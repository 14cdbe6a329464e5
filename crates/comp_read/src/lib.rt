//! Component bytes decoded into the packages and the worlds that they mean.
#![tactic(auto)]

mod building;
mod causes;
mod decoding;
pub mod laws;
mod own;
mod packages;
mod reading;
mod wanted;
mod worlds;

pub use decoding::{decode, decode_world};
