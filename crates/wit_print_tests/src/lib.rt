//! Tests of the printer: outputs that refuse a call, the calls that print a part of a package, and types from an iterator.
#![tactic(auto)]

#[cfg(test)]
mod call_lists;
#[cfg(test)]
mod given_types;
#[cfg(test)]
mod outputs;
#[cfg(test)]
mod packages;
#[cfg(test)]
mod recording;
#[cfg(test)]
mod refused;
#[cfg(test)]
mod single_calls;
