//! Tests over the public names of `wit_component` and of `witc_run`, of what no line of a case shows. These are calls one after the other on one
//! encoder or table, large packages, the bytes of a package with each value in the place of each, and the program's commands.
#![tactic(auto)]

#[cfg(test)]
mod changed_bytes;
#[cfg(test)]
mod commands;
#[cfg(test)]
mod errors;
#[cfg(test)]
mod example;
#[cfg(test)]
mod fresh_encoder;
#[cfg(test)]
mod function_keys;
#[cfg(test)]
mod in_time;
#[cfg(test)]
mod instances;
#[cfg(test)]
mod names;
#[cfg(test)]
mod same;
#[cfg(test)]
mod senses;
#[cfg(test)]
mod table_calls;
#[cfg(test)]
mod whole_packages;
#[cfg(test)]
mod words;
