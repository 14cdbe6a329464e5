//! Tests of the byte layer: numbers, names, sections, and components that are built call by call.
#![tactic(auto)]

#[cfg(test)]
mod components;
#[cfg(test)]
mod many;
#[cfg(test)]
mod names;
#[cfg(test)]
mod numbers;
#[cfg(test)]
mod parts;
#[cfg(test)]
mod sections;
