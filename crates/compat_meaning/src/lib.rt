//! What compatibility means, and what is compared first: names, keys, kinds, labels and places.
#![tactic(auto)]

pub mod follow;
pub mod keys;
pub mod kinds;
pub mod labels;
pub mod look;
pub mod names;
pub mod pairs;
pub mod part;
pub mod place;
pub mod repeats;
pub mod side;
