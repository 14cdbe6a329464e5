//! Laws of whole plans: that what was followed and planned is a plan that was read; no code.
#![tactic(auto)]

pub mod laws;
