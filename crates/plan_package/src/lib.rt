//! A plan, whole: the interfaces, the worlds and the packages that were followed.
#![tactic(auto)]

mod interfaces;
pub mod laws;
mod numbers;
mod packages;
mod plan;
mod views;
mod worlds;

pub use packages::packages_of;
pub use plan::plan_of;
pub use views::views_of_members;
