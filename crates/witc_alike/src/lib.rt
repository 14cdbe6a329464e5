//! What bytes are, which worlds a module carries, and whether two worlds of two packages have one sense.
#![tactic(auto)]

mod carried;
mod kinds;
mod likeness;

pub use carried::{section_data, sections_data};
pub use kinds::kinds_of;
pub use likeness::{Alike, liken};
