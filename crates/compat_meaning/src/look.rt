//! What a look at two types shows.

use wit_model::Type;

/// What a look shows.
pub enum Look {
    /// Whether the types stand for the same.
    Known(bool),
    /// They do exactly where the types at equal places do.
    Parts(Vec<Type>, Vec<Type>),
}
