//! What is looked for in bytes.

/// A package, or one world.
#[derive(Clone, Copy)]
pub(crate) enum Wanted {
    Package,
    World,
}
