//! The two worlds that become one, and what is carried beside.

use crate::fate::Fate;
use crate::plan::Carried;
use wit_model::{Resolve, WorldId};

/// The own bound world, and the other one, whose items it gains.
#[derive(Clone, Copy)]
pub struct Bound<'a> {
    pub own: &'a Resolve,
    pub other: &'a Resolve,
    pub world: WorldId,
    pub other_world: WorldId,
}

/// What is carried by path, with the fates and the new numbers of types.
#[derive(Clone, Copy)]
pub struct First<'a> {
    pub carried: &'a Carried,
    pub fates: &'a [Fate],
    pub types: &'a [u32],
}
