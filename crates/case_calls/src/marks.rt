//! The marks around a call, between which a request for memory may be refused.

use std::alloc::{AllocError, Global};

/// Requests of these sizes stand in front of a call and behind it: the script `refusals` knows the call by them.
const BEGIN: usize = 1_000_003;

const END: usize = 1_000_033;

/// Whether a call stands between marks.
#[derive(Clone, Copy)]
pub struct Marks {
    pub are_made: bool,
}

impl Marks {
    fn make(self, alloc: Global, size: usize) -> Result<(), AllocError> {
        if self.are_made {
            let _block: Vec<u8> = Vec::with_capacity(alloc, size)?;
        }
        Ok(())
    }

    /// The mark in front of a call.
    pub fn begin(self, alloc: Global) -> Result<(), AllocError> {
        self.make(alloc, BEGIN)
    }

    /// The mark behind it.
    pub fn end(self, alloc: Global) -> Result<(), AllocError> {
        self.make(alloc, END)
    }
}
