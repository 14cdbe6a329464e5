//! The bytes of a package with each value in the place of each: what they mean keeps its meaning.

use crate::same::is_kept;
use std::alloc::Global;
use std::test::Fail;
use wit_component::{Error, decode};
use wit_samples::bytes::INTERFACE_AND_WORLD;

/// Whether the package that bytes mean is the same when it is encoded and decoded again.
pub fn keep_meaning(alloc: Global, bytes: &[u8]) -> Result<bool, Error> {
    let (resolve, package) = decode(alloc, bytes)?;
    is_kept(alloc, &resolve, package)
}

// Whether bytes mean nothing, or a package that keeps its meaning, and how many packages they mean.
fn outcome(alloc: Global, bytes: &[u8]) -> (bool, usize) {
    match keep_meaning(alloc, bytes) {
        Ok(is_kept) => (is_kept, 1),
        Err(Error::NoReading(_, offset)) => (offset <= bytes.len(), 0),
        Err(_) => (false, 0),
    }
}

// Sets a byte to each value. How many of them leave bytes that mean a package, and none if a meaning isn't kept.
fn decoded_with(alloc: Global, bytes: &mut [u8], at: usize) -> usize {
    let mut count: usize = 0;
    for value in 0..256u32 {
        let Some(byte) = bytes.get_mut(at) else {
            return 0;
        };
        *byte = (value % 256) as u8;
        let (is_right, found) = outcome(alloc, bytes);
        if !is_right {
            return 0;
        }
        count = count.saturating_add(found);
    }
    count
}

// Of all values of each of the 132 bytes, one at least means a package.
#[test]
fn each_value_of_each_byte(rt: HostRuntime) -> Result<(), Fail> {
    for at in 0..132usize {
        let mut bytes = INTERFACE_AND_WORLD.to_vec(rt.alloc())?;
        assert!(rt; decoded_with(rt.alloc(), &mut bytes, at) > 0, "{at}");
    }
    Ok(())
}
