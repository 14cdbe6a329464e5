//! The hash of tables whose keys are names of texts.

use crate::source::Source;
use keyed_hash::{Digest, KeyedHash};

/// Keyed by all texts, so that no texts can be found whose names collide.
pub(crate) fn hash_of(sources: &[Source<'_>]) -> KeyedHash {
    let mut digest = Digest::new();
    for source in sources {
        digest.add(source.text.as_bytes());
    }
    digest.hash()
}
