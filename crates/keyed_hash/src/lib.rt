//! Hashes that are keyed by what a stranger gives, for tables of what is taken from it.
//!
//! The hash that maps take by default is the same everywhere, so whoever gives the keys can look for many that collide. Here the key is a digest of the
//! bytes that were given (SipHash-1-3): other bytes, and all keys hash otherwise.
#![tactic(auto)]

use std::hash::{BuildHasher, DefaultHasher, FoldHasher, Hasher};

/// Makes the hashers of a table. No clause says what they answer: what a table holds doesn't depend on it.
#[derive(Clone, Copy)]
pub struct KeyedHash {
    start: FoldHasher,
}

impl BuildHasher for KeyedHash {
    type Hasher = FoldHasher;

    ghost build_hasher = { λ s. s.start };

    fn build_hasher(&self) -> FoldHasher {
        self.start
    }
}

impl KeyedHash {
    /// Keyed by these texts, one after the other. Takes time linear in them, and no memory.
    pub fn of_texts(texts: &[&str]) -> KeyedHash {
        let mut digest = Digest::new();
        for text in texts {
            digest.add(text.as_bytes());
        }
        digest.hash()
    }
}

/// A digest of bytes, as far as they were added.
#[derive(Clone, Copy)]
pub struct Digest {
    state: DefaultHasher,
}

impl Digest {
    /// Of no bytes.
    pub fn new() -> Digest {
        Digest {
            state: DefaultHasher::new(),
        }
    }

    /// Adds bytes. Takes time linear in them.
    pub fn add(&mut self, bytes: &[u8]) {
        self.state.write(bytes);
    }

    /// The hash that is keyed by the digest. Takes constant time.
    pub fn hash(&self) -> KeyedHash {
        let mut start = FoldHasher::default();
        start.write_u64(self.state.finish());
        KeyedHash { start }
    }
}
