//! The key of the tables of names.

use std::hash::{BuildHasher, FoldHasher, Hasher};

/// The key with which tables hash names (our own). Names that collide cannot be chosen without knowing the key.
///
/// A key changes how long a lookup takes, but no result.
#[derive(Clone, Copy)]
pub struct HashKey {
    initial: FoldHasher,
}

impl HashKey {
    /// Returns a fixed key. Use it for names that nobody chose to collide.
    pub fn known() -> HashKey {
        HashKey {
            initial: FoldHasher::default(),
        }
    }

    /// Returns a key made from a secret. 16 random bytes suffice.
    pub fn of_secret(secret: &[u8]) -> HashKey {
        let mut initial = FoldHasher::default();
        initial.write(secret);
        HashKey { initial }
    }
}

// Each hasher starts in the state that the first hasher had after it read the key.
impl BuildHasher for HashKey {
    type Hasher = FoldHasher;

    ghost build_hasher = { λ key. key.initial };

    fn build_hasher(&self) -> FoldHasher {
        self.initial
    }
}
