//! What a store keeps for a part.

use std::collections::HashMap;
use std::hash::{BuildHasherDefault, FoldHasher};

/// The version and the value of a part that was written.
#[derive(Drop)]
pub struct Stored<V> {
    pub version: u64,
    pub value: V,
}

/// The stored_parts by part, in memory of `A`.
pub(crate) type StoredParts<T, V, A> = HashMap<T, Stored<V>, BuildHasherDefault<FoldHasher>, A>;
