//! Proofs that what is shared may go to other threads and be read by several at once. No code calls them; snapshots
//! rest on them.

use crate::{Hashed, HashedMap, Shared, SharedMap};

fn may_cross<T: Send + Sync>(_value: &T) {}

/// A shared value may be shared among threads where its content may.
pub fn value_may_cross<T: Send + Sync>(value: &Shared<T>) {
    may_cross(value);
}

/// So may a map.
pub fn map_may_cross<K: Ord + Send + Sync, V: Send + Sync>(map: &SharedMap<K, V>) {
    may_cross(map);
}

/// So may a map by hashes.
pub fn hashed_may_cross<K: Hashed + Send + Sync, V: Send + Sync>(map: &HashedMap<K, V>) {
    may_cross(map);
}
