//! Laws on what is kept and on misses: each function says one, and does nothing.

ghost use Rattle.locale_numbers_cache.specs.Laws.{EqualKeysAreOne, LastUsedAreKept, UnusedKeysMiss};

use crate::cache_key::CacheKey;

/// Keys are `==` exactly where they are one value: what the tag `EN` prefers is what `en` does, and not what `de` does.
pub fn equal_keys_are_one<K: CacheKey>()
    ensures { EqualKeysAreOne K.eq }
{}

/// The keys kept are the different keys that were used last, as many as the capacity says: of the keys 1, 2, 1, 3, 3
/// with a capacity of 2 they are 3 and 1.
pub fn last_used_are_kept<K: CacheKey>()
    ensures { LastUsedAreKept K.eq }
{}

/// A use misses exactly where its key is not one of those: after the keys 1, 2, 1, 3 with a capacity of 2 a use of 2
/// misses, and one of 1 does not.
pub fn unused_keys_miss<K: CacheKey>()
    ensures { UnusedKeysMiss K.eq }
{}
