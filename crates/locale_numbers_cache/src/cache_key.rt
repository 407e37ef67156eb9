//! What a thing is kept under, as a trait.

ghost use Rattle.std.specs.Prelude.{◌≡◌, IsTrue};

use std::hash::Hash;

/// A key of a cache: keys are `==` exactly where they are one value, and then they are hashed alike. What the tags `EN`
/// and `en` prefer is equal, and so is one key.
pub trait CacheKey: Copy + Drop + Hash {
    // Equal keys are one value.
    ghost same: { (one other : Self) → IsTrue (Self.eq one other) → one ≡ other };
}
