//! A value beside its hash.

ghost use Rattle.std.specs.Prelude.{◌≡◌};
ghost use Rattle.std.specs.Hash as fed;
ghost use Rattle.std.proofs.Common.{ap};
ghost use Rattle.locale_numbers_cache.specs.Hashed.{hash_by};

use crate::cache_key::CacheKey;
use std::alloc::AllocError;
use std::hash::{FoldHasher, Hash, Hasher};
use std::marker::Model;

/// A value beside its hash: a part of a key that is looked up often is gone through once. `Hashed::new(5)` is 5 beside
/// the hash of 5.
///
/// It is compared by its hash first, and feeds a hasher that one number.
#[derive_where(Copy)]
pub struct Hashed<V: Copy + Hash> {
    value: V,
    hash: u64,
}

impl<V: Copy + Hash> Model for Hashed<V> {
    ghost use Rattle.std.specs.Prelude.{◌≡◌};
    ghost use Rattle.std.proofs.Common.{sym};
    ghost use Rattle.locale_numbers_cache.specs.Hashed.{hash_by};

    ghost Value = { V };

    ghost view = { λ h. h.value };

    ghost invariant = { λ h. h.hash ≡ hash_by (V.hash_input h.value) };

    ghost inverse = { λ value. record { value = value; hash = hash_by (V.hash_input value) } };

    ghost inverse_ok = { λ h right i. record { value = h.value; hash = (sym right) i } };
}

impl<V: Copy + Hash> Hashed<V> {
    /// The value, hashed by a `FoldHasher`: of 5 it is 5 beside its hash. It does not allocate.
    pub fn new(value: V) -> Self
        ensures { result ≡ value }
    {
        let mut hasher = FoldHasher::default();
        value.hash(&mut hasher);
        Hashed {
            value,
            hash: hasher.finish(),
        }
    }

    /// The value: 5 of `Hashed::new(5)`. It does not allocate.
    pub fn value(&self) -> V
        ensures { result ≡ self.now }
    {
        self.value
    }
}

/// The same once more: of 5 beside its hash another 5 beside it. It does not allocate.
impl<V: Copy + Hash> Clone for Hashed<V> {
    ghost is_clone = { λ one other. one ≡ other };

    fn clone(&self) -> Result<Self, AllocError> {
        Ok(*self)
    }
}

impl<V: Copy + Hash> PartialEq for Hashed<V> {
    ghost eq = { V.eq };

    ghost laws = { V.PartialEq.laws };

    fn eq(&self, other: &Self) -> bool {
        self.hash == other.hash && self.value == other.value
    }
}

impl<V: Copy + Hash> Eq for Hashed<V> {
    ghost laws = { V.Eq.laws };
}

impl<K: CacheKey> CacheKey for Hashed<K> {
    ghost same = { K.same };
}

impl<V: Copy + Hash> Hash for Hashed<V> {
    ghost hash_input = { λ value. fed.u64 (hash_by (V.hash_input value)) };

    ghost respects_eq = { λ one other same. ap (λ writes. fed.u64 (hash_by writes)) (V.respects_eq one other same) };

    fn hash<H: Hasher>(&self, state: &mut H) {
        state.write_u64(self.hash);
    }
}
