//! What was made for the most recently used keys, up to a capacity.

ghost use Rattle.std.specs.Prelude.{◌≡◌, ◌≤◌, Bool, List, ◌∷◌, [], Option, option_map, option_copied, slice_get, false, IfOk, OnOk, OnErr, IsOk, IsTrue};
ghost use Rattle.locale_numbers_cache.specs.Recent.{has};
ghost use Rattle.locale_numbers_cache.specs.Cached.{cached, most, ChangesNothing, IsFirst, IsSound, IsLatest, StillKept, kept_for, recent_of, recent_with, made_over};

use crate::cache_key::CacheKey;
use crate::maker::Maker;
use crate::promoting::{promote, put_made};
use lru::LruCache;
use std::alloc::{AllocError, Global};
use std::marker::Model;
use std::num::NonZeroUsize;

/// Things that a [`Maker`] made for keys, the most recently used, up to a capacity; and a count of all that were made.
/// With a capacity of 2, after the keys 1, 2, 1, 3 it keeps what was made for 3 and 1.
#[derive(Drop)]
pub struct FormatterCache<K: CacheKey, F: Drop> {
    kept: LruCache<K, F>,
    made: u64,
}

impl<K: CacheKey, F: Drop> Model for FormatterCache<K, F> {
    ghost use Rattle.std.specs.Prelude.{◌<◌, ◌≤◌, length};
    ghost use Rattle.locale_numbers_cache.specs.Cached.{Cached, cached, cached_code};

    ghost Value = { Cached K F };

    ghost coded = { cached_code K.code F.code };

    ghost view = { λ c. cached c.kept.entries c.kept.cap c.made };

    ghost invariant = { λ c. (length c.kept.entries ≤ c.kept.cap) × (0 < c.kept.cap) };
}

impl<K: CacheKey, F: Drop> FormatterCache<K, F> {
    /// A cache that keeps nothing yet, `capacity` things at most, 1 at least: with 16 it keeps up to sixteen, and
    /// `made` returns 0.
    ///
    /// The condition is that the capacity is 1 at least. It allocates. `AllocError`: out of memory.
    pub fn new(alloc: Global, capacity: usize) -> Result<Self, AllocError>
        requires { 1 ≤ capacity }
        ensures { IfOk result (λ cache. cache ≡ cached [] capacity 0) }
    {
        let capacity = NonZeroUsize::new(capacity).unwrap();
        let kept = LruCache::new(alloc, capacity)?;
        Ok(FormatterCache { kept, made: 0 })
    }

    /// Sees to it that what the maker makes for `key` is kept and is the latest; `false` where it makes nothing for it.
    ///
    /// It is made only where it is not kept already, and then pushes out what was used longest ago where the cache is
    /// full: with a capacity of 2, after the keys 1, 2, 1 the key 3 pushes out 2. A key for which nothing is made
    /// changes nothing. The condition is that all that is kept is what this maker makes for its key. It allocates only
    /// for a key that is not kept, and for which something is made. `AllocError`: out of memory; the cache is then as
    /// before.
    pub fn keep<M: Maker<K, F>>(&mut self, maker: &M, key: &K) -> Result<bool, AllocError>
        requires { IsSound (M.finds maker.now) (M.is_made maker.now) self.old }
        ensures succeeds { M.finds maker.now key.now ≡ false → IsOk result }
        ensures value { IfOk result (λ found. found ≡ M.finds maker.now key.now) }
        ensures latest { IfOk result (λ found. IsTrue found → IsLatest (M.is_made maker.now) key.now self.new) }
        ensures there { IfOk result (λ found. IsTrue found → IsTrue (has K.eq key.now (recent_of self.new))) }
        ensures recent { OnOk result (recent_of self.new ≡ recent_with K.eq (M.finds maker.now) self.old key.now) }
        ensures count { OnOk result (self.new.made ≡ made_over K.eq (M.finds maker.now) self.old (Some key.now ∷ [])) }
        ensures ahead { OnOk result ((more : List (Option K)) →
            made_over K.eq (M.finds maker.now) self.old (Some key.now ∷ more)
            ≡ made_over K.eq (M.finds maker.now) self.new more) }
        ensures sound { IsSound (M.finds maker.now) (M.is_made maker.now) self.new }
        // So a thing that stays is never made again.
        ensures held { StillKept K.eq self.old self.new }
        ensures capacity { self.new.capacity ≡ self.old.capacity }
        ensures same { IfOk result (λ found. found ≡ false → self.new ≡ self.old) }
        ensures err { OnErr result (self.new ≡ self.old) }
        ensures room { IsTrue (has K.eq key.now (recent_of self.old)) → IsOk result }
    {
        if promote(&mut self.kept, key) {
            return Ok(true);
        }
        if !put_made(&mut self.kept, maker, key)? {
            return Ok(false);
        }
        self.made = self.made.saturating_add(1);
        Ok(true)
    }

    /// How many things were made: 3 after the keys 1, 2, 1, 3, 1 with a capacity of 2; a count that does not fit is
    /// 18,446,744,073,709,551,615. It does not allocate.
    pub fn made(&self) -> u64
        ensures value { result ≡ self.now.made }
        ensures fits { self.now.made ≤ most }
    {
        self.made
    }

    /// What was kept or used last: after the keys 1, 2, 1 what was made for 1; `None` where nothing is kept. To use its
    /// key again would change nothing. It does not allocate.
    pub fn latest(&self) -> Option<&F>
        ensures value { option_copied result ≡ option_map (λ entry. entry.1) (slice_get self.now.entries 0) }
        ensures held { (key : K) → IsFirst key self.now
            → kept_for K.eq key self.now ≡ option_map (λ entry. entry.1) (slice_get self.now.entries 0) }
        // Whichever keys things are found for.
        ensures again { (finds : K → Bool) (key : K) → IsFirst key self.now → ChangesNothing K.eq finds key self.now }
    {
        match self.kept.peek_mru() {
            Some((_, kept)) => Some(kept),
            None => None,
        }
    }
}
