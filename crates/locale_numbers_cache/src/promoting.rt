//! The entry of a key goes to the front, with no look-up where it is there; or one is made and put there.

ghost use Rattle.std.specs.Prelude.{◌≡◌, false, is_some, IfOk, IsOk, IsTrue, OnErr, OnOk};
ghost use Rattle.std.specs.Map.{lookup};
ghost use Rattle.lru.specs.LruCache.{lru_cache, promoted, put_entries};
ghost use Rattle.locale_numbers_cache.specs.Cached.{first_passes};
ghost use Rattle.locale_numbers_cache.specs.Putting.{IsPut};

use crate::cache_key::CacheKey;
use crate::maker::Maker;
use lru::LruCache;
use std::alloc::AllocError;

// Whether the first entry is that of the key.
fn is_first<K: CacheKey, F: Drop>(kept: &LruCache<K, F>, key: &K) -> bool
    ensures { result ≡ first_passes (K.eq key.now) kept.now.entries }
{
    match kept.peek_mru() {
        Some((first, _)) => key == first,
        None => false,
    }
}

// Puts the entry of the key first; whether there is one.
pub fn promote<K: CacheKey, F: Drop>(kept: &mut LruCache<K, F>, key: &K) -> bool
    ensures value { result ≡ is_some (lookup (K.eq key.now) kept.old.entries) }
    ensures entries { kept.new ≡ lru_cache (promoted (K.eq key.now) kept.old.entries) kept.old.cap }
{
    if is_first(kept, key) {
        return true;
    }
    kept.promote(key)
}

// Puts a thing first under a key. It is apart, so that making a thing and putting it take room on the stack in turn.
#[inline(never)]
fn put<K: CacheKey, F: Drop>(kept: &mut LruCache<K, F>, key: K, made: F) -> Result<(), AllocError>
    ensures entries { OnOk result (kept.new ≡ lru_cache (put_entries K.eq kept.old key made) kept.old.cap) }
    ensures err { OnErr result (kept.new ≡ kept.old) }
{
    kept.put(key, made)?;
    Ok(())
}

// Puts what the maker makes for the key first; `false` where it makes nothing. It is apart, so that a key that is kept
// takes no room for what is made.
#[inline(never)]
pub fn put_made<K: CacheKey, F: Drop, M: Maker<K, F>>(
    kept: &mut LruCache<K, F>,
    maker: &M,
    key: &K,
) -> Result<bool, AllocError>
    ensures succeeds { M.finds maker.now key.now ≡ false → IsOk result }
    ensures value { IfOk result (λ found. found ≡ M.finds maker.now key.now) }
    ensures put { IfOk result (λ found. IsTrue found → IsPut K.eq (M.is_made maker.now) key.now kept.old kept.new) }
    ensures same { IfOk result (λ found. found ≡ false → kept.new ≡ kept.old) }
    ensures err { OnErr result (kept.new ≡ kept.old) }
{
    let Some(made) = maker.make(*key) else {
        return Ok(false);
    };
    put(kept, *key, made)?;
    Ok(true)
}
