//! Formatters that are kept from line to line.

ghost use Rattle.std.specs.Prelude.{◌≡◌, Bool, Some, option_map, slice_get, IsSome};
ghost use Rattle.locale_numbers_cache.specs.Cached.{ChangesNothing, IsFirst, kept_for};

use crate::formatter_key::FormatterKey;
use crate::formatters::Formatters;
use crate::kept_formatter::{FormatterMaker, KeptFormatter};
use locale_numbers_book::Tables;
use locale_numbers_cache::{CacheKey, FormatterCache, Hashed};
use std::alloc::AllocError;

// The formatters that were used last, and who makes others.
#[derive(Drop)]
pub(crate) struct CachedFormatters<'a, T: Tables> {
    /// One that makes those that are not kept.
    pub maker: FormatterMaker<'a, T>,
    /// Those that were used last.
    pub formatters: FormatterCache<Hashed<FormatterKey>, KeptFormatter<'a>>,
    /// Whether the one that was found last is that of the front that came last.
    pub is_held: bool,
}

// What was used last, where there is such a thing.
fn latest_of<K: CacheKey, F: Drop>(formatters: &FormatterCache<K, F>) -> &F
    requires { IsSome (slice_get formatters.now.entries 0) }
    ensures value { Some result.now ≡ option_map (λ entry. entry.1) (slice_get formatters.now.entries 0) }
    ensures held { (key : K) → IsFirst key formatters.now → kept_for K.eq key formatters.now ≡ Some result.now }
    ensures again { (finds : K → Bool) (key : K) → IsFirst key formatters.now
        → ChangesNothing K.eq finds key formatters.now }
{
    match formatters.latest() {
        Some(kept) => kept,
        None => unreachable!(),
    }
}

impl<'a, T: Tables> Formatters<'a> for CachedFormatters<'a, T> {
    ghost use Rattle.std.specs.Prelude.{IsTrue, refl};
    ghost use Rattle.locale_numbers_cache.specs.Cached.{IsLatest, IsSound, kept_for, recent_of};
    ghost use Rattle.locale_numbers_cache.specs.Recent.{has};
    ghost use Rattle.locale_numbers.specs.FormatterKeys.{finds};
    ghost use Rattle.locale_numbers.specs.KeptAnswers.{keeping_in, keeping_over};
    ghost use Rattle.locale_numbers.specs.KeptFormatters.{IsMadeFor};

    ghost book = { λ s. T.book s.maker.tables.now };

    ghost is_ready = { λ s. IsSound (finds (T.book s.maker.tables.now)) (IsMadeFor (T.book s.maker.tables.now))
        s.formatters };

    ghost keeping_over = { λ s keys. keeping_over (keeping_in (T.book s.maker.tables.now) s.formatters) keys };

    // Only of a key that is not kept.
    ghost may_take_memory = { λ s key. ¬ (IsTrue (has ⟦<FormatterKey as PartialEq>⟧.eq key (recent_of s.formatters))) };

    ghost kept_for = { λ s key. kept_for ⟦<FormatterKey as PartialEq>⟧.eq key s.formatters };

    ghost holds = { λ s key. IsLatest (IsMadeFor (T.book s.maker.tables.now)) key s.formatters };

    ghost is_right_for = { λ s key. IsTrue s.is_held
        → IsLatest (IsMadeFor (T.book s.maker.tables.now)) key s.formatters };

    fn find(&mut self, key: &Hashed<FormatterKey>) -> Result<bool, AllocError> {
        if self.is_held {
            let _again = self.found(key); // for the proof
            return Ok(true);
        }
        self.is_held = self.formatters.keep(&self.maker, key)?;
        Ok(self.is_held)
    }

    fn found(&self, _key: &Hashed<FormatterKey>) -> &KeptFormatter<'a> {
        latest_of(&self.formatters)
    }

    ghost changes_none = { λ s more. refl };
}
