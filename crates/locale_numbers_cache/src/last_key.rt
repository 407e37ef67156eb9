//! One place for bytes and what was read from them.

ghost use Rattle.std.specs.Prelude.{◌≡◌, Some, None, OnOk, OnErr, option_copied};
ghost use Rattle.locale_numbers_cache.specs.LastRead.{key_at, remembers};

use std::alloc::{AllocError, Global};
use std::marker::Model;

/// The bytes that came to a place last, beside their key.
#[derive(Drop)]
pub struct LastKey<K: Copy> {
    bytes: Vec<u8>,
    key: Option<K>,
}

impl<K: Copy> Model for LastKey<K> {
    ghost use Rattle.std.specs.Prelude.{ℕ, List, option_map};
    ghost use Rattle.std.specs.Coded.{coded_list, coded_ℕ, coded×, coded_option};
    ghost use Rattle.locale_numbers_cache.specs.LastRead.{Place};

    ghost Value = { Place K };

    ghost coded = { coded_option (coded× (coded_list coded_ℕ) K.code) };

    ghost view = { λ l. option_map (λ key. (l.bytes.items, key)) l.key };
}

impl<K: Copy> LastKey<K> {
    /// One that remembers nothing yet. It does not allocate.
    pub fn new(alloc: Global) -> Self
        ensures { result ≡ None }
    {
        LastKey {
            bytes: Vec::new(alloc),
            key: None,
        }
    }

    /// Whether these are the bytes that it remembers. It does not allocate.
    pub fn remembers(&self, bytes: &[u8]) -> bool
        ensures { result ≡ remembers bytes.now self.now }
    {
        self.key.is_some() && self.bytes.as_slice() == bytes
    }

    /// The key that it remembers, whatever its bytes. It does not allocate.
    pub fn key(&self) -> Option<&K>
        ensures { option_copied result ≡ key_at self.now }
    {
        self.key.as_ref()
    }

    /// Remembers the bytes with their key, in place of what it did.
    ///
    /// `AllocError`: out of memory; it then remembers what it did.
    pub fn keep(&mut self, bytes: &[u8], key: K) -> Result<(), AllocError>
        ensures last { OnOk result (self.new ≡ Some (bytes.now, key)) }
        ensures err { OnErr result (self.new ≡ self.old) }
    {
        self.bytes.reserve(bytes.len())?;
        self.bytes.clear();
        self.bytes.extend_from_slice(bytes)?;
        self.key = Some(key);
        Ok(())
    }
}
