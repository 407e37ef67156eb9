//! Two places for the bytes of one hash.

ghost use Rattle.std.specs.Prelude.{◌≡◌, true, None, Some, OnOk, OnErr, IsOk, option_copied};
ghost use Rattle.locale_numbers_cache.specs.LastRead.{AreRead, Uses, either_remembers, key_at, remembers};

use crate::key_reader::KeyReader;
use crate::last_key::LastKey;
use std::alloc::{AllocError, Global};
use std::marker::Model;

/// Two places for the bytes of one hash: those that came last, and others.
#[derive(Drop)]
pub struct KeyPair<K: Copy> {
    first: LastKey<K>,
    second: LastKey<K>,
    /// The second was used last.
    is_second_last: bool,
}

impl<K: Copy> Model for KeyPair<K> {
    ghost use Rattle.std.specs.Prelude.{ℕ, List, if◌then◌else◌};
    ghost use Rattle.std.specs.Coded.{coded_list, coded_ℕ, coded×, coded_option};
    ghost use Rattle.locale_numbers_cache.specs.LastRead.{Place};

    ghost Value = { Place K × Place K };

    ghost coded = { coded× (coded_option (coded× (coded_list coded_ℕ) K.code))
        (coded_option (coded× (coded_list coded_ℕ) K.code)) };

    // The place used last, and the other.
    ghost view = { λ p. if p.is_second_last then (p.second, p.first) else (p.first, p.second) };
}

impl<K: Copy> KeyPair<K> {
    /// Two that remember nothing yet. It does not allocate.
    pub fn new(alloc: Global) -> Self
        ensures { result ≡ (None, None) }
    {
        KeyPair {
            first: LastKey::new(alloc),
            second: LastKey::new(alloc),
            is_second_last: false,
        }
    }

    // The place that was used last.
    fn last(&self) -> &LastKey<K>
        ensures { result.now ≡ self.now.0 }
    {
        if self.is_second_last {
            &self.second
        } else {
            &self.first
        }
    }

    /// Whether the place that was used last remembers these bytes. It does not allocate.
    pub fn is_last(&self, bytes: &[u8]) -> bool
        ensures { result ≡ remembers bytes.now self.now.0 }
    {
        self.last().remembers(bytes)
    }

    /// The key of the bytes that were used last; `None` of a pair that remembers nothing. It does not allocate.
    pub fn latest(&self) -> Option<&K>
        ensures { option_copied result ≡ key_at self.now.0 }
    {
        self.last().key()
    }

    // Remembers the bytes with their key in the place that was not used last.
    fn keep(&mut self, bytes: &[u8], key: K) -> Result<(), AllocError>
        ensures last { OnOk result (self.new ≡ (Some (bytes.now, key), self.old.0)) }
        ensures err { OnErr result (self.new ≡ self.old) }
    {
        if self.is_second_last {
            self.first.keep(bytes, key)?;
        } else {
            self.second.keep(bytes, key)?;
        }
        self.is_second_last = !self.is_second_last;
        Ok(())
    }

    // Reads bytes that neither place remembers. It is apart, so that what it needs is no part of a use that reads nothing.
    #[inline(never)]
    fn read<R: KeyReader<K>>(&mut self, reader: &R, bytes: &[u8]) -> Result<(), AllocError>
        ensures last { OnOk result (self.new ≡ (Some (bytes.now, R.key_of reader.now bytes.now), self.old.0)) }
        ensures err { OnErr result (self.new ≡ self.old) }
    {
        let key = reader.read(bytes)?;
        self.keep(bytes, key)
    }

    /// Makes the bytes those that were used last, with their key. They are read only where neither place remembers them.
    ///
    /// The condition is that each key it remembers is the one that this reader reads. Bytes that are read push out
    /// those that were not used last. `AllocError`: out of memory; it then remembers what it did.
    pub fn find<R: KeyReader<K>>(&mut self, reader: &R, bytes: &[u8]) -> Result<(), AllocError>
        requires { AreRead (R.key_of reader.now) self.old }
        ensures used { OnOk result (Uses bytes.now (R.key_of reader.now bytes.now) self.old self.new) }
        ensures sound { AreRead (R.key_of reader.now) self.new }
        ensures err { OnErr result (self.new ≡ self.old) }
        ensures room { either_remembers bytes.now self.old ≡ true → IsOk result }
    {
        if self.first.remembers(bytes) {
            self.is_second_last = false;
            return Ok(());
        }
        if self.second.remembers(bytes) {
            self.is_second_last = true;
            return Ok(());
        }
        self.read(reader, bytes)
    }
}
