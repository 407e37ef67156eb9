//! Bytes that were read before, each beside its key.

ghost use Rattle.std.specs.Prelude.{◌≡◌, ◌<◌, ◌≤◌, ℕ, List, length, true, None, Some, slice_get, IfOk, IfSome, IsSome, OnOk, OnErr, IsOk, IsTrue};
ghost use Rattle.std.specs.List.{All};
ghost use Rattle.locale_numbers_cache.specs.LastRead.{AreRead, IsLastOf, Uses, either_remembers, pair_at};

use crate::key_pair::KeyPair;
use crate::key_reader::KeyReader;
use std::alloc::{AllocError, Global};
use std::hash::{FoldHasher, Hasher};
use std::marker::Model;

// How many pairs of places there are.
const PAIRS: usize = 512;

// The longest bytes that are kept: longer ones are read each time.
const LONGEST: usize = 256;

// The pair of places of the bytes, by a hash of them: of bytes with one pair those of the last two are kept.
fn pair_of(bytes: &[u8]) -> usize
    ensures value { result ≡ pair_at bytes.now }
    ensures within { result < 512 }
{
    let mut hasher = FoldHasher::default();
    hasher.write(bytes);
    (hasher.finish() % PAIRS as u64) as usize
}

/// Bytes that were read before, each beside its key: they are not read again. Of `a`, `a` the second is not read.
///
/// There are 1,024 places in 512 pairs, and a hash of the bytes says which pair is theirs.
#[derive(Drop)]
pub struct ReadKeys<K: Copy> {
    pairs: Vec<KeyPair<K>>,
    /// The pair of the bytes that came last; no pair where they are too long to be kept.
    last: usize,
    /// The key of bytes that are too long to be kept, where they came last.
    long: Option<K>,
}

impl<K: Copy> Model for ReadKeys<K> {
    ghost use Rattle.std.specs.Prelude.{◌≡◌, length};
    ghost use Rattle.locale_numbers_cache.specs.LastRead.{IsLastAt, Remembered, latest_at, remembered, remembered_code};

    ghost Value = { Remembered K };

    ghost coded = { remembered_code K.code };

    // The latest key is where its bytes are.
    ghost view = { λ r. remembered r.pairs.items (latest_at r.last r.pairs.items r.long) };

    ghost invariant = { λ r. (length r.pairs.items ≡ 512) × IsLastAt r.last r.pairs.items };
}

impl<K: Copy> ReadKeys<K> {
    /// Places that remember nothing yet: the first bytes that come are read.
    ///
    /// It allocates the places. `AllocError`: out of memory.
    pub fn new(alloc: Global) -> Result<Self, AllocError>
        ensures empty { IfOk result (λ keys. All (λ pair. pair ≡ (None, None)) keys.pairs) }
        // Whichever keys bytes have.
        ensures sound { IfOk result (λ keys. (key_of : List ℕ → K) → All (AreRead key_of) keys.pairs) }
        ensures none { IfOk result (λ keys. keys.latest ≡ None) }
    {
        let mut pairs = Vec::with_capacity(alloc, PAIRS)?;
        for _ in 0..PAIRS {
            pairs.push(KeyPair::new(alloc))?;
        }
        Ok(ReadKeys {
            pairs,
            last: PAIRS,
            long: None,
        })
    }

    // Whether these are the bytes that came last, and are kept: they are compared, with no hash.
    fn is_last(&self, bytes: &[u8]) -> bool
        ensures { IsTrue result → IsLastOf bytes.now self.now }
    {
        match self.pairs.get(self.last) {
            Some(pair) => pair.is_last(bytes),
            None => false,
        }
    }

    // Finds the key of bytes that did not come last, and makes it the latest.
    fn find_other<R: KeyReader<K>>(&mut self, reader: &R, bytes: &[u8]) -> Result<(), AllocError>
        requires { All (AreRead (R.key_of reader.now)) self.old.pairs }
        ensures value { OnOk result (self.new.latest ≡ Some (R.key_of reader.now bytes.now)) }
        ensures used { OnOk result (length bytes.now ≤ 256 →
            IfSome (slice_get self.old.pairs (pair_at bytes.now)) (λ old.
            IfSome (slice_get self.new.pairs (pair_at bytes.now))
            (λ new. Uses bytes.now (R.key_of reader.now bytes.now) old new))) }
        ensures kept { OnOk result (length bytes.now ≤ 256 →
            IfSome (slice_get self.new.pairs (pair_at bytes.now)) (λ pair. either_remembers bytes.now pair ≡ true)) }
        ensures sound { All (AreRead (R.key_of reader.now)) self.new.pairs }
        ensures err { OnErr result (self.new ≡ self.old) }
        ensures room { length bytes.now ≤ 256 →
            IfSome (slice_get self.old.pairs (pair_at bytes.now)) (λ pair. either_remembers bytes.now pair ≡ true)
            → IsOk result }
    {
        if bytes.len() > LONGEST {
            let key = reader.read(bytes)?;
            self.long = Some(key);
            self.last = PAIRS;
            return Ok(());
        }
        let pair = pair_of(bytes);
        match self.pairs[pair].find(reader, bytes) {
            Ok(()) => {
                self.last = pair;
                Ok(())
            }
            Err(refused) => Err(refused),
        }
    }

    /// Finds the key of the bytes, which is then the latest. They are read only where their pair of places does not
    /// remember them: of `a` and then `a` the first.
    ///
    /// The condition is that each key it remembers is the one that this reader reads. Bytes of more than 256 are read
    /// each time. It allocates where they are read. `true` is returned only where nothing has changed: of bytes that
    /// came last. `AllocError`: out of memory; it then remembers what it did.
    pub fn find<R: KeyReader<K>>(&mut self, reader: &R, bytes: &[u8]) -> Result<bool, AllocError>
        requires { All (AreRead (R.key_of reader.now)) self.old.pairs }
        ensures value { OnOk result (self.new.latest ≡ Some (R.key_of reader.now bytes.now)) }
        ensures same { IfOk result (λ same. IsTrue same → self.new ≡ self.old) }
        ensures used { OnOk result (length bytes.now ≤ 256 →
            IfSome (slice_get self.old.pairs (pair_at bytes.now)) (λ old.
            IfSome (slice_get self.new.pairs (pair_at bytes.now))
            (λ new. Uses bytes.now (R.key_of reader.now bytes.now) old new))) }
        ensures kept { OnOk result (length bytes.now ≤ 256 →
            IfSome (slice_get self.new.pairs (pair_at bytes.now)) (λ pair. either_remembers bytes.now pair ≡ true)) }
        ensures sound { All (AreRead (R.key_of reader.now)) self.new.pairs }
        ensures err { OnErr result (self.new ≡ self.old) }
        ensures room { length bytes.now ≤ 256 →
            IfSome (slice_get self.old.pairs (pair_at bytes.now)) (λ pair. either_remembers bytes.now pair ≡ true)
            → IsOk result }
    {
        if self.is_last(bytes) {
            return Ok(true);
        }
        self.find_other(reader, bytes)?;
        Ok(false)
    }

    /// The key that was found last: that of `a` after `find` of `a`. The condition is that one was found. It does not
    /// allocate.
    pub fn latest(&self) -> &K
        requires { IsSome self.now.latest }
        ensures { self.now.latest ≡ Some result.now }
    {
        let latest = match self.pairs.get(self.last) {
            Some(pair) => pair.latest(),
            None => self.long.as_ref(),
        };
        match latest {
            Some(key) => key,
            None => unreachable!(),
        }
    }
}
