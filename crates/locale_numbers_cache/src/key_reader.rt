//! What reads keys from bytes, as a trait.

ghost use Rattle.std.specs.Prelude.{◌≡◌, ℕ, List, IfOk};

use std::alloc::AllocError;

/// One that reads a key from bytes, from the same bytes always the same: from the front of a line what it asks.
pub trait KeyReader<K> {
    // The key of the bytes.
    ghost key_of: { Self → List ℕ → K };

    /// The key of the bytes, as of the front of a line: of `en`, `plain`, `auto`, `keep`, `-` with tabs between what
    /// plain numbers in English ask.
    ///
    /// `AllocError`: out of memory.
    fn read(&self, bytes: &[u8]) -> Result<K, AllocError>
        ensures value { IfOk result (λ key. key ≡ key_of self.now bytes.now) };
}
