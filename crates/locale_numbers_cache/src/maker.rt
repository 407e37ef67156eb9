//! What makes the things that a cache keeps, as a trait.

ghost use Rattle.std.specs.Prelude.{◌≡◌, Bool, true, false, MatchOption};

/// One that makes what a cache keeps, as a formatter of English for what `en` prefers.
///
/// What it makes for a key depends only on the maker and the key, as a formatter does on a book and on preferences.
pub trait Maker<K, F> {
    // Whether something is made for the key.
    ghost finds: { Self → K → Bool };

    // It is what is made for the key.
    ghost is_made: { Self → K → F → Type 0 };

    /// Makes what there is for the key; `None` where the maker finds nothing for it. With the sample book it is a
    /// formatter for `en`, and `None` for `xx`.
    fn make(&self, key: K) -> Option<F>
        ensures value { MatchOption result
            (finds self.now key ≡ false)
            (λ made. (finds self.now key ≡ true) × is_made self.now key made) };
}
