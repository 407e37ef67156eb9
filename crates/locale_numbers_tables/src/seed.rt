//! What the tables of a book are hashed by: two numbers that come of the book's text.
//!
//! With a hash that is known, keys can be chosen that all have one: they would make the loading of a book quadratic.
//! Here they would have to be chosen for the digest of the text that they are in. That two texts of one MD5 digest can be made
//! helps nobody in that: the digest would have to be known before its text.

ghost use Rattle.std.specs.Prelude.{◌≡◌};
ghost use Rattle.std.specs.Hash as fed;
ghost use Rattle.std.specs.Hash.{HashWrites};
ghost use Rattle.std.specs.Hash.FoldHasher as folding;
ghost use Rattle.std.specs.List.{fold};
ghost use Rattle.locale_numbers_tables.specs.Seeding.{first_hasher, last_number, key_hash};

use md5::{Digest, Md5};
use std::hash::{BuildHasher, FoldHasher, Hasher};

/// A hasher that begins with one number of a text and ends with another.
#[derive(Clone, Copy)]
pub struct SeededHasher {
    state: FoldHasher,
    last: u64,
}

impl Hasher for SeededHasher {
    ghost write = { λ h bytes. record h { state = folding.write h.state bytes } };

    ghost finish = { λ h. folding.finish (fold folding.write h.state (fed.u64 h.last)) };

    fn finish(&self) -> u64 {
        let mut state = self.state;
        state.write_u64(self.last);
        state.finish()
    }

    fn write(&mut self, bytes: &[u8]) {
        self.state.write(bytes);
    }
}

/// What the tables of one book are hashed by: the hasher of its text, with which each key begins again.
#[derive(Clone, Copy)]
pub struct Seed {
    first: SeededHasher,
}

// A hasher that was fed these bytes of a digest.
fn hasher_of(bytes: &[u8]) -> FoldHasher
    ensures { result ≡ folding.write folding.initial bytes.now }
{
    let mut hasher = FoldHasher::default();
    hasher.write(bytes);
    hasher
}

impl Seed {
    // The seed of a digest: a hasher of the first half, and the number of the second.
    fn of_digest(digest: &[u8]) -> Self
        ensures first { result.first.state ≡ first_hasher digest.now }
        ensures last { result.first.last ≡ last_number digest.now }
    {
        let middle = digest.len() / 2;
        Seed {
            first: SeededHasher {
                state: hasher_of(&digest[..middle]),
                last: hasher_of(&digest[middle..]).finish(),
            },
        }
    }

    /// The seed of a text: the halves of its MD5 digest, each as one number. The hash of a key begins with the first and
    /// ends with the second. It does not allocate.
    pub fn of_text(text: &[u8]) -> Self
        ensures value { (writes : HashWrites)
            → ⟦<SeededHasher as Hasher>⟧.finish
            (fold ⟦<SeededHasher as Hasher>⟧.write (⟦<Seed as BuildHasher>⟧.build_hasher result) writes)
            ≡ key_hash text.now writes }
    {
        Seed::of_digest(&Md5::digest(text)[..])
    }
}

impl BuildHasher for Seed {
    type Hasher = SeededHasher;

    ghost build_hasher = { λ seed. seed.first };

    fn build_hasher(&self) -> SeededHasher {
        self.first
    }
}
