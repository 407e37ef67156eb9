//! Texts at another capacity, and joined.

ghost use Rattle.std.specs.Prelude.{◌≡◌, ◌++◌, take};

use crate::TinyAsciiStr;
use tinystr_words::put_at;

impl<const N: usize> TinyAsciiStr<N> {
    /// The first M characters of the text: `tEsT` at 2 is `tE`, and at 8 it is `tEsT`. It does not allocate.
    pub fn resize<const M: usize>(self) -> TinyAsciiStr<M>
        ensures { result ≡ take M self.entry }
    {
        let text = self.as_utf8();
        TinyAsciiStr::<M>::of_text(&text[..text.len().min(M)])
    }

    /// The first Q characters of both texts joined: `ab` and `cdef` at 5 give `abcde`. It does not allocate.
    pub fn concat<const M: usize, const Q: usize>(self, other: TinyAsciiStr<M>) -> TinyAsciiStr<Q>
        ensures { result ≡ take Q (self.entry ++ other.entry) }
    {
        let front = self.resize::<Q>();
        let used = front.len();
        let rest = other.as_utf8();
        let mut bytes = *front.all_bytes();
        put_at(&mut bytes, used, &rest[..rest.len().min(Q - used)]);
        TinyAsciiStr::<Q>::from_utf8_unchecked(bytes)
    }
}
