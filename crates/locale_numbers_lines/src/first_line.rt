//! A text cut at its first line feed.

ghost use Rattle.std.specs.Prelude.{MatchOption};
ghost use Rattle.locale_numbers_lines.specs.Lines.{HasNoFeed};
ghost use Rattle.locale_numbers_lines.specs.Progress.{FirstLine};

use memchr::memchr;

// The line that ends first, and what follows its line feed.
pub fn split_line(bytes: &[u8]) -> Option<(&[u8], &[u8])>
    ensures parts { MatchOption result
        (HasNoFeed bytes.now)
        (λ parts. FirstLine bytes.now parts.0.now parts.1.now) }
{
    match memchr(b'\n', bytes) {
        Some(at) => Some((&bytes[..at], &bytes[at + 1..])),
        None => None,
    }
}
