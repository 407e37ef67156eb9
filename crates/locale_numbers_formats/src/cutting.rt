//! Pieces of a text between the bytes that part them.

ghost use Rattle.std.specs.Prelude.{◌≡◌, ◌<◌, ◌≤◌, ◌+◌, ◌-◌, ◌∷◌, [], length, position, drop, slice_index, MatchOption};
ghost use Rattle.std.specs.List.{All};
ghost use Rattle.locale_numbers_formats.specs.Cutting.{IsLastCut, IsNot, is_separator, cut_at};

use memchr::{memchr, memrchr};
use std::simd::prelude::*;

// How many bytes at the end of a text are compared at once.
const NEAR: usize = 16;

// The place of the first separator.
pub(crate) fn first_separator(text: &[u8], separator: u8) -> Option<usize>
    ensures { result ≡ position (is_separator separator) text.now }
{
    memchr(separator, text)
}

// The place of the last separator among the last 16 bytes of a text, which are compared at once.
fn near_separator(text: &[u8], separator: u8) -> Option<usize>
    requires { 16 ≤ length text.now }
    ensures { MatchOption result
        (All (IsNot separator) (drop (length text.now - 16) text.now))
        (λ end. (end < length text.now) × (slice_index text.now end ≡ separator)
        × All (IsNot separator) (drop (end + 1) text.now)) }
{
    let from = text.len() - NEAR;
    let near = u8x16::from_slice(&text[from..]);
    let marks = near.simd_eq(u8x16::splat(separator)).to_bitmask();
    if marks == 0 {
        return None;
    }
    Some(from + marks.ilog2() as usize)
}

// The place of the last separator: it is looked for near the end first.
fn last_separator(text: &[u8], separator: u8) -> Option<usize>
    ensures { MatchOption result
        (All (IsNot separator) text.now)
        (λ end. (end < length text.now) × (slice_index text.now end ≡ separator)
        × All (IsNot separator) (drop (end + 1) text.now)) }
{
    if NEAR <= text.len()
        && let Some(end) = near_separator(text, separator)
    {
        return Some(end);
    }
    memrchr(separator, text)
}

/// The first piece of a text, and what follows its separator, where it ends with one.
///
/// Cut at tabs, `de`, a tab and `plain` is `de` and `plain`, and `de` is `de` and nothing. It does not allocate.
pub fn cut_field(text: &[u8], separator: u8) -> (&[u8], Option<&[u8]>)
    ensures { MatchOption result.1 (cut_at separator text.now ≡ result.0.now ∷ [])
        (λ rest. cut_at separator text.now ≡ result.0.now ∷ cut_at separator rest.now) }
{
    match first_separator(text, separator) {
        None => (text, None),
        Some(end) => (&text[..end], Some(&text[end + 1..])),
    }
}

/// What is before the last piece of a text, the separator with it, and that piece.
pub fn cut_last(text: &[u8], separator: u8) -> (&[u8], &[u8])
    ensures { IsLastCut separator text.now result.0.now result.1.now }
{
    match last_separator(text, separator) {
        None => text.split_at(0),
        Some(end) => text.split_at(end + 1),
    }
}
