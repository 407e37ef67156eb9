//! The entries of a table by magnitude.

ghost use Rattle.std.specs.Prelude.{◌≡◌, ◌+◌, ◌<◌, length, nat_lt, IfSome};
ghost use Rattle.std.specs.List.{position};
ghost use Rattle.fixed_decimal.specs.Number.{place as place_is};
ghost use Rattle.icu_decimal_compact_value.specs.Choice.{entry_at, entry_of, exponent_of};

use crate::entry::CompactEntry;
use crate::places::{ONES, place_of};

// The index of the last entry whose type a magnitude reaches, whether a decimal has that magnitude or not.
pub fn entry_index(entries: &[CompactEntry], place: u32) -> Option<usize>
    ensures entry { entry_of entries.now result ≡ entry_at 32768 entries.now place }
    ensures within { IfSome result (λ i. i < length entries.now) }
{
    let mut index = entries.len();
    while index > 0 {
        index -= 1;
        if ONES as u32 + entries[index].log10_type as u32 <= place {
            return Some(index);
        }
    }
    None
}

// The index of the first entry whose type a magnitude does not reach.
pub fn next_index(entries: &[CompactEntry], place: u16) -> Option<usize>
    ensures { result ≡ position (λ x. nat_lt place (32768 + x.log10_type)) entries.now }
{
    entries
        .iter()
        .position(|entry| place < ONES + entry.log10_type as u16)
}

// The exponent of an entry, and 0 of none.
pub fn exponent_at(entries: &[CompactEntry], index: Option<usize>) -> u8
    requires { IfSome index (λ i. i < length entries.now) }
    ensures { result ≡ exponent_of (entry_of entries.now index) }
{
    match index {
        Some(index) => entries[index].exponent,
        None => 0,
    }
}

/// The exponent that numbers of a magnitude are shown with: 3 for 5 under entries of the types 3 and 6 with the
/// exponents 3 and 6, and 0 for 2.
///
/// It is the exponent of the last entry whose type is at most the magnitude, and 0 with none. It does not allocate.
pub fn exponent_for_magnitude(magnitude: i16, entries: &[CompactEntry]) -> u8
    ensures { result ≡ exponent_of (entry_at 32768 entries.now (place_is magnitude)) }
{
    exponent_at(entries, entry_index(entries, place_of(magnitude) as u32))
}
