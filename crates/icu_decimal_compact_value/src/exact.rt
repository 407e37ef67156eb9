//! Exact forms: a significand and an exponent, written under the entry of their magnitude.

ghost use Rattle.std.specs.Prelude.{◌≡◌, ◌+◌, ◌<◌, ◌↔◌, Some, is_err, is_none, IfOk, IfErr, IsTrue};
ghost use Rattle.icu_decimal_compact_value.specs.Choice.{entry_at, entry_of, exponent_of, exact_entry as entry_is};
ghost use Rattle.icu_decimal_compact_value.specs.ExactForms.{IsInRange, IsRefused, exact_place};

use crate::entry::CompactEntry;
use crate::error::CompactExponentError;
use crate::places::{magnitude_of, magnitude_place};
use crate::shown::ShownUnder;
use crate::table::{entry_index, exponent_at};
use fixed_decimal::UnsignedDecimal;

// The place of the magnitude of a significand and an exponent together, whether a decimal has it or not.
fn place_with(significand: &UnsignedDecimal, exponent: u8) -> u32
    ensures { result ≡ exact_place significand.now.count exponent }
{
    magnitude_place(significand) as u32 + exponent as u32
}

/// Whether the magnitude of a significand and an exponent together is at most 32767: true of 1.2 and 6, false of
/// 10^32767 and 1.
///
/// It does not allocate.
pub fn exponent_in_range(significand: &UnsignedDecimal, exponent: u8) -> bool
    ensures { IsTrue result ↔ IsInRange significand.now.count exponent }
{
    place_with(significand, exponent) <= u16::MAX as u32
}

/// The exponent and the entry for the magnitude of a significand and an exponent together: of 1.2 and 3 under entries of
/// the types 3 and 6 with the exponents 3 and 6 these are 3 and the first entry, and of 1000 and 3 they are 6 and the
/// second one.
///
/// Any magnitude is taken, so the exponent 0 is that of a number itself. It does not allocate.
pub fn entry_with(
    significand: &UnsignedDecimal,
    exponent: u8,
    entries: &[CompactEntry],
) -> ShownUnder
    ensures entry { entry_of entries.now result.entry
        ≡ entry_at 32768 entries.now (exact_place significand.now.count exponent) }
    ensures exponent { result.exponent
        ≡ exponent_of (entry_at 32768 entries.now (exact_place significand.now.count exponent)) }
{
    let entry = entry_index(entries, place_with(significand, exponent));
    ShownUnder {
        exponent: exponent_at(entries, entry),
        entry,
    }
}

/// The index of the entry that an exact form is written under: of 1.2 and 3 under entries of the types 3 and 6 with the
/// exponents 3 and 6 it is 0, and none of 1.2 and 0.
///
/// The magnitude of the significand and the exponent together says the entry, and its exponent is the expected one, 0
/// with no entry. `CompactExponentError` exactly where the exponent is another: 1.2 and 5 there. The condition is
/// `exponent_in_range`. It does not allocate.
pub fn exact_entry(
    significand: &UnsignedDecimal,
    exponent: u8,
    entries: &[CompactEntry],
) -> Result<Option<usize>, CompactExponentError>
    requires { IsInRange significand.now.count exponent }
    ensures value { IfOk result
        (λ entry. entry_is 32768 entries.now significand.now.count exponent ≡ Some (entry_of entries.now entry)) }
    ensures refused { is_err result ≡ is_none (entry_is 32768 entries.now significand.now.count exponent) }
    ensures err { IfErr result (IsRefused entries.now significand.now.count exponent) }
{
    let place = place_with(significand, exponent) as u16;
    let entry = entry_index(entries, place as u32);
    let expected = exponent_at(entries, entry);
    if exponent == expected {
        Ok(entry)
    } else {
        Err(CompactExponentError {
            actual: exponent,
            expected,
            magnitude: magnitude_of(place),
        })
    }
}
