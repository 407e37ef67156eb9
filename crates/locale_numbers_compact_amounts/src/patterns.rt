//! The patterns of a slot.

ghost use Rattle.std.specs.Prelude.{◌≡◌, IfOk};
ghost use Rattle.serde_json.specs.View.{view};
ghost use Rattle.locale_numbers_compact_amounts.specs.AmountSlots.{choice_in, has_pattern_counts, has_two_or_six};
ghost use Rattle.locale_numbers_units.specs.Fields.{has_at};
ghost use Rattle.locale_numbers_units.specs.Patterns.{or_null};

use icu_dimension::UnitPatterns;
use locale_numbers_tables::fields::has_count;
use locale_numbers_units::{pattern_at, pattern_or_null_at};
use serde_json::Value;
use std::alloc::{AllocError, Global};

fn has_two_or_six(pattern: &Value) -> bool
    ensures { result ≡ has_two_or_six (view pattern.now) }
{
    has_count(pattern, 2) || has_count(pattern, 6)
}

fn is_null_or_has(pattern: &Value) -> bool
    ensures { result ≡ or_null has_two_or_six (view pattern.now) }
{
    pattern.is_null() || has_two_or_six(pattern)
}

// Whether an array of two items or of six is at the first place of patterns, and one or null at the second.
fn has_pattern_counts(slot: &Value) -> bool
    ensures { result ≡ has_pattern_counts (view slot.now) }
{
    let (Some(standard), Some(beside)) = (slot.get(1), slot.get(2)) else {
        return false;
    };
    has_two_or_six(standard) && is_null_or_has(beside)
}

// The patterns of a slot.
pub(crate) fn patterns_of(alloc: Global, slot: &Value) -> Result<Option<UnitPatterns>, AllocError>
    ensures { IfOk result (λ found. found ≡ choice_in (view slot.now)) }
{
    if !has_pattern_counts(slot) {
        return Ok(None);
    }
    let Some(standard) = pattern_at(alloc, slot, 1)? else {
        return Ok(None);
    };
    let Some(beside) = pattern_or_null_at(alloc, slot, 2)? else {
        return Ok(None);
    };
    Ok(Some(UnitPatterns::new(standard, beside)))
}
