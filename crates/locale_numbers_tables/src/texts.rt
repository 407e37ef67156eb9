//! The texts of patterns: no tab and no line feed is in one.

ghost use Rattle.std.specs.Prelude.{◌≡◌};
ghost use Rattle.serde_json.specs.View.{view, items_view};
ghost use Rattle.locale_numbers_tables.specs.CompactEntries.{each, each_in, is_so_at, is_plain_text, is_plain_slot, are_plain_slots, is_plain_row, has_plain_patterns};

use crate::fields;
use serde_json::Value;

fn is_plain_text(text: &Value) -> bool
    ensures { result ≡ is_plain_text (view text.now) }
{
    match text.as_str() {
        Some(text) => fields::plain_alone(text).is_some(),
        None => false,
    }
}

fn all_texts(texts: &[Value]) -> bool
    ensures { result ≡ each is_plain_text (items_view texts.now) }
{
    for text in texts {
        if !is_plain_text(text) {
            return false;
        }
    }
    true
}

fn is_plain_pattern(pattern: &Value) -> bool
    ensures { result ≡ each_in is_plain_text (view pattern.now) }
{
    match pattern.as_array() {
        Some(texts) => all_texts(texts.as_slice()),
        None => true,
    }
}

fn is_plain_slot(slot: &Value) -> bool
    ensures { result ≡ is_plain_slot (view slot.now) }
{
    match slot.get(1) {
        Some(pattern) => is_plain_pattern(pattern),
        None => true,
    }
}

fn all_slots(slots: &[Value]) -> bool
    ensures { result ≡ each is_plain_slot (items_view slots.now) }
{
    for slot in slots {
        if !is_plain_slot(slot) {
            return false;
        }
    }
    true
}

fn are_plain_slots(slots: &Value) -> bool
    ensures { result ≡ are_plain_slots (view slots.now) }
{
    match slots.as_array() {
        Some(slots) => all_slots(slots.as_slice()),
        None => true,
    }
}

fn are_plain_slots_at(entry: &Value, place: usize) -> bool
    ensures { result ≡ is_so_at are_plain_slots place (view entry.now) }
{
    match entry.get(place) {
        Some(slots) => are_plain_slots(slots),
        None => true,
    }
}

fn is_plain_row(row: &Value) -> bool
    ensures { result ≡ is_plain_row (view row.now) }
{
    are_plain_slots_at(row, 2)
}

fn all_rows(rows: &[Value]) -> bool
    ensures { result ≡ each is_plain_row (items_view rows.now) }
{
    for row in rows {
        if !is_plain_row(row) {
            return false;
        }
    }
    true
}

fn are_plain_rows(rows: &Value) -> bool
    ensures { result ≡ each_in is_plain_row (view rows.now) }
{
    match rows.as_array() {
        Some(rows) => all_rows(rows.as_slice()),
        None => true,
    }
}

fn are_plain_rows_at(entry: &Value, place: usize) -> bool
    ensures { result ≡ is_so_at (each_in is_plain_row) place (view entry.now) }
{
    match entry.get(place) {
        Some(rows) => are_plain_rows(rows),
        None => true,
    }
}

/// Whether no tab and no line feed is in a pattern of an entry.
pub fn has_plain_patterns(entry: &Value) -> bool
    ensures { result ≡ has_plain_patterns (view entry.now) }
{
    are_plain_rows_at(entry, 2) && are_plain_slots_at(entry, 3)
}
