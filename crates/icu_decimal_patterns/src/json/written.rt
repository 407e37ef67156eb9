//! Tables to JSON.

ghost use Rattle.std.specs.Prelude.{◌≡◌, ◌≢◌, [], IfOk, OnErr, OnOk, length, map};
ghost use Rattle.serde_json.specs.View.{view};
ghost use Rattle.icu_decimal_patterns.specs.HeldSlots.{held_slot};
ghost use Rattle.icu_decimal_patterns.specs.SmallEntries.{AreSmall, IsSmall};
ghost use Rattle.icu_decimal_patterns.specs.TableJson.{SaysTable, filled_slots, named_slots, pattern_json, slot_json, slots_json, table_json, type_json, types_json};

use crate::borrowed::BorrowedTexts;
use crate::compact_patterns::CompactPatterns;
use crate::elements::PluralElements;
use crate::pattern::Pattern;
use icu_decimal_compact_value::CompactEntry;
use serde_json::{Value, json};
use std::alloc::{AllocError, Global};

// A slot's name, and its pattern where there is one.
#[derive(Clone, Copy)]
struct NamedSlot<'a> {
    name: &'a str,
    pattern: Option<&'a Pattern>,
}

// A slot of this name.
fn named<'a>(name: &'a str, pattern: &'a Option<Pattern>) -> NamedSlot<'a>
    ensures { held_slot result ≡ (name.now, pattern.now) }
{
    NamedSlot {
        name,
        pattern: pattern.as_ref(),
    }
}

// The value of a pattern.
fn pattern_json(alloc: Global, pattern: &Pattern) -> Result<Value, AllocError>
    ensures { IfOk result (λ value. view value ≡ pattern_json pattern.now) }
{
    match pattern.borrowed().texts {
        BorrowedTexts::Literal(text) => json!(in alloc; [text]),
        BorrowedTexts::Around(before, after) => json!(in alloc; [before, after]),
    }
}

// The value of a slot of this name.
fn slot_json(alloc: Global, name: &str, pattern: &Pattern) -> Result<Value, AllocError>
    ensures { IfOk result (λ value. view value ≡ slot_json name.now pattern.now) }
{
    let pattern = pattern_json(alloc, pattern)?;
    json!(in alloc; [name, pattern])
}

// The slots in their order.
fn named_slots(patterns: &PluralElements<Pattern>) -> [NamedSlot<'_>; 8]
    ensures { map held_slot result ≡ named_slots patterns.now }
{
    [
        named("0", &patterns.explicit_zero),
        named("1", &patterns.explicit_one),
        named("zero", &patterns.zero),
        named("one", &patterns.one),
        named("two", &patterns.two),
        named("few", &patterns.few),
        named("many", &patterns.many),
        NamedSlot {
            name: "other",
            pattern: Some(&patterns.other),
        },
    ]
}

// The values of those slots that have a pattern.
fn filled_slots(alloc: Global, slots: &[NamedSlot<'_>]) -> Result<Vec<Value>, AllocError>
    ensures { IfOk result (λ list. map view list.items ≡ filled_slots (map held_slot slots.now)) }
{
    let mut list = Vec::new(alloc);
    for slot in slots {
        if let Some(pattern) = slot.pattern {
            let slot = slot_json(alloc, slot.name, pattern)?;
            list.push(slot)?;
        }
    }
    Ok(list)
}

// The value of the patterns of a type.
fn slots_json(alloc: Global, patterns: &PluralElements<Pattern>) -> Result<Value, AllocError>
    ensures { IfOk result (λ value. view value ≡ slots_json patterns.now) }
{
    let slots = named_slots(patterns);
    let list = filled_slots(alloc, &slots)?;
    Ok(Value::Array(list))
}

// The value of a type.
fn type_json(
    alloc: Global,
    entry: &CompactEntry,
    patterns: &PluralElements<Pattern>,
) -> Result<Value, AllocError>
    ensures value { IfOk result (λ value. view value ≡ type_json entry.now patterns.now) }
    ensures small { OnOk result (IsSmall entry.now) }
{
    let slots = slots_json(alloc, patterns)?;
    json!(in alloc; [entry.log10_type, entry.exponent, slots])
}

// The values of all types.
fn types_json(
    alloc: Global,
    entries: &[CompactEntry],
    patterns: &[PluralElements<Pattern>],
) -> Result<Vec<Value>, AllocError>
    requires { length entries.now ≡ length patterns.now }
    ensures value { IfOk result (λ list. map view list.items ≡ types_json entries.now patterns.now) }
    ensures small { OnOk result (AreSmall entries.now) }
    ensures room { OnErr result (entries.now ≢ []) }
{
    let mut list = Vec::new(alloc);
    for (place, entry) in entries.iter().enumerate() {
        let value = type_json(alloc, entry, &patterns[place])?;
        list.push(value)?;
    }
    Ok(list)
}

impl CompactPatterns {
    /// The table as a JSON value: an array of an array of the type, the exponent and the slots for each entry.
    ///
    /// The short table of English is `[[3,3,[["other",["","K"]]]],[6,6,[["other",["","M"]]]]]`. It allocates.
    /// `AllocError`: out of memory, and never for a table without entries. `from_json` reads the value as an equal
    /// table.
    pub fn to_json(&self, alloc: Global) -> Result<Value, AllocError>
        ensures value { IfOk result (λ value. view value ≡ table_json self.now) }
        ensures reads_back { IfOk result (λ value. SaysTable (view value) self.now) }
        ensures room { OnErr result (self.now.entries ≢ []) }
    {
        let list = types_json(alloc, self.entries.as_slice(), self.patterns.as_slice())?;
        Ok(Value::Array(list))
    }
}
