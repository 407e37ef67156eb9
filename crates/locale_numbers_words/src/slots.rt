//! Slots: values by the words of their categories.

ghost use Rattle.std.specs.Prelude.{◌≡◌, IfOk, None, Option, Some, if◌then◌else◌, is_some, option_and_then, option_map};
ghost use Rattle.serde_json.specs.Data.{Data};
ghost use Rattle.serde_json.specs.Find.{as_array};
ghost use Rattle.serde_json.specs.View.{items_view, view};
ghost use Rattle.icu_decimal.specs.Reading.{is_same};
ghost use Rattle.icu_decimal.specs.declared.plurals.PluralCategory.{PluralCategory};
ghost use Rattle.icu_dimension_words.specs.Words as Words;
ghost use Rattle.locale_numbers_tables.specs.Entries.{field_at};
ghost use Rattle.locale_numbers_tables.specs.Keys.{table_in};
ghost use Rattle.locale_numbers_tables.specs.RulesEntries.{category_in};
ghost use Rattle.locale_numbers_words.specs.Categories.{no_slots, slot_at, slot_in, slots_of, values_in, whole, with_slot};
ghost use Rattle.locale_numbers_words.specs.SlotTexts.{bare_in, pair_in, pair_of};

use crate::by_category::ByCategory;
use crate::texts::{CurrencyName, TextPair, UnitText};
use icu_decimal::plurals::PluralCategory;
use icu_dimension_words::named_number;
use locale_numbers_tables::fields::{has_count, text_at};
use serde_json::Value;
use std::alloc::{AllocError, Global};
use std::marker::Model;

// What is in a slot.
pub(crate) trait SlotValue: Eq + Drop {
    // What a JSON value says for a category.
    ghost said: { PluralCategory → Data → Option Self };

    fn read(
        alloc: Global,
        category: PluralCategory,
        value: &Value,
    ) -> Result<Option<Self>, AllocError>
        ensures { IfOk result (λ found. found ≡ said category (view value.now)) };
}

impl SlotValue for CurrencyName {
    ghost use Rattle.locale_numbers_words.specs.SlotTexts.{name_in};

    ghost said = { name_in };

    fn read(
        alloc: Global,
        _category: PluralCategory,
        value: &Value,
    ) -> Result<Option<Self>, AllocError> {
        match value.as_str() {
            Some(text) => match CurrencyName::try_new(alloc, text) {
                Ok(name) => Ok(Some(name)),
                Err(refused) => Err(refused),
            },
            None => Ok(None),
        }
    }
}

// The two texts that a value is.
fn texts_of(value: &Value) -> Option<(&str, &str)>
    ensures { option_map (λ texts. pair_of texts.0.now texts.1.now) result ≡ pair_in (view value.now) }
{
    if !has_count(value, 2) {
        return None;
    }
    let before = text_at(value, 0)?;
    let after = text_at(value, 1)?;
    Some((before, after))
}

// The pair that a value is.
pub(crate) fn pair(alloc: Global, value: &Value) -> Result<Option<TextPair>, AllocError>
    ensures { IfOk result (λ found. found ≡ pair_in (view value.now)) }
{
    match texts_of(value) {
        Some((before, after)) => match TextPair::try_new(alloc, before, after) {
            Ok(pair) => Ok(Some(pair)),
            Err(refused) => Err(refused),
        },
        None => Ok(None),
    }
}

impl SlotValue for TextPair {
    ghost use Rattle.locale_numbers_words.specs.SlotTexts.{pair_in};

    ghost said = { λ category. pair_in };

    fn read(
        alloc: Global,
        _category: PluralCategory,
        value: &Value,
    ) -> Result<Option<Self>, AllocError> {
        pair(alloc, value)
    }
}

// The text without a number that a value is.
fn bare_of(category: PluralCategory, value: &Value) -> Option<&str>
    ensures { option_map (λ text. text.now) result ≡ bare_in category (view value.now) }
{
    if has_count(value, 1) && named_number(category).is_some() {
        text_at(value, 0)
    } else {
        None
    }
}

// Two texts around the number.
fn around(alloc: Global, value: &Value) -> Result<Option<UnitText>, AllocError>
    ensures { IfOk result (λ found. found ≡ option_map Words.around (pair_in (view value.now))) }
{
    match texts_of(value) {
        Some((before, after)) => match UnitText::try_around(alloc, before, after) {
            Ok(text) => Ok(Some(text)),
            Err(refused) => Err(refused),
        },
        None => Ok(None),
    }
}

// A text without the number.
fn bare(
    alloc: Global,
    category: PluralCategory,
    value: &Value,
) -> Result<Option<UnitText>, AllocError>
    ensures { IfOk result (λ found. found ≡ option_map Words.bare (bare_in category (view value.now))) }
{
    match bare_of(category, value) {
        Some(text) => match UnitText::try_bare(alloc, text) {
            Ok(text) => Ok(Some(text)),
            Err(refused) => Err(refused),
        },
        None => Ok(None),
    }
}

impl SlotValue for UnitText {
    ghost use Rattle.locale_numbers_words.specs.SlotTexts.{word_in};

    ghost said = { word_in };

    fn read(
        alloc: Global,
        category: PluralCategory,
        value: &Value,
    ) -> Result<Option<Self>, AllocError> {
        if has_count(value, 2) {
            around(alloc, value)
        } else {
            bare(alloc, category, value)
        }
    }
}

// Values as far as they are read.
struct Slots<T> {
    zero: Option<T>,
    one: Option<T>,
    two: Option<T>,
    few: Option<T>,
    many: Option<T>,
    other: Option<T>,
}

impl<T> Model for Slots<T> {
    ghost use Rattle.locale_numbers_words.specs.Categories.{Slots};

    ghost Value = { Slots T };

    ghost view = { λ s. record {
      zero = s.zero;
      one = s.one;
      two = s.two;
      few = s.few;
      many = s.many;
      other = s.other;
    } };
}

// Dropped by one call.
impl<T: Drop> Drop for Slots<T> {
    fn drop(self) {
        let Slots {
            zero: _zero,
            one: _one,
            two: _two,
            few: _few,
            many: _many,
            other: _other,
        } = self;
    }
}

impl<T> Slots<T> {
    // None yet.
    fn new() -> Self
        ensures { result ≡ no_slots }
    {
        Slots {
            zero: None,
            one: None,
            two: None,
            few: None,
            many: None,
            other: None,
        }
    }

    // Whether a category has its value.
    fn has(&self, category: PluralCategory) -> bool
        ensures { result ≡ is_some (slot_at self.now category) }
    {
        match category {
            PluralCategory::Zero => self.zero.is_some(),
            PluralCategory::One => self.one.is_some(),
            PluralCategory::Two => self.two.is_some(),
            PluralCategory::Few => self.few.is_some(),
            PluralCategory::Many => self.many.is_some(),
            PluralCategory::Other => self.other.is_some(),
        }
    }
}

impl<T: Drop> Slots<T> {
    // Gives a category its value.
    fn put(&mut self, category: PluralCategory, value: T)
        ensures { self.new ≡ with_slot self.old category value }
    {
        match category {
            PluralCategory::Zero => self.zero = Some(value),
            PluralCategory::One => self.one = Some(value),
            PluralCategory::Two => self.two = Some(value),
            PluralCategory::Few => self.few = Some(value),
            PluralCategory::Many => self.many = Some(value),
            PluralCategory::Other => self.other = Some(value),
        }
    }

    // The values, where `other` has one.
    fn whole(self) -> Option<ByCategory<T>>
        ensures { result ≡ whole self }
    {
        let Slots {
            zero,
            one,
            two,
            few,
            many,
            other,
        } = self;
        match other {
            Some(other) => Some(ByCategory {
                zero,
                one,
                two,
                few,
                many,
                other,
            }),
            None => None,
        }
    }
}

/// The category that a slot names at its place 0: `Few` of `["few",..]`.
///
/// `None`: no text is there, or none of the six words of categories. It does not allocate.
pub fn category(slot: &Value) -> Option<PluralCategory>
    ensures { result ≡ field_at category_in 0 (view slot.now) }
{
    let word = text_at(slot, 0)?;
    PluralCategory::get_for_cldr_bytes(word.as_bytes())
}

// The value of a slot of this category.
fn value_of<T: SlotValue>(
    alloc: Global,
    category: PluralCategory,
    slot: &Value,
) -> Result<Option<T>, AllocError>
    ensures { IfOk result (λ found. found ≡ field_at (T.said category) 1 (view slot.now)) }
{
    match slot.get(1) {
        Some(value) => T::read(alloc, category, value),
        None => Ok(None),
    }
}

// The category and the value of a slot.
fn slot<T: SlotValue>(
    alloc: Global,
    slot: &Value,
) -> Result<Option<(PluralCategory, T)>, AllocError>
    ensures { IfOk result (λ found. found ≡ slot_in T.said (view slot.now)) }
{
    if !has_count(slot, 2) {
        return Ok(None);
    }
    let Some(category) = category(slot) else {
        return Ok(None);
    };
    match value_of::<T>(alloc, category, slot) {
        Ok(Some(value)) => Ok(Some((category, value))),
        Ok(None) => Ok(None),
        Err(refused) => Err(refused),
    }
}

// Puts the values of slots into empty ones; false where one is none, or a category is twice.
fn fill<T: SlotValue>(
    alloc: Global,
    items: &[Value],
    slots: &mut Slots<T>,
) -> Result<bool, AllocError>
    requires { slots.old ≡ no_slots }
    ensures { IfOk result
        (λ good. (if good then Some slots.new else None)
        ≡ option_map slots_of (table_in is_same (slot_in T.said) (items_view items.now))) }
{
    for item in items {
        match slot::<T>(alloc, item) {
            Ok(Some((category, value))) => {
                if slots.has(category) {
                    return Ok(false);
                }
                slots.put(category, value);
            }
            Ok(None) => return Ok(false),
            Err(refused) => return Err(refused),
        }
    }
    Ok(true)
}

// The values of an array of slots.
fn values<T: SlotValue>(alloc: Global, items: &[Value]) -> Result<Option<ByCategory<T>>, AllocError>
    ensures { IfOk result
        (λ found. found
        ≡ option_and_then whole (option_map slots_of (table_in is_same (slot_in T.said) (items_view items.now)))) }
{
    let mut slots: Slots<T> = Slots::new();
    match fill(alloc, items, &mut slots) {
        Ok(true) => Ok(slots.whole()),
        Ok(false) => Ok(None),
        Err(refused) => Err(refused),
    }
}

/// The items of the array at a place of an entry: at place 1 of `["und",[["other",[""," ¤"]]]]` the one slot.
///
/// `None`: no array is there. It does not allocate.
pub fn array_at(entry: &Value, place: usize) -> Option<&[Value]>
    ensures { option_map (λ items. items_view items.now) result ≡ field_at as_array place (view entry.now) }
{
    let items = entry.get(place)?.as_array()?;
    Some(items.as_slice())
}

// The values at a place of an entry.
pub(crate) fn values_at<T: SlotValue>(
    alloc: Global,
    entry: &Value,
    place: usize,
) -> Result<Option<ByCategory<T>>, AllocError>
    ensures { IfOk result (λ found. found ≡ field_at (values_in T.said) place (view entry.now)) }
{
    match array_at(entry, place) {
        Some(items) => values(alloc, items),
        None => Ok(None),
    }
}
