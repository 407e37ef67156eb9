//! The affixes of a number with a unit.

ghost use Rattle.std.specs.Prelude.{◌≡◌, ◌≢◌, ◌↔◌, ◌+◌, ◌<◌, [], ◌++◌, nat_lt, string_bytes, IfNone, IfOk, IfSome, IsErrOf, IsOk};
ghost use Rattle.icu_dimension_affixes.specs.HeldUnits.{affix_of};
ghost use Rattle.icu_dimension_affixes.specs.UnitPatterns.{HasNoText, after_in, before_in, pair_with};
ghost use Rattle.icu_dimension_affixes.specs.UnitPlaces.{placeholder, places};

use crate::error::UnitPatternError;
use std::alloc::{AllocError, Global};
use std::marker::Model;

/// On which side of the number the unit is: `Before` in `€5`, `After` in `5 €`.
#[derive(Clone, Copy, Debug, PartialEq, Eq)]
pub enum UnitPlace {
    /// The unit is before the number: `€5`.
    Before,
    /// The unit is after the number: `5 €`.
    After,
}

/// The affixes of a number with a unit: a text before it and one after it, with the unit in one of them.
///
/// With `(¤` and `)` 5 euros are `(€5)`. The texts are owned, and were cut at the place of the unit once.
#[derive(Debug, Drop)]
pub struct UnitAffixes {
    place: UnitPlace,
    first: String,
    second: String,
    third: String,
}

impl Model for UnitAffixes {
    ghost use Rattle.std.specs.Prelude.{string_bytes};
    ghost use Rattle.icu_dimension_affixes.specs.UnitPatterns.{AffixesText};

    ghost Value = { AffixesText };

    ghost view = { λ a. record {
      place = a.place;
      first = string_bytes a.first;
      second = string_bytes a.second;
      third = string_bytes a.third;
    } };
}

// What is written before or after the number.
#[derive(Clone, Copy, Debug)]
pub(crate) enum Affix<'l> {
    Literal(&'l str),
    Around(&'l str, &'l str),
}

// The texts before and after the first place of the unit.
fn split_at_place(text: &str) -> Option<(&str, &str)>
    ensures some { IfSome result (λ r. text.now ≡ r.0.now ++ (placeholder ++ r.1.now)) }
    ensures none { IfNone result (places text.now ≡ 0) }
{
    text.split_once("¤")
}

// Whether the place of the unit is in a text.
#[tactic(auto, using(crate::proofs::PlaceLemmas::places_around))]
fn has_place(text: &str) -> bool
    ensures { result ≡ nat_lt 0 (places text.now) }
{
    split_at_place(text).is_some()
}

// The text as one that is owned. The empty one is not allocated.
fn owned(alloc: Global, text: &str) -> Result<String, AllocError>
    ensures succeeds { text.now ≡ [] → IsOk result }
    ensures value { IfOk result (λ copy. string_bytes copy ≡ text.now) }
{
    if text.is_empty() {
        return Ok(String::new(alloc));
    }
    String::from_str(alloc, text)
}

impl UnitAffixes {
    // The affixes of three texts.
    fn of_texts(
        alloc: Global,
        place: UnitPlace,
        first: &str,
        second: &str,
        third: &str,
    ) -> Result<Self, AllocError>
        ensures succeeds { first.now ≡ [] → second.now ≡ [] → third.now ≡ [] → IsOk result }
        ensures value { IfOk result
            (λ a. a ≡ record { place = place; first = first.now; second = second.now; third = third.now }) }
    {
        let first = owned(alloc, first)?;
        let second = owned(alloc, second)?;
        let third = owned(alloc, third)?;
        Ok(UnitAffixes {
            place,
            first,
            second,
            third,
        })
    }

    // The affixes of texts that were cut at the first place of the unit.
    fn of_cut(
        alloc: Global,
        place: UnitPlace,
        first: &str,
        second: &str,
        third: &str,
    ) -> Result<Self, UnitPatternError>
        ensures value { IfOk result
            (λ a. a ≡ record { place = place; first = first.now; second = second.now; third = third.now }) }
        ensures clear { IfOk result (λ _. places first.now + (places second.now + places third.now) ≡ 0) }
        ensures no_place { ¬ (IsErrOf result UnitPatternError.NoPlace) }
        ensures twice { IsErrOf result UnitPatternError.PlaceTwice
            ↔ (0 < places first.now + (places second.now + places third.now)) }
        ensures memory { first.now ≡ [] → second.now ≡ [] → third.now ≡ []
            → ¬ (IsErrOf result UnitPatternError.Memory) }
    {
        if has_place(first) || has_place(second) || has_place(third) {
            return Err(UnitPatternError::PlaceTwice);
        }
        match UnitAffixes::of_texts(alloc, place, first, second, third) {
            Ok(affixes) => Ok(affixes),
            Err(refused) => Err(UnitPatternError::from(refused)),
        }
    }

    /// The affixes with these texts before and after the number, in one of which `¤` is the place of the unit: of `(¤`
    /// and `)` those that make of 5 and `€` the text `(€5)`.
    ///
    /// `NoPlace`: `¤` is in neither text. `PlaceTwice`: it is there more than once. `Memory`: out of memory. It
    /// allocates for each text beside the place that is not empty.
    ///
    /// Source: UTS 35, part 3 (numbers), number patterns.
    pub fn try_new(alloc: Global, before: &str, after: &str) -> Result<Self, UnitPatternError>
        ensures value { IfOk result
            (λ a. pair_with a placeholder ≡ record { before = before.now; after = after.now }) }
        ensures once { IfOk result (λ _. places before.now + places after.now ≡ 1) }
        ensures no_place { IsErrOf result UnitPatternError.NoPlace ↔ (places before.now + places after.now ≡ 0) }
        ensures twice { IsErrOf result UnitPatternError.PlaceTwice ↔ (1 < places before.now + places after.now) }
        ensures memory { IsErrOf result UnitPatternError.Memory → before.now ++ after.now ≢ placeholder }
    {
        if let Some((first, second)) = split_at_place(before) {
            return UnitAffixes::of_cut(alloc, UnitPlace::Before, first, second, after);
        }
        if let Some((second, third)) = split_at_place(after) {
            return UnitAffixes::of_cut(alloc, UnitPlace::After, before, second, third);
        }
        Err(UnitPatternError::NoPlace)
    }

    /// A copy of the affixes: of `(¤` and `)` others with these texts.
    ///
    /// `AllocError`: out of memory. It allocates for each text beside the place that is not empty.
    pub fn try_clone(&self, alloc: Global) -> Result<Self, AllocError>
        ensures succeeds { HasNoText self.now → IsOk result }
        ensures value { IfOk result (λ copy. copy ≡ self.now) }
    {
        let (first, second) = (self.first.as_str(), self.second.as_str());
        UnitAffixes::of_texts(alloc, self.place, first, second, self.third.as_str())
    }

    /// On which side of the number the unit is: `Before` of `(¤` and `)`. It does not allocate.
    pub fn place(&self) -> UnitPlace
        ensures { result ≡ self.now.place }
    {
        self.place
    }

    // What is written before the number.
    pub(crate) fn before(&self) -> Affix<'_>
        ensures { affix_of result ≡ before_in self.now }
    {
        match self.place {
            UnitPlace::Before => Affix::Around(self.first.as_str(), self.second.as_str()),
            UnitPlace::After => Affix::Literal(self.first.as_str()),
        }
    }

    // What is written after the number.
    pub(crate) fn after(&self) -> Affix<'_>
        ensures { affix_of result ≡ after_in self.now }
    {
        match self.place {
            UnitPlace::Before => Affix::Literal(self.third.as_str()),
            UnitPlace::After => Affix::Around(self.second.as_str(), self.third.as_str()),
        }
    }
}
