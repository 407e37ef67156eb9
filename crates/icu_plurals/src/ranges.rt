//! The category of a range, by those of its two ends.

ghost use Rattle.std.specs.Prelude.{◌≡◌};
ghost use Rattle.icu_plurals.specs.Ranges.{is_for, range_category};

use icu_decimal_plurals::{PluralCategory, PluralOperands, PluralRules};

/// The category of ranges whose ends have these categories. In English a range from `other` to `one`, as 0 to 1, is of
/// `other`.
#[derive(Clone, Copy, Debug, PartialEq, Eq)]
pub struct PluralRange {
    /// The category of the first end.
    pub start: PluralCategory,
    /// The category of the second end.
    pub end: PluralCategory,
    /// The category of the range.
    pub result: PluralCategory,
}

// Whether this is for ends of these categories.
fn is_for(range: PluralRange, start: PluralCategory, end: PluralCategory) -> bool
    ensures { result ≡ is_for start end range }
{
    range.start == start && range.end == end
}

// That of the first for these ends, else the second end.
fn range_category(
    ranges: &[PluralRange],
    start: PluralCategory,
    end: PluralCategory,
) -> PluralCategory
    ensures { result ≡ range_category ranges.now start end }
{
    for range in ranges {
        if is_for(*range, start, end) {
            return range.result;
        }
    }
    end
}

/// The rules of a language, and the categories of its ranges.
///
/// After ICU4X's type of this name.
#[derive(Clone, Copy)]
pub struct PluralRulesWithRanges<'p> {
    /// The rules.
    pub rules: &'p PluralRules,
    /// The categories of ranges, of which none is needed that is the second end's.
    pub ranges: &'p [PluralRange],
}

impl<'p> PluralRulesWithRanges<'p> {
    ghost use Rattle.icu_decimal_plurals.specs.Rules.{category_of};

    /// The category of a range whose ends have these categories: that of the first of the ranges that is for them, else
    /// that of the second end. In English that of `other` and `one` is `other`. It does not allocate.
    ///
    /// After ICU4X's call of this name; UTS 35, part 3, section 5.
    pub fn resolve_range(&self, start: PluralCategory, end: PluralCategory) -> PluralCategory
        ensures { result ≡ range_category self.now.ranges.now start end }
    {
        range_category(self.ranges, start, end)
    }

    /// The category of a range whose ends have these operands, by the categories of the two: in English `0–1` is of
    /// `other`, in French of `one`. It does not allocate.
    ///
    /// After ICU4X's call of this name; UTS 35, part 3, section 5.
    pub fn category_for_range(&self, start: &PluralOperands, end: &PluralOperands) -> PluralCategory
        ensures { result ≡ range_category self.now.ranges.now
            (category_of self.now.rules.now start.now) (category_of self.now.rules.now end.now) }
    {
        self.resolve_range(self.rules.category_for(start), self.rules.category_for(end))
    }
}
