//! Laws of what compact text shows. No call is made: each clause is the law.
ghost use Rattle.icu_decimal_compact_value.specs.ExactLaws.{ChoiceIsShownValue, ExactFormAnswers, ExactFormHasShownMagnitude, ExactFormIsInRange, ExactFormWritesSame, FlatTableUsesShownEntry, KeptMagnitudeUsesShownEntry};
ghost use Rattle.icu_decimal_compact_value.specs.ShownLaws.{CarriedAtNines, OneIsShown, RoundedIsShown, RuleShowsNearest, ShowableShowsItself, ShownIsNear, ShownKeepsOrder, ZeroShowsZero};
ghost use Rattle.icu_decimal_compact_value.specs.UnderTableLaws.{ShownValueCanBeShown, ShownValueShowsItself, TableKeepsOrder, TableShowsNear, TableShowsZero};

/// Each number shows one value: the number rounded half to even to its unit. In English, with `K` and `M`, 1650 shows
/// 1600, and 1750 shows 1800.
pub fn one_value_is_shown()
    ensures rule { RuleShowsNearest }
    ensures one { OneIsShown }
    ensures rounded { RoundedIsShown }
{}

/// Of two numbers the smaller never shows a larger value. In English, with `K` and `M`, 1650 shows 1600, and 1750 shows
/// 1800.
pub fn shown_values_keep_order()
    ensures { ShownKeepsOrder }
{}

/// A number that can be shown as it is shows itself. In English, with `K` and `M`, 843 shows 843, and 1600 shows 1600.
pub fn showable_numbers_show_themselves()
    ensures { ShowableShowsItself }
{}

/// A shown value is off by at most a twentieth of its number, and zero is shown only for zero. In English, with `K` and
/// `M`, 1650 shows 1600, which is off by 50, and a twentieth of 1650 is 82.5.
pub fn shown_values_are_near()
    ensures near { ShownIsNear }
    ensures zero_value { ZeroShowsZero }
{}

/// A number is rounded up to the next power of ten exactly where its digits down to the unit are all 9, and the next
/// one is at least 5. To thousands, 999500 becomes 1000000, and 999499 becomes 999000.
pub fn carried_at_nines()
    ensures { CarriedAtNines }
{}

/// The exact form of what is shown for a number: where it is refused, and where it writes the same.
///
/// Under rising types: the significand and the exponent shown make the shown value (`value`). Sent as an exact form
/// they are refused exactly where the entry of the shown value's magnitude has another exponent (`answer`); they are
/// written under the entry shown where it is that entry (`same`), as it is where the shown value has the number's
/// magnitude (`kept`) and wherever all types of the table are its exponents (`flat`). Under types 3 and 7 with
/// exponents 3 and 6, 999500 is shown as 1 with the exponent 6, and `1c6` is refused.
pub fn exact_forms_of_shown_values()
    ensures value { ChoiceIsShownValue }
    ensures answer { ExactFormAnswers }
    ensures same { ExactFormWritesSame }
    ensures kept { KeptMagnitudeUsesShownEntry }
    ensures flat { FlatTableUsesShownEntry }
{}

/// What is shown for a number, sent back as an exact form, has the magnitude of the shown value (`magnitude`), and it
/// is in range where the number can be shown (`in_range`). In English, with `K` and `M`, 999500 is shown as 1 with the
/// exponent 6, whose magnitude is that of 1000000.
pub fn exact_forms_are_in_range()
    ensures magnitude { ExactFormHasShownMagnitude }
    ensures in_range { ExactFormIsInRange }
{}

/// The value shown under a table: the smaller of two numbers never shows a larger one (`order`), it is off by at most a
/// twentieth (`near`), zero is shown only for zero (`zero_value`), and a number equal to a shown value shows itself
/// (`itself`) and can be shown (`can`). In English, with `K` and `M`, 1650 shows 1600, and 1600 shows 1600.
pub fn tables_show_values()
    ensures order { TableKeepsOrder }
    ensures near { TableShowsNear }
    ensures zero_value { TableShowsZero }
    ensures itself { ShownValueShowsItself }
    ensures can { ShownValueCanBeShown }
{}
