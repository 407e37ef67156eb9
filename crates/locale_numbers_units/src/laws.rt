//! Laws of the definitions, each the contract of a function that does nothing.

ghost use Rattle.locale_numbers_units.specs.UnitTexts.{UnitsAreTexts};

/// What is in units is texts, as the laws of reading back ask for: the sign of percents, the symbols of currencies,
/// the symbols that an entry has of its own, and each affix of a pattern, cut at the place of its unit.
pub fn units_are_texts()
    ensures { UnitsAreTexts }
{}
