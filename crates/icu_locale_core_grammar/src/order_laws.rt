//! Laws of the orders of values. Each function does nothing; its clause is the law.
ghost use Rattle.icu_locale_core_grammar.specs.OrderLaws.{IsOrder};
ghost use Rattle.icu_locale_core_grammar.specs.TagOrder.{texts_cmp, entries_cmp, language_cmp, unicode_cmp, transform_cmp, tag_cmp, subdivision_cmp, data_locale_cmp};

/// The orders of language identifiers, of keywords and fields, and of both extensions are total, and tell all values
/// apart: `de` comes before `en`, and `nu-latn` before `nu-thai`.
pub fn part_orders_are_total()
    ensures texts { IsOrder texts_cmp }
    ensures entries { IsOrder entries_cmp }
    ensures language { IsOrder language_cmp }
    ensures unicode { IsOrder unicode_cmp }
    ensures transform { IsOrder transform_cmp }
{}

/// The orders of whole tags, of subdivisions and of data locales are total, and tell all values apart: `en` comes
/// before `en-US`.
pub fn tag_orders_are_total()
    ensures tag { IsOrder tag_cmp }
    ensures subdivision { IsOrder subdivision_cmp }
    ensures data_locale { IsOrder data_locale_cmp }
{}
