//! Rows of the definitions: what each mode reads of a text, or its fault. Each is the contract of a function that
//! computes nothing.

ghost use Rattle.std.specs.Prelude.{None, Some, codes};
ghost use Rattle.icu_locale_core_grammar.specs.declared.error.ParseError.TheVariants.{InvalidLanguage, InvalidSubtag, InvalidExtension};
ghost use Rattle.icu_locale_core_grammar.specs.Pieces.{pieces};
ghost use Rattle.icu_locale_core_langid.specs.declared.modes.ParserMode.TheVariants.{LanguageIdentifier, Locale, Partial};
ghost use Rattle.icu_locale_core_langid.specs.SingleModes.{single, MeansSingleInMode, HasSingleFaultInMode};

/// What the modes read.
pub fn read_rows()
    // a keyword with a value
    ensures keyword { MeansSingleInMode Locale (pieces (codes "EN-us-u-NU-Thai"))
        (single (codes "en", None, Some (codes "US"), None, Some (codes "nu", Some (codes "thai")))) }
    // `true` is left out
    ensures true_is_no_value { MeansSingleInMode Locale (pieces (codes "en-u-nu-true"))
        (single (codes "en", None, None, None, Some (codes "nu", None))) }
    // a keyword without a value
    ensures key_alone { MeansSingleInMode Locale (pieces (codes "en-u-nu"))
        (single (codes "en", None, None, None, Some (codes "nu", None))) }
    // each part of the language part
    ensures whole { MeansSingleInMode LanguageIdentifier (pieces (codes "EN-latn-us-FONIPA"))
        (single (codes "en", Some (codes "Latn"), Some (codes "US"), Some (codes "fonipa"), None)) }
    // the keyword is left, and is not read
    ensures keyword_left { MeansSingleInMode Partial (pieces (codes "en-US-u-nu-thai"))
        (single (codes "en", None, Some (codes "US"), None, None)) }
    // a second variant is left
    ensures variant_left { MeansSingleInMode Partial (pieces (codes "de-1996-fonipa"))
        (single (codes "de", None, None, Some (codes "1996"), None)) }
    // another extension is left
    ensures transform_left { MeansSingleInMode Partial (pieces (codes "en-t-de"))
        (single (codes "en", None, None, None, None)) }
{}

/// The faults in mode `Locale`.
pub fn locale_refused_rows()
    // a second variant
    ensures second_variant { HasSingleFaultInMode Locale (pieces (codes "de-1996-fonipa")) InvalidSubtag }
    // a second piece of the value
    ensures second_value { HasSingleFaultInMode Locale (pieces (codes "en-u-nu-thai-latn")) InvalidExtension }
    // a second keyword, of the same key
    ensures second_keyword { HasSingleFaultInMode Locale (pieces (codes "en-u-nu-thai-nu-latn")) InvalidExtension }
    // `true` is a piece of the value too
    ensures true_is_a_piece { HasSingleFaultInMode Locale (pieces (codes "en-u-nu-true-thai")) InvalidExtension }
    // another extension
    ensures transform { HasSingleFaultInMode Locale (pieces (codes "en-t-de")) InvalidExtension }
    // an attribute
    ensures attribute { HasSingleFaultInMode Locale (pieces (codes "en-u-foo")) InvalidExtension }
    // the end after `u`
    ensures empty_extension { HasSingleFaultInMode Locale (pieces (codes "en-u")) InvalidExtension }
    // the empty text
    ensures nothing { HasSingleFaultInMode Locale (pieces (codes "")) InvalidLanguage }
{}

/// The faults in the other modes.
pub fn other_refused_rows()
    // a singleton
    ensures singleton { HasSingleFaultInMode LanguageIdentifier (pieces (codes "en-US-u-nu-thai")) InvalidSubtag }
    // a second variant
    ensures second_variant { HasSingleFaultInMode LanguageIdentifier (pieces (codes "de-1996-fonipa")) InvalidSubtag }
    // another extension
    ensures transform { HasSingleFaultInMode LanguageIdentifier (pieces (codes "en-t-de")) InvalidSubtag }
    // the empty text
    ensures nothing { HasSingleFaultInMode LanguageIdentifier (pieces (codes "")) InvalidLanguage }
    // and where a rest may be left
    ensures nothing_left { HasSingleFaultInMode Partial (pieces (codes "")) InvalidLanguage }
    // a singleton first
    ensures no_language { HasSingleFaultInMode Partial (pieces (codes "x-foo")) InvalidLanguage }
{}
