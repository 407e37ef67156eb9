//! Rows of the grammar: texts with the normal text that they have, and texts with their fault.
//!
//! Each clause is a fact on only the definitions, which a wrong definition would contradict.
ghost use Rattle.std.specs.Prelude.{codes};
ghost use Rattle.icu_locale_core_grammar.specs.FaultyPiece.{HasFault};
ghost use Rattle.icu_locale_core_grammar.specs.KnownRows.{single_text, language_first_text, region_first_text};
ghost use Rattle.icu_locale_core_grammar.specs.LanguagePart.{MeansLanguage};
ghost use Rattle.icu_locale_core_grammar.specs.Meaning.{MeansTag};
ghost use Rattle.icu_locale_core_grammar.specs.NormalText.{language_text};
ghost use Rattle.icu_locale_core_grammar.specs.Pieces.{pieces};
ghost use Rattle.icu_locale_core_grammar.specs.SingleVariant.{MeansSingle, HasSingleFault};
ghost use Rattle.icu_locale_core_grammar.specs.TagLaws.{IsShown, IsPrinted, IsRefused};
ghost use Rattle.icu_locale_core_grammar.specs.declared.error.ParseError.TheVariants.{InvalidLanguage, InvalidSubtag, InvalidExtension, DuplicatedExtension};

/// Texts that are tags, and their normal texts.
pub fn printed_rows()
    // a script, a region and variants: case by place, variants in order
    ensures script_region_variants { IsPrinted (codes "en-latn-us-fonipa-1996") (codes "en-Latn-US-1996-fonipa") }
    // extensions by singleton; a private subtag may be any letter, and twice
    ensures blocks_in_order { IsPrinted (codes "en-b-foo-a-bar-x-B-a") (codes "en-a-bar-b-foo-x-b-a") }
    // of two equal keys the first is kept
    ensures first_of_equal_keys { IsPrinted (codes "en-u-ca-buddhist-ca-coptic") (codes "en-u-ca-buddhist") }
    // `true` is left out of a keyword's value
    ensures true_left_out { IsPrinted (codes "EN-u-nu-true") (codes "en-u-nu") }
    // all is lower case within `t`, and a field without a value shows `true`
    ensures inner_lower { IsPrinted (codes "en-t-DE-Latn-m0-true") (codes "en-t-de-latn-m0-true") }
    // a digit is a singleton too, and comes before the letters
    ensures digit_singletons { IsPrinted (codes "und-a-foo-1-bar") (codes "und-1-bar-a-foo") }
    // `t` and `u` come before the first other singleton above `t`
    ensures extensions_around_transform { IsPrinted (codes "en-z-foo-u-nu-t-it-s-bar")
        (codes "en-s-bar-t-it-u-nu-z-foo") }
    // the first of equal keys is kept even where its value is empty
    ensures key_stands_where_empty { IsPrinted (codes "en-u-nu-nu-thai") (codes "en-u-nu") }
    // `true` is left out anywhere in a value
    ensures true_within_value { IsPrinted (codes "en-u-nu-foo-TRUE-bar") (codes "en-u-nu-foo-bar") }
    // an attribute may be `true`, and attributes are a set
    ensures true_is_an_attribute { IsPrinted (codes "en-u-true-foo-TRUE") (codes "en-u-foo-true") }
    // attributes come in order, before keywords by key
    ensures attributes_before_keys { IsPrinted (codes "en-u-foo-bar-nu-latn-ca-hebrew")
        (codes "en-u-bar-foo-ca-hebrew-nu-latn") }
    // a key may begin with a digit
    ensures key_with_digit { IsPrinted (codes "en-u-1a-foo") (codes "en-u-1a-foo") }
    // fields come in order of their keys, and the first of equal keys is kept
    ensures fields_in_order { IsPrinted (codes "en-t-m0-foo-k0-bar-M0-other") (codes "en-t-k0-bar-m0-foo") }
    // `t` may have only fields
    ensures field_without_inner { IsPrinted (codes "und-t-h0-hybrid") (codes "und-t-h0-hybrid") }
    // `t` may have only a language part
    ensures inner_without_field { IsPrinted (codes "und-t-de-1996-1994") (codes "und-t-de-1994-1996") }
    // a private part may come right after the language
    ensures private_alone { IsPrinted (codes "en-X-A-12345678") (codes "en-x-a-12345678") }
    // a region may be three digits, and a variant may begin with one
    ensures region_of_digits { IsPrinted (codes "es-419-1ABC") (codes "es-419-1abc") }
    // a piece of two letters after a singleton is no region
    ensures no_region_after_it { IsPrinted (codes "en-a-us") (codes "en-a-us") }
    // a language may have three letters
    ensures three_letters { IsPrinted (codes "UND") (codes "und") }

    // a language, a script, a region and a keyword
    ensures whole_tag { IsPrinted (codes "en-Latn-US-u-nu-thai") (codes "en-Latn-US-u-nu-thai") }

    // within `x` a letter may occur twice
    ensures private_twice { IsPrinted (codes "en-x-a-a") (codes "en-x-a-a") }
{}

/// Texts that are no tags, and their faults.
pub fn refused_rows()
    // the empty text is one empty piece
    ensures empty_text { IsRefused (codes "") InvalidLanguage }
    // four letters are no language
    ensures four_letters { IsRefused (codes "abcd") InvalidLanguage }
    // nor is a singleton
    ensures private_first { IsRefused (codes "x-foo") InvalidLanguage }
    // nor is one letter
    ensures one_letter { IsRefused (codes "e") InvalidLanguage }
    // nor is a piece with a digit
    ensures language_with_digit { IsRefused (codes "e1") InvalidLanguage }
    // an empty piece is a piece
    ensures empty_piece { IsRefused (codes "en-") InvalidSubtag }
    // a variant occurs twice
    ensures repeated_variant { IsRefused (codes "de-1996-1996") InvalidSubtag }
    // a variant occurs twice, whatever its case
    ensures repeated_variant_case { IsRefused (codes "de-fonipa-FONIPA") InvalidSubtag }
    // nine characters and more are no subtag
    ensures too_long { IsRefused (codes "en-toolongpiece") InvalidSubtag }
    // a script after a region
    ensures script_after_region { IsRefused (codes "en-us-latn") InvalidSubtag }
    // a second region
    ensures second_region { IsRefused (codes "en-us-gb") InvalidSubtag }
    // a region after a variant
    ensures region_after_variant { IsRefused (codes "en-1996-us") InvalidSubtag }
    // a character that is no letter and no digit
    ensures underscore { IsRefused (codes "en_us") InvalidLanguage }
    // an extension is empty at the end
    ensures ends_after_u { IsRefused (codes "en-u") InvalidExtension }
    // an empty extension, though the piece repeats its singleton
    ensures empty_then_repeated { IsRefused (codes "en-u-u") InvalidExtension }
    // an empty extension, and then another
    ensures empty_then_other { IsRefused (codes "en-a-b-foo") InvalidExtension }
    // an empty extension, and then `x`
    ensures empty_then_private { IsRefused (codes "en-a-x-foo") InvalidExtension }
    // an empty piece within an extension
    ensures empty_piece_within { IsRefused (codes "en-u-nu-") InvalidExtension }
    // a field without a value at the end
    ensures ends_after_field { IsRefused (codes "und-t-h0") InvalidExtension }
    // a field without a value, though the piece repeats a singleton
    ensures field_then_repeated { IsRefused (codes "und-a-foo-t-h0-a-bar") InvalidExtension }
    // a field without a value, and then another
    ensures field_then_field { IsRefused (codes "und-t-h0-k0-foo") InvalidExtension }
    // a piece that is too long within an extension
    ensures too_long_within { IsRefused (codes "en-a-toolongpiece") InvalidExtension }
    // no private subtag
    ensures ends_after_x { IsRefused (codes "en-x") InvalidExtension }
    // a variant occurs twice within `t`
    ensures repeated_variant_within { IsRefused (codes "und-t-de-1996-1996") InvalidExtension }
    // a second region within `t`
    ensures region_twice_within { IsRefused (codes "und-t-de-us-gb") InvalidExtension }
    // a keyword's key ends with a letter
    ensures key_of_digit_within { IsRefused (codes "en-u-a1-foo") InvalidExtension }
    // a singleton occurs twice
    ensures repeated_singleton { IsRefused (codes "en-a-foo-a-bar") DuplicatedExtension }
    // a singleton occurs twice, whatever its case
    ensures repeated_singleton_case { IsRefused (codes "en-a-foo-u-nu-A-bar") DuplicatedExtension }
    // `u` occurs twice
    ensures repeated_unicode { IsRefused (codes "en-u-nu-u-ca") DuplicatedExtension }
    // `t` occurs twice
    ensures repeated_transform { IsRefused (codes "en-t-de-t-fr") DuplicatedExtension }
    // a digit occurs twice as a singleton
    ensures repeated_digit { IsRefused (codes "en-1-foo-1-bar") DuplicatedExtension }
    // the first fault counts: the second `a` comes later
    ensures repeated_after_fault { IsRefused (codes "en-a-foo-toolongpiece-a-bar") InvalidExtension }
{}

/// Texts that are language identifiers, and their texts.
pub fn language_rows()
    // each part in its own case
    ensures case_by_place { IsShown MeansLanguage language_text (codes "EN-lATN-us-FONIPA-1996")
        (codes "en-Latn-US-1996-fonipa") }
    // a region without a script
    ensures region_alone { IsShown MeansLanguage language_text (codes "de-at") (codes "de-AT") }
    // only a language
    ensures undetermined { IsShown MeansLanguage language_text (codes "und") (codes "und") }
{}

/// Texts that are no language identifiers, and their faults.
pub fn language_refused_rows()
    // a singleton is no part of it
    ensures singleton_refused { HasFault MeansLanguage (pieces (codes "en-u-nu-latn")) InvalidSubtag }
    // nor is `x`
    ensures private_refused { HasFault MeansLanguage (pieces (codes "en-x-foo")) InvalidSubtag }
    // the empty text
    ensures nothing_read { HasFault MeansLanguage (pieces (codes "")) InvalidLanguage }
    // a variant twice
    ensures twice_refused { HasFault MeansLanguage (pieces (codes "de-1996-1996")) InvalidSubtag }
{}

/// Tags of one variant and one keyword, and their texts.
pub fn single_rows()
    // one variant, one keyword, one piece
    ensures one_of_each { IsShown MeansSingle single_text (codes "EN-latn-us-FONIPA-u-NU-Latn")
        (codes "en-Latn-US-fonipa-u-nu-latn") }
    // a keyword without a value
    ensures key_alone { IsShown MeansSingle single_text (codes "en-u-nu") (codes "en-u-nu") }
    // `true` is left out
    ensures true_is_no_piece { IsShown MeansSingle single_text (codes "en-u-kn-true") (codes "en-u-kn") }
    // no keyword
    ensures no_keyword { IsShown MeansSingle single_text (codes "de-1996") (codes "de-1996") }
{}

/// Texts that have more than one variant or one keyword, and their faults.
pub fn single_refused_rows()
    // a second variant
    ensures second_variant { HasSingleFault (pieces (codes "de-1996-fonipa")) InvalidSubtag }
    // a second keyword
    ensures second_keyword { HasSingleFault (pieces (codes "en-u-nu-latn-ca-hebrew")) InvalidExtension }
    // a second keyword with the same key
    ensures equal_keyword { HasSingleFault (pieces (codes "en-u-nu-latn-nu-thai")) InvalidExtension }
    // a second piece of a value
    ensures second_piece { HasSingleFault (pieces (codes "en-u-ca-islamic-civil")) InvalidExtension }
    // an attribute
    ensures attribute_refused { HasSingleFault (pieces (codes "en-u-foo")) InvalidExtension }
    // another extension
    ensures other_extension { HasSingleFault (pieces (codes "en-a-foo")) InvalidExtension }
    // the private part
    ensures private_extension { HasSingleFault (pieces (codes "en-x-foo")) InvalidExtension }
    // `t`
    ensures transform_extension { HasSingleFault (pieces (codes "en-t-de")) InvalidExtension }
    // `u` twice
    ensures unicode_twice { HasSingleFault (pieces (codes "en-u-nu-u")) InvalidExtension }
    // an empty extension
    ensures empty_extension { HasSingleFault (pieces (codes "en-u")) InvalidExtension }
    // a character that is no singleton
    ensures no_singleton { HasSingleFault (pieces (codes "en-@")) InvalidSubtag }
    // a singleton first
    ensures no_language { HasSingleFault (pieces (codes "x-foo")) InvalidLanguage }
{}

/// Tags, and the locale that data is asked for, where the language comes first.
pub fn language_first_rows()
    // `sd` and `rg` read
    ensures subdivision_and_override { IsShown MeansTag language_first_text (codes "en-US-u-rg-gbeng-sd-ustx")
        (codes "en-US-u-sd-ustx") }
    // the region in `sd` changes nothing
    ensures subdivision_of_elsewhere { IsShown MeansTag language_first_text (codes "en-US-u-sd-gbeng")
        (codes "en-US-u-sd-gbeng") }
    // a suffix of one character reads
    ensures override_with_one_letter { IsShown MeansTag language_first_text (codes "en-US-u-rg-gbr") (codes "en-US") }
    // the first variant in byte order
    ensures least_variant { IsShown MeansTag language_first_text (codes "de-fonipa-1996") (codes "de-1996") }
    // a value of two pieces does not read
    ensures two_pieces_do_not_read { IsShown MeansTag language_first_text (codes "en-u-sd-ustx-gbeng") (codes "en") }
    // a region of digits
    ensures digits_in_front { IsShown MeansTag language_first_text (codes "es-u-rg-419abc") (codes "es") }
    // the first of equal keys is kept even where it does not read
    ensures first_key_does_not_read { IsShown MeansTag language_first_text (codes "en-u-rg-rg-gbeng") (codes "en") }
    // nothing else is asked for
    ensures all_else_left_out { IsShown MeansTag language_first_text (codes "en-u-foo-ca-hebrew-nu-thai-t-de-x-bar")
        (codes "en") }
    // a letter and digits are no region
    ensures digits_and_letters_do_not_read { IsShown MeansTag language_first_text (codes "en-u-sd-u12abc")
        (codes "en") }

    // of two subdivisions the first is kept
    ensures first_subdivision { IsShown MeansTag language_first_text (codes "en-u-sd-ustx-sd-gbeng")
        (codes "en-u-sd-ustx") }
{}

/// Tags, and the locale that data is asked for, where the region comes first.
pub fn region_first_rows()
    // `sd` and `rg` read
    ensures subdivision_and_override { IsShown MeansTag region_first_text (codes "en-US-u-rg-gbeng-sd-ustx")
        (codes "en-GB-u-sd-gbeng") }
    // the region in `sd` changes nothing
    ensures subdivision_of_elsewhere { IsShown MeansTag region_first_text (codes "en-US-u-sd-gbeng")
        (codes "en-US-u-sd-gbeng") }
    // a suffix of one character reads
    ensures override_with_one_letter { IsShown MeansTag region_first_text (codes "en-US-u-rg-gbr")
        (codes "en-GB-u-sd-gbr") }
    // the first variant in byte order
    ensures least_variant { IsShown MeansTag region_first_text (codes "de-fonipa-1996") (codes "de-1996") }
    // a value of two pieces does not read
    ensures two_pieces_do_not_read { IsShown MeansTag region_first_text (codes "en-u-sd-ustx-gbeng") (codes "en") }
    // a region of digits
    ensures digits_in_front { IsShown MeansTag region_first_text (codes "es-u-rg-419abc") (codes "es-419-u-sd-419abc") }
    // the first of equal keys is kept even where it does not read
    ensures first_key_does_not_read { IsShown MeansTag region_first_text (codes "en-u-rg-rg-gbeng") (codes "en") }
    // nothing else is asked for
    ensures all_else_left_out { IsShown MeansTag region_first_text (codes "en-u-foo-ca-hebrew-nu-thai-t-de-x-bar")
        (codes "en") }
    // a letter and digits are no region
    ensures digits_and_letters_do_not_read { IsShown MeansTag region_first_text (codes "en-u-sd-u12abc") (codes "en") }

    // of two subdivisions the first is kept
    ensures first_subdivision { IsShown MeansTag region_first_text (codes "en-u-sd-ustx-sd-gbeng")
        (codes "en-u-sd-ustx") }
{}
