//! Laws of the parts of a tag that are read by themselves: each is the contract of a function that does nothing.
ghost use Rattle.std.specs.Prelude.{[], false, true, None, Some};
ghost use Rattle.icu_locale_core_grammar.specs.Subtags.{is_key, is_field_key};
ghost use Rattle.icu_locale_core_grammar.specs.LanguagePart.{MeansLanguage, MeansInner};
ghost use Rattle.icu_locale_core_grammar.specs.Meaning.{MeansAttributes, MeansUnicode, MeansTransform, MeansOther, MeansTag};
ghost use Rattle.icu_locale_core_grammar.specs.PartReaders.{MeansOwn, MeansKeywords, MeansFields, MeansValue, entries_after, entries_end, value_after, own_after};
ghost use Rattle.icu_locale_core_grammar.specs.DataTags.{MeansDataLocale};
ghost use Rattle.icu_locale_core_grammar.specs.SingleVariant.{MeansSingle, InLanguage, single_after, single_ends};
ghost use Rattle.icu_locale_core_grammar.specs.Stepping.{IsReader, InHead};
ghost use Rattle.icu_locale_core_grammar.specs.TagStages.{language_after, language_ends, inner_ends, attributes_after, attributes_end, unicode_after, unicode_ends, transform_after, transform_ends, other_after, other_ends};
ghost use Rattle.icu_locale_core_grammar.specs.PartLaws.{DataHasMeaningOrFault, DataHasOneFault, DataHasNeverBoth};
ghost use Rattle.icu_locale_core_grammar.specs.PartLaws.{IsOne, LeavesOne, TakesPlain, PlainPiecesReadBack, LanguageHasMeaningOrFault, LanguageHasFrontOrFault, LanguageReadsBack, UnicodeReadsBack};
ghost use Rattle.icu_locale_core_grammar.specs.PartLaws.{TransformReadsBack, PrivateReadsBack, OtherReadsBack, AttributesReadBack, KeywordsReadBack, FieldsReadBack, ValueReadsBack, KeywordsStandAlone, FieldsStandAlone};
ghost use Rattle.icu_locale_core_grammar.specs.PartLaws.{SubdivisionsAreSpelled, DataReadsBack, SingleHasMeaningOrFault, SingleIsTag};

/// The stages of each part read its grammar: with `DE`, `at` those of a language identifier find the language `de` and
/// the region `AT`.
pub fn parts_are_read()
    ensures language { IsReader language_after None language_ends MeansLanguage }
    ensures inner { IsReader language_after None inner_ends MeansInner }
    ensures attributes { IsReader attributes_after [] attributes_end MeansAttributes }
    ensures unicode { IsReader unicode_after (InHead []) unicode_ends MeansUnicode }
    ensures transform { IsReader transform_after (InHead None) transform_ends MeansTransform }
    ensures other { IsReader other_after [] other_ends MeansOther }
    ensures own { IsReader own_after [] Some MeansOwn }
    ensures keywords { IsReader (entries_after is_key false) (InHead tt) entries_end MeansKeywords }
    ensures fields { IsReader (entries_after is_field_key true) (InHead tt) entries_end MeansFields }
    ensures value { IsReader value_after [] Some MeansValue }
    ensures single { IsReader single_after (InLanguage None) single_ends MeansSingle }
{}

/// Each part means one thing at most: the keywords `nu`, `thai`, `nu`, `latn` mean `thai` at `nu`, and nothing else.
pub fn parts_have_one_meaning()
    ensures language { IsOne MeansLanguage }
    ensures attributes { IsOne MeansAttributes }
    ensures unicode { IsOne MeansUnicode }
    ensures transform { IsOne MeansTransform }
    ensures other { IsOne MeansOther }
    ensures own { IsOne MeansOwn }
    ensures keywords { IsOne MeansKeywords }
    ensures fields { IsOne MeansFields }
    ensures value { IsOne MeansValue }
    ensures single { IsOne MeansSingle }
    ensures data_locale { IsOne MeansDataLocale }
{}

/// The pieces of each part are letters and digits, and such pieces are those of their text: `foo`, `bar` those of
/// `foo-bar`.
pub fn parts_are_plain()
    ensures language { TakesPlain MeansLanguage }
    ensures attributes { TakesPlain MeansAttributes }
    ensures unicode { TakesPlain MeansUnicode }
    ensures transform { TakesPlain MeansTransform }
    ensures other { TakesPlain MeansOther }
    ensures own { TakesPlain MeansOwn }
    ensures keywords { TakesPlain MeansKeywords }
    ensures fields { TakesPlain MeansFields }
    ensures value { TakesPlain MeansValue }
    ensures text { PlainPiecesReadBack }
{}

/// Each part in normal form has the meaning that its printed pieces have: a field `m0` without a value is what `m0`,
/// `true` means.
pub fn parts_read_back()
    ensures language { LanguageReadsBack }
    ensures attributes { AttributesReadBack }
    ensures unicode { UnicodeReadsBack }
    ensures transform { TransformReadsBack }
    ensures other { OtherReadsBack }
    ensures own { PrivateReadsBack }
    ensures keywords { KeywordsReadBack }
    ensures fields { FieldsReadBack }
    ensures value { ValueReadsBack }
    ensures data_locale { DataReadsBack }
{}

/// Keywords by themselves are what follows `u` without an attribute, and fields what follows `t` without a language:
/// `nu-thai` are those of `u-nu-thai`, and `m0-und` those of `t-m0-und`.
pub fn entries_stand_alone()
    ensures keywords { KeywordsStandAlone }
    ensures fields { FieldsStandAlone }
{}

/// Each list of pieces is a language identifier or has a fault, and a front of it is one or the first piece is at
/// fault. `en`, `u`, `nu` has the fault `InvalidSubtag`, and its front `en` is one; of `abcd` the first piece is at
/// fault.
pub fn languages_are_answered()
    ensures whole { LanguageHasMeaningOrFault }
    ensures front { LanguageHasFrontOrFault }
{}

/// Of a list of pieces one front is read at most, and one rest is left: of `en`, `us`, `u` as a language identifier
/// `en`, `us` is read, and `u` is left.
pub fn fronts_are_one()
    ensures language { LeavesOne MeansLanguage }
    ensures tag { LeavesOne MeansTag }
{}

/// A text is a subdivision exactly where it is a region and a suffix: `ustx` is `US` and `tx`.
pub fn subdivisions_are_spelled()
    ensures { SubdivisionsAreSpelled }
{}

/// Each list of pieces is a tag of one variant and one keyword or has a fault, and such a tag is a tag with that
/// meaning: `en-u-nu` is one, and `de-1996-fonipa` has the fault `InvalidSubtag`.
pub fn single_tags_are_answered()
    ensures answered { SingleHasMeaningOrFault }
    ensures tag { SingleIsTag }
{}

/// Each list of pieces is a data locale or has a fault, one at most, and never both: `en-us-u-sd-ustx` is one, and
/// `en-u-nu-latn` has the fault `InvalidExtension`.
pub fn data_locales_are_answered()
    ensures answered { DataHasMeaningOrFault }
    ensures one_fault { DataHasOneFault }
    ensures never_both { DataHasNeverBoth }
{}
