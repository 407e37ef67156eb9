//! Laws of the grammar: each is the contract of a function that does nothing.
//!
//! They hold of the definitions, over every list of pieces; none is about code.
ghost use Rattle.icu_locale_core_grammar.specs.CollectionLaws.{SetsContain, SetsRise, RisingIsItsSet, MapsKeepTheFirst, MapsRise, RisingIsItsMap};
ghost use Rattle.icu_locale_core_grammar.specs.TagLaws.{TagsAreRead, StagesNameFaults, HasMeaningOrFault, HasOneMeaning, HasOneFault, HasNeverBoth, CaseIsIgnored, PiecesArePlain};
ghost use Rattle.icu_locale_core_grammar.specs.TagLaws.{MeaningsAreNormal, NormalPiecesMean, TextReadsBack, TextTellsMeanings, SingletonsRise, PiecesMakeTheText, AnswersAreRight};

/// Sets have what was given and maps the value of the first entry with a key, both in byte order. `fonipa`, `1996`,
/// `fonipa` are the set of `1996` and `fonipa`; of `nu` with `thai` and `nu` with `latn` the map has `thai` at `nu`.
pub fn sets_and_maps()
    ensures contains { SetsContain }
    ensures rises { SetsRise }
    ensures own_set { RisingIsItsSet }
    ensures first_stands { MapsKeepTheFirst }
    ensures keys_rise { MapsRise }
    ensures own_map { RisingIsItsMap }
{}

/// The stages of a tag read the grammar: what they find is meant, what is meant they find, and each stage goes on to
/// some end. With `EN`, `us` they find the language `en` and the region `US`.
pub fn tags_are_read()
    ensures { TagsAreRead }
{}

/// A stage that was reached and does not go on, with the next piece or at the end, names the fault by where that is:
/// after `en`, `u` the end is `InvalidExtension`.
pub fn stages_name_faults()
    ensures { StagesNameFaults }
{}

/// Each list of pieces has a meaning or a fault: `en`, `us` has a meaning, and `en`, `u` the fault `InvalidExtension`.
pub fn meaning_or_fault()
    ensures { HasMeaningOrFault }
{}

/// A list of pieces has one meaning at most: of `de`, `1996` it is the language `de` with the variant `1996`, and no
/// other.
pub fn one_meaning()
    ensures { HasOneMeaning }
{}

/// A list of pieces has one fault at most: of `en`, `u` it is only `InvalidExtension`.
pub fn one_fault()
    ensures { HasOneFault }
{}

/// No list of pieces has a meaning and a fault: `en`, `us` has no fault, and `en`, `u` no meaning.
pub fn never_both()
    ensures { HasNeverBoth }
{}

/// Lists of pieces that are one in lower case mean the same, as `EN`, `us` and `en`, `US`.
pub fn case_is_ignored()
    ensures { CaseIsIgnored }
{}

/// The pieces of a tag are letters and digits: no tag has the piece `en_us`.
pub fn pieces_are_plain()
    ensures { PiecesArePlain }
{}

/// A meaning that was read is in normal form: that of `EN`, `latn` has `en` and `Latn`.
pub fn meanings_are_normal()
    ensures { MeaningsAreNormal }
{}

/// The meanings in normal form are exactly those which their normal pieces have: the language `en` with the script
/// `Latn` is what `en`, `Latn` means.
pub fn normal_pieces_mean()
    ensures { NormalPiecesMean }
{}

/// The normal text of what was read, cut at its hyphens and read again, has the same meaning: `en-u-nu` has that of
/// `EN-u-nu-true`.
pub fn text_reads_back()
    ensures { TextReadsBack }
{}

/// Meanings in normal form that have one normal text are one: with the text `en-US` each is the language `en` with the
/// region `US`.
pub fn text_tells_meanings()
    ensures { TextTellsMeanings }
{}

/// The singletons of the printed blocks rise, in byte order: `s`, `t`, `u`, `z` in `en-s-bar-t-it-u-nu-z-foo`.
pub fn singletons_rise()
    ensures { SingletonsRise }
{}

/// The pieces of a text, joined by hyphens, are the text: `en` and the empty piece make `en-`.
pub fn pieces_make_the_text()
    ensures { PiecesMakeTheText }
{}

/// The result that is computed for a text is its normal text, or its fault: `en-US` for `EN-us`, and `InvalidSubtag`
/// for `en-`.
pub fn answers_are_right()
    ensures { AnswersAreRight }
{}
