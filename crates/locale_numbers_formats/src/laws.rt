//! Laws of digits that are shown, of older options, and of skeletons. Each function is a proof: it answers nothing.

ghost use Rattle.locale_numbers_formats.specs.DigitLaws.{CoarserKeepsOrder, CoarserShowsItself, FinerKeepsOrder, FinerShowsItself, LessIsCoarser, MoreIsFiner, NearestIsNear, PlaceKeepsOrder, SignificantKeepsOrder, SignificantShowsItself, ZeroIsForZero};
ghost use Rattle.locale_numbers_formats.specs.OlderOptions.{OlderOptionsStay};
ghost use Rattle.locale_numbers_formats.specs.SkeletonLaws.{NormalTextReadsBack, TextsAreSkeletons};

/// Of two numbers the smaller never shows a larger value, whatever the mode is: rounded to significant digits, to a
/// place, to the finer of both or to the coarser. To three digits 999.4 shows 999, and 999.5 shows 1000.
pub fn choices_keep_the_order()
    ensures significant { SignificantKeepsOrder }
    ensures to_place { PlaceKeepsOrder }
    ensures finer { FinerKeepsOrder }
    ensures coarser { CoarserKeepsOrder }
{}

/// A value that is shown shows itself, whatever the mode is. To two digits 9.99 shows 10, and 10 shows 10.
pub fn shown_values_show_themselves()
    ensures significant { SignificantShowsItself }
    ensures finer { FinerShowsItself }
    ensures coarser { CoarserShowsItself }
{}

/// With significant digits zero is shown only for zero, whatever the mode is. To the nearest a value is off by at most
/// half a unit of the last place shown.
pub fn shown_values_are_near()
    ensures zero_is_shown_for_zero { ZeroIsForZero }
    ensures near { NearestIsNear }
{}

/// A rounding to either goes to the finer of both by `MorePrecision`, and to the coarser by `LessPrecision`. At -2 or to
/// three digits 12345.678 becomes 12345.68, or 12300.
pub fn either_goes_to_the_finer_or_the_coarser()
    ensures more { MoreIsFiner }
    ensures less { LessIsCoarser }
{}

/// Options that were there before significant digits make of a number what they made: 1.501 at -2, trimmed, becomes 1.5.
pub fn older_options_make_the_same()
    ensures { OlderOptionsStay }
{}

/// The normal text of a skeleton that words can ask for is read as that skeleton: of `currency/EUR  K` it is `compact-short
/// currency/EUR`, which asks for the same.
pub fn normal_text_reads_back()
    ensures { NormalTextReadsBack }
{}

/// What a text is read as can be asked for by words, so that its normal text is read as it: of `currency/eur` the code is
/// three capitals, and a word has a hundred marks at most.
pub fn texts_are_skeletons()
    ensures { TextsAreSkeletons }
{}
