//! Laws on texts and numbers. No call is made: each clause is the law.
ghost use Rattle.fixed_decimal.specs.Calls.{RunsHaveOneEnd};
ghost use Rattle.fixed_decimal.specs.TextLaws.{DecimalTextsReadOnce, IntegerTextsReadOnce, CompactTextsReadOnce, ScientificTextsReadOnce, PrintedDecimalsReadBack, PrintedIntegersReadBack, PrintedCompactsReadBack, PrintedScientificsReadBack, DecimalEqualityIsThatOfTexts, CompactEqualityIsThatOfTexts, ScientificEqualityIsThatOfTexts};

pub use fixed_decimal_signed::laws::{
    equal_texts_are_equal_numbers, equality_is_that_of_texts, printed_texts_read_back,
    signed_modes_go_by_order, texts_read_by_exponent, texts_read_once,
};

/// A text spells at most one decimal, and is not both within the limits and beyond them: `-12.30` spells only -12.3,
/// shown down to magnitude -2.
pub fn decimal_texts_read_once()
    ensures { DecimalTextsReadOnce }
{}

/// A text spells at most one whole number, and is not both within the limits and beyond them: `1e1` spells only 10.
pub fn integer_texts_read_once()
    ensures { IntegerTextsReadOnce }
{}

/// A text spells at most one compact number, and is not both within the limits and beyond them: `1.20c6` spells only
/// 1.20 with the exponent 6.
pub fn compact_texts_read_once()
    ensures { CompactTextsReadOnce }
{}

/// A text spells at most one scientific number: `1.2e-06` spells only 1.2 with the exponent -06.
pub fn scientific_texts_read_once()
    ensures { ScientificTextsReadOnce }
{}

/// The printed text of a decimal reads back as it; decimals with one printed text are one. `-012.30` is read as
/// the decimal that is printed `-012.30`.
pub fn printed_decimals_read_back()
    ensures { PrintedDecimalsReadBack }
{}

/// The printed text of a whole number reads back as it; whole numbers with one printed text are one. `-007` is
/// read as the one that is printed `-007`.
pub fn printed_integers_read_back()
    ensures { PrintedIntegersReadBack }
{}

/// The printed text of a compact number reads back as it; compact numbers with one printed text are one.
/// `1.20c6` is read as the one that is printed `1.20c6`.
pub fn printed_compacts_read_back()
    ensures { PrintedCompactsReadBack }
{}

/// The printed text of a scientific number reads back as it; scientific numbers with one printed text are one.
/// `1.2e-06` is read as the one that is printed `1.2e-06`.
pub fn printed_scientifics_read_back()
    ensures { PrintedScientificsReadBack }
{}

/// Decimals are equal where their printed texts are, and nowhere else: `0` and `-0` are two. So are whole
/// numbers, which have this equality too.
pub fn decimal_equality_is_that_of_texts()
    ensures { DecimalEqualityIsThatOfTexts }
{}

/// Compact numbers are equal where their printed texts are, and nowhere else: `1.2c6` and `1.20c6` are two.
pub fn compact_equality_is_that_of_texts()
    ensures { CompactEqualityIsThatOfTexts }
{}

/// Scientific numbers are equal where their printed texts are, and nowhere else: `1e3` and `10e2` are two.
pub fn scientific_equality_is_that_of_texts()
    ensures { ScientificEqualityIsThatOfTexts }
{}

/// A text and a list of calls lead to one decimal, so `run_calls` writes one text: of `1729` with
/// `ApplySignDisplay(Always)` it is `+1729`.
pub fn runs_have_one_end()
    ensures { RunsHaveOneEnd }
{}
