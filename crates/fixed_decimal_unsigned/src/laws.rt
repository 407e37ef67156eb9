//! Laws on texts and numbers. No call is made: each clause is the law.

ghost use Rattle.fixed_decimal_unsigned.specs.Laws.{TextsReadOnce, TextsReadByExponent, PrintedTextsReadBack, EqualTextsAreEqualNumbers, EqualityIsIdentity, EqualityIsThatOfTexts};

/// A text spells at most one number, and is not both within the limits and beyond them: `12.30` spells only 12.3, shown
/// down to magnitude -2.
pub fn texts_read_once()
    ensures { TextsReadOnce }
{}

/// A text spells the number that its exponent makes of its digits, the exponent a whole number, and is beyond the limits
/// where this or a magnitude passes them: `0.50e1` spells 5, shown from magnitude 1 to -1.
pub fn texts_read_by_exponent()
    ensures { TextsReadByExponent }
{}

/// The printed text of a number spells that number: `012.30` spells the number that is printed `012.30`.
pub fn printed_texts_read_back()
    ensures { PrintedTextsReadBack }
{}

/// Numbers with one printed text are one number, their visible ranges included: `0.5` and `0.50` are two texts
/// of two numbers.
pub fn equal_texts_are_equal_numbers()
    ensures { EqualTextsAreEqualNumbers }
{}

/// `==` is true of one number and no others, and so of one printed text and no others: of `0.5` it is true for `5e-1`,
/// and false for `0.50`.
pub fn equality_is_that_of_texts()
    ensures numbers { EqualityIsIdentity }
    ensures texts { EqualityIsThatOfTexts }
{}
