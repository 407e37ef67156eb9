//! Laws of the words of calls. Each function is a proof: it answers nothing.

ghost use Rattle.legumeyet_c_values.specs.WordLaws.{NewerIncrementsWereNone, OlderIncrementsStay, OlderOptionsStay, OlderShapesStay, SevenOptionsStay, SixShapesStay};

/// One more word that is 0 changes nothing, so that a program that was compiled for fewer words is understood as it was: `3,
/// 9` as `3, 9, 0`. Seven words of options ask for the rounding at a position, and six of a format for numbers, as they did
/// when there were no more. So do words with the increment 1, 2, 5 or 25, as when there were these alone, and those with
/// another asked for nothing.
pub fn older_words_stay()
    ensures options { OlderOptionsStay }
    ensures seven { SevenOptionsStay }
    ensures shapes { OlderShapesStay }
    ensures six { SixShapesStay }
    ensures increments { OlderIncrementsStay }
    ensures newer { NewerIncrementsWereNone }
{}
