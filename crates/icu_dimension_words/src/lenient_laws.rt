//! Laws of lenient reading of numbers with words. No call is made: each clause is the law.

ghost use Rattle.icu_dimension_words.specs.LenientWordLaws.{ExactWordsAreLenient, HasOneExactReading, LenientWordsAreTyped, LenientWordsMiss, OneWayIsRead, WordWaysAgree, WordsAreNotUnreadable, WrittenWordsReadLeniently};
ghost use Rattle.icu_dimension_words.specs.NativeWordLaws.{ArabicWordsAreRead, LenientWordsAreNativeSo, NativeWordsAreAscii, OnlyArabicWordsDiffer, OtherWordsStay};

/// A law: the exact reading is answered by a function: in English of `5 kilometers` it is 5, and of `1 kilometers` none.
pub fn function_answers_reading()
    ensures { HasOneExactReading }
{}

/// A law: what is read exactly is read leniently as the same decimal, and so is what the formatter writes: in English
/// `-1,234.50 kilometers` is -1234.50.
pub fn exact_is_lenient()
    ensures exact { ExactWordsAreLenient }
    ensures written { WrittenWordsReadLeniently }
{}

/// A law: what is read leniently is a spelling of that decimal, and no way in which a text is read gives another one. Where
/// none is read, no way reads one, or two differ.
pub fn lenient_reading_agrees()
    ensures typed { LenientWordsAreTyped }
    ensures agree { WordWaysAgree }
    ensures misses { LenientWordsMiss }
{}

/// A law: what one way reads, and no other way as another decimal, is read so: the words need not be those of the category
/// of the number. In English `1 kilometers` is 1.
pub fn any_category_is_read()
    ensures read { OneWayIsRead }
    ensures readable { WordsAreNotUnreadable }
{}

/// A law: native digits add to what is read: what is read without them stays, and so does every text that has none or a
/// mixture. In Hindi `1,234 km` is 1234, and `1२3 km` is not read.
pub fn native_digits_add()
    ensures same { LenientWordsAreNativeSo }
    ensures others { OtherWordsStay }
{}

/// A law: a text in native digits that was not read is read as it is in ASCII: in Hindi `१२३ km` as `123 km`. Only Arabic
/// digits are read in another way besides: `٤٥٫٥ km` with their separators.
pub fn native_digits_are_ascii()
    ensures same { NativeWordsAreAscii }
    ensures others { OnlyArabicWordsDiffer }
    ensures arabic { ArabicWordsAreRead }
{}
