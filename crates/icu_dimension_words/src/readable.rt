//! Which words are readable.

ghost use Rattle.std.specs.Prelude.{◌≡◌, ◌∷◌, ◌<◌, [], length, reverse, IfNone, IfSome, is_some};
ghost use Rattle.std.specs.Str.{IsUtf8, bytes_eq, chars};
ghost use Rattle.icu_decimal_plain.specs.BorrowedTables.{borrowed_tables};
ghost use Rattle.icu_decimal_reading.specs.Readable.{digit_of};
ghost use Rattle.icu_dimension_words.specs.HeldWords.{borrowed_word, settings_of};
ghost use Rattle.icu_dimension_words.specs.Words.{own_word};
ghost use Rattle.icu_dimension_words.specs.WordsReading.{AreWordTexts, IsWordText, are_apart, are_apart_where, are_told_apart, back_of, begins, ends, front_of, is_first, is_one_pair, is_words_readable_by, may_clash, of_all};

use crate::plural_words::PluralWords;
use crate::tables::WordTables;
use crate::word::BorrowedWord;
use icu_decimal_plain::DecimalTables;
use icu_decimal_plurals::PluralCategory;
use icu_decimal_reading::digits::split_character;

// The last character of a text, and what is before it.
#[tactic(auto, using(crate::proofs::ReadableLemmas::last_character, crate::proofs::ReadableLemmas::no_characters))]
pub(crate) fn split_last_character(text: &str) -> Option<(char, &str)>
    ensures some { IfSome result (λ r. reverse (chars text.now) ≡ r.0 ∷ reverse (chars r.1.now)) }
    ensures less { IfSome result (λ r. length r.1.now < length text.now) }
    ensures none { IfNone result (reverse (chars text.now) ≡ []) }
{
    let mut characters = text.chars();
    let last = characters.next_back()?;
    Some((last, characters.as_str()))
}

// The place of a character in a table.
fn place_of(table: &[char], mark: char) -> Option<usize>
    ensures { result ≡ digit_of table.now mark }
{
    table.iter().position(|digit| *digit == mark)
}

// Whether a character is a digit of a table.
fn is_digit(table: &[char], mark: char) -> bool
    ensures { result ≡ is_some (digit_of table.now mark) }
{
    place_of(table, mark).is_some()
}

// Whether a text begins with a character.
#[tactic(auto, using(crate::proofs::ReadableLemmas::first_some, crate::proofs::ReadableLemmas::first_none))]
fn is_first(mark: char, text: &str) -> bool
    ensures { result ≡ is_first mark (chars text.now) }
{
    match split_character(text) {
        Some((character, _)) => character == mark,
        None => false,
    }
}

// Whether a text ends with a character.
#[tactic(auto, using(crate::proofs::ReadableLemmas::first_some, crate::proofs::ReadableLemmas::first_none))]
fn is_last(mark: char, text: &str) -> bool
    ensures { result ≡ is_first mark (reverse (chars text.now)) }
{
    match split_last_character(text) {
        Some((character, _)) => character == mark,
        None => false,
    }
}

// Whether a number may begin with a character.
fn does_begin(decimals: &DecimalTables<'_>, mark: char) -> bool
    ensures { result ≡ begins (borrowed_tables decimals.now) mark }
{
    let symbols = decimals.symbols();
    is_digit(decimals.digits(), mark)
        || (is_first(mark, symbols.minus_sign_prefix())
            || is_first(mark, symbols.plus_sign_prefix()))
}

// Whether a number may end with a character.
fn does_end(decimals: &DecimalTables<'_>, mark: char) -> bool
    ensures { result ≡ ends (borrowed_tables decimals.now) mark }
{
    let symbols = decimals.symbols();
    is_digit(decimals.digits(), mark)
        || (is_last(mark, symbols.minus_sign_suffix()) || is_last(mark, symbols.plus_sign_suffix()))
}

// Whether two texts may come before numbers at one place of one text.
#[tactic(auto, using(crate::proofs::ReadableLemmas::clash_more, crate::proofs::ReadableLemmas::clash_not, crate::proofs::ReadableLemmas::clash_longer, crate::proofs::ReadableLemmas::clash_shorter, crate::proofs::ReadableLemmas::clash_end))]
fn may_clash_before(decimals: &DecimalTables<'_>, one: &str, other: &str) -> bool
    ensures { result ≡ may_clash (begins (borrowed_tables decimals.now)) (chars one.now) (chars other.now) }
{
    let mut left = one;
    let mut against = other;
    while let Some((character, more)) = split_character(left) {
        let Some((found, rest)) = split_character(against) else {
            return does_begin(decimals, character);
        };
        if character != found {
            return false;
        }
        left = more;
        against = rest;
    }
    match split_character(against) {
        Some((found, _)) => does_begin(decimals, found),
        None => true,
    }
}

// Whether two texts may come after numbers at one place of one text.
#[tactic(auto, using(crate::proofs::ReadableLemmas::clash_more, crate::proofs::ReadableLemmas::clash_not, crate::proofs::ReadableLemmas::clash_longer, crate::proofs::ReadableLemmas::clash_shorter, crate::proofs::ReadableLemmas::clash_end))]
fn may_clash_after(decimals: &DecimalTables<'_>, one: &str, other: &str) -> bool
    ensures { result ≡ may_clash (ends (borrowed_tables decimals.now)) (reverse (chars one.now)) (reverse (chars other.now)) }
{
    let mut left = one;
    let mut against = other;
    while let Some((character, more)) = split_last_character(left) {
        let Some((found, rest)) = split_last_character(against) else {
            return does_end(decimals, character);
        };
        if character != found {
            return false;
        }
        left = more;
        against = rest;
    }
    match split_last_character(against) {
        Some((found, _)) => does_end(decimals, found),
        None => true,
    }
}

// Whether two texts are one.
pub(crate) fn is_same_text(one: &str, other: &str) -> bool
    ensures { result ≡ bytes_eq one.now other.now }
{
    one == other
}

// Whether words are one pair.
pub(crate) fn is_one_pair(one: BorrowedWord<'_>, other: BorrowedWord<'_>) -> bool
    ensures { result ≡ is_one_pair (borrowed_word one.entry) (borrowed_word other.entry) }
{
    match (one, other) {
        (BorrowedWord::Around(before, after), BorrowedWord::Around(front, back)) => {
            is_same_text(before, front) && is_same_text(after, back)
        }
        _ => false,
    }
}

// The text before a number, or the bare one.
fn front_of(word: BorrowedWord<'_>) -> &str
    ensures { result.now ≡ front_of (borrowed_word word.entry) }
{
    match word {
        BorrowedWord::Around(before, _) => before,
        BorrowedWord::Bare(text) => text,
    }
}

// The text after a number, or the bare one.
fn back_of(word: BorrowedWord<'_>) -> &str
    ensures { result.now ≡ back_of (borrowed_word word.entry) }
{
    match word {
        BorrowedWord::Around(_, after) => after,
        BorrowedWord::Bare(text) => text,
    }
}

// Whether numbers with these words are told apart.
fn are_apart(decimals: &DecimalTables<'_>, one: BorrowedWord<'_>, other: BorrowedWord<'_>) -> bool
    ensures { result ≡ are_apart (borrowed_tables decimals.now) (borrowed_word one.entry) (borrowed_word other.entry) }
{
    is_one_pair(one, other)
        || !(may_clash_before(decimals, front_of(one), front_of(other))
            && may_clash_after(decimals, back_of(one), back_of(other)))
}

// Whether the words of two categories are told apart, where both have some.
fn are_apart_where(
    decimals: &DecimalTables<'_>,
    words: &PluralWords,
    one: PluralCategory,
    other: PluralCategory,
) -> bool
    ensures { result ≡ are_apart_where (borrowed_tables decimals.now) (own_word words.now one) (own_word words.now other) }
{
    let Some(first) = words.own(one) else {
        return true;
    };
    match words.own(other) {
        Some(second) => are_apart(decimals, first, second),
        None => true,
    }
}

// Whether they are one category, or their words are told apart.
fn are_told_apart(
    decimals: &DecimalTables<'_>,
    words: &PluralWords,
    one: PluralCategory,
    other: PluralCategory,
) -> bool
    ensures { result ≡ are_told_apart (borrowed_tables decimals.now) words.now one other }
{
    one == other || are_apart_where(decimals, words, one, other)
}

// Whether the words of a category are told apart from those of each.
fn is_told_from_all(decimals: &DecimalTables<'_>, words: &PluralWords, one: PluralCategory) -> bool
    ensures { result ≡ of_all (λ other. are_told_apart (borrowed_tables decimals.now) words.now one other) }
{
    are_told_apart(decimals, words, one, PluralCategory::Zero)
        && (are_told_apart(decimals, words, one, PluralCategory::One)
            && (are_told_apart(decimals, words, one, PluralCategory::Two)
                && (are_told_apart(decimals, words, one, PluralCategory::Few)
                    && (are_told_apart(decimals, words, one, PluralCategory::Many)
                        && are_told_apart(decimals, words, one, PluralCategory::Other)))))
}

// Whether the words of each two categories are told apart.
fn are_all_told_apart(decimals: &DecimalTables<'_>, words: &PluralWords) -> bool
    ensures { result
        ≡ of_all (λ one. of_all (λ other. are_told_apart (borrowed_tables decimals.now) words.now one other)) }
{
    is_told_from_all(decimals, words, PluralCategory::Zero)
        && (is_told_from_all(decimals, words, PluralCategory::One)
            && (is_told_from_all(decimals, words, PluralCategory::Two)
                && (is_told_from_all(decimals, words, PluralCategory::Few)
                    && (is_told_from_all(decimals, words, PluralCategory::Many)
                        && is_told_from_all(decimals, words, PluralCategory::Other)))))
}

// That a text is one, for the proof.
pub(crate) fn is_text(text: &str)
    ensures { IsUtf8 text.now }
{}

// That words are texts, for the proof.
fn is_word_text(word: BorrowedWord<'_>)
    ensures { IsWordText (borrowed_word word.entry) }
{
    match word {
        BorrowedWord::Around(before, after) => {
            is_text(before);
            is_text(after);
        }
        BorrowedWord::Bare(text) => is_text(text),
    }
}

// That the words of a category are texts, for the proof.
fn is_own_text(words: &PluralWords, category: PluralCategory)
    ensures { IfSome (own_word words.now category) IsWordText }
{
    if let Some(word) = words.own(category) {
        is_word_text(word);
    }
}

// That all are texts, which the laws of texts ask.
fn are_texts(tables: &WordTables<'_>)
    ensures { AreWordTexts (settings_of tables.now) }
{
    icu_decimal_reading::are_tables(&tables.decimals);
    is_own_text(tables.words, PluralCategory::Zero);
    is_own_text(tables.words, PluralCategory::One);
    is_own_text(tables.words, PluralCategory::Two);
    is_own_text(tables.words, PluralCategory::Few);
    is_own_text(tables.words, PluralCategory::Many);
    is_own_text(tables.words, PluralCategory::Other);
}

impl<'b> WordTables<'b> {
    /// Whether texts can be read back: in English with ` kilometer` and ` kilometers` after the number they can.
    ///
    /// They can where the tables of decimals are readable, and of each two categories the words are one pair, or do not
    /// clash on both sides. The texts before the number clash where they are one, or the longer one goes on with a digit
    /// or with the first character of a sign where the shorter one ends; so do those after it, read from behind. A text
    /// without the number counts as both. Then no two decimals have one text. It does not allocate.
    pub fn is_readable(&self) -> bool
        ensures value { result ≡ is_words_readable_by (settings_of self.now) }
        ensures texts { AreWordTexts (settings_of self.now) }
    {
        are_texts(self);
        icu_decimal_reading::is_readable(&self.decimals)
            && are_all_told_apart(&self.decimals, self.words)
    }
}
