//! The words that a call asks by. A word that is not given is 0.

ghost use Rattle.std.specs.Prelude.{◌≡◌};
ghost use Rattle.std.specs.List.{list_all};
ghost use Rattle.legumeyet_c_values.specs.Words.{is_known, is_zero, word_at};

// A word: 0 where it is not given.
pub(crate) fn word_at(words: &[i32], place: usize) -> i32
    ensures { result ≡ word_at words.now place }
{
    if place < words.len() { words[place] } else { 0 }
}

// Whether a word is 0.
fn is_zero(word: i32) -> bool
    ensures { result ≡ is_zero word }
{
    word == 0
}

/// Whether words ask for nothing: each is 0, or there is none.
pub fn are_zeros(words: &[i32]) -> bool
    ensures { result ≡ list_all is_zero words.now }
{
    for word in words {
        if !is_zero(*word) {
            return false;
        }
    }
    true
}

// Whether the words past the first ones, so many, are 0.
pub(crate) fn is_known(count: usize, words: &[i32]) -> bool
    ensures { result ≡ is_known count words.now }
{
    words.len() <= count || are_zeros(&words[count..])
}
