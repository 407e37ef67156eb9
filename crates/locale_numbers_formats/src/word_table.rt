//! A table of words, each with a value.

ghost use Rattle.std.specs.Prelude.{◌≡◌, map};
ghost use Rattle.locale_numbers_formats.specs.WordTable.{value_beside};

/// The value beside a word in a table, that of the first entry with it, or `None` where the word is not there: of `b` in a
/// table with 1 beside `a` and 2 beside `b` it is 2. It does not allocate.
pub fn value_beside<T: Copy>(mut table: &[(&[u8], T)], word: &[u8]) -> Option<T>
    ensures { result ≡ value_beside (map (λ entry. (entry.0.now, entry.1)) table.entry.now) word.now }
{
    while let [entry, rest @ ..] = table {
        if word == entry.0 {
            return Some(entry.1);
        }
        table = rest;
    }
    None
}
