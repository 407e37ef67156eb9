//! The digits of a table, and where they are in a text.

ghost use Rattle.std.specs.Prelude.{◌≡◌, ◌≤◌, ◌<◌, true, [], ◌∷◌, length, IfSome, IfNone, is_some, is_none, filter_map};
ghost use Rattle.std.specs.List.{list_all};
ghost use Rattle.std.specs.Str.{chars};
ghost use Rattle.icu_decimal_reading.specs.PlainReading.{begins_fraction};
ghost use Rattle.icu_decimal_reading.specs.Readable.{all_differ, digit_of};

// The place of a character in a table.
fn place_of(table: &[char], character: char) -> Option<usize>
    ensures { result ≡ digit_of table.now character }
{
    table.iter().position(|digit| *digit == character)
}

/// Which digit a character is, in a table where no digit is twice: `7` is 7 in that of ASCII, and `x` none.
///
/// In most tables the characters follow one another, so that the distance from the first one is the digit. Does not
/// allocate.
#[tactic(auto, using(crate::proofs::ScanLemmas::digit_here))]
pub fn digit_in(table: &[char; 10], character: char) -> Option<u8>
    requires { all_differ table.now ≡ true }
    ensures value { result ≡ digit_of table.now character }
    ensures ten { IfSome result (λ d. d < 10) }
{
    let distance = (character as u32).wrapping_sub(table[0] as u32);
    if distance < 10 && table[distance as usize] == character {
        return Some(distance as u8);
    }
    match place_of(table, character) {
        Some(place) => Some(place as u8),
        None => None,
    }
}

/// Whether a character is a digit, in a table where no digit is twice: `7` is one in that of ASCII, and `x` is not.
///
/// Does not allocate.
pub fn is_digit(table: &[char; 10], character: char) -> bool
    requires { all_differ table.now ≡ true }
    ensures { result ≡ is_some (digit_of table.now character) }
{
    digit_in(table, character).is_some()
}

// Whether no digit is twice.
pub(crate) fn do_all_differ(table: &[char]) -> bool
    ensures { result ≡ all_differ table.now }
{
    let mut left = table;
    while let Some((first, rest)) = left.split_first() {
        if place_of(rest, *first).is_some() {
            return false;
        }
        left = rest;
    }
    true
}

/// The first character of a text, and what follows it: `-` and `5` of `-5`. Returns `None` of the empty text.
///
/// Does not allocate.
#[tactic(auto, using(std::proofs::lemmas::Str::chars_past_char))]
pub fn split_character(text: &str) -> Option<(char, &str)>
    ensures some { IfSome result (λ r. chars text.now ≡ r.0 ∷ chars r.1.now) }
    ensures less { IfSome result (λ r. length r.1.now < length text.now) }
    ensures none { IfNone result (chars text.now ≡ []) }
{
    let mut characters = text.chars();
    let first = characters.next()?;
    Some((first, characters.as_str()))
}

/// Whether no digit of a table is in a text: none of ASCII is in `-.`, and one in `-5`.
///
/// Does not allocate.
#[tactic(auto, using(crate::proofs::StepLemmas::clear_not, crate::proofs::StepLemmas::clear_more, crate::proofs::StepLemmas::clear_end))]
pub fn has_none(table: &[char; 10], text: &str) -> bool
    ensures { result ≡ list_all (λ c. is_none (digit_of table.now c)) (chars text.now) }
{
    let mut left = text;
    while let Some((character, rest)) = split_character(left) {
        if place_of(table, character).is_some() {
            return false;
        }
        left = rest;
    }
    true
}

// How many digits are in a text.
#[tactic(auto, using(crate::proofs::StepLemmas::count_digit, crate::proofs::StepLemmas::count_other, crate::proofs::StepLemmas::count_end))]
pub(crate) fn count_in(table: &[char; 10], text: &str) -> usize
    requires { all_differ table.now ≡ true }
    ensures value { result ≡ length (filter_map (digit_of table.now) (chars text.now)) }
    ensures bound { result ≤ length text.now }
{
    let mut count = 0usize;
    let mut left = text;
    while let Some((character, rest)) = split_character(left) {
        if is_digit(table, character) {
            count += 1;
        }
        left = rest;
    }
    count
}

/// Whether a separator is at the front of a text, and a digit directly after it: `.` before `.5`, and not before
/// `.-5`. The table has no digit twice.
///
/// Does not allocate.
#[tactic(auto, using(crate::proofs::StepLemmas::begins_more, crate::proofs::StepLemmas::begins_apart, crate::proofs::StepLemmas::begins_short, crate::proofs::StepLemmas::begins_digit, crate::proofs::StepLemmas::begins_end))]
pub fn does_fraction_follow(table: &[char; 10], separator: &str, text: &str) -> bool
    requires { all_differ table.now ≡ true }
    ensures { result ≡ begins_fraction table.now (chars separator.now) (chars text.now) }
{
    let mut left = text;
    let mut wanted = separator;
    while let Some((character, more)) = split_character(wanted) {
        let Some((found, rest)) = split_character(left) else {
            return false;
        };
        if found != character {
            return false;
        }
        wanted = more;
        left = rest;
    }
    match split_character(left) {
        Some((character, _)) => is_digit(table, character),
        None => false,
    }
}
