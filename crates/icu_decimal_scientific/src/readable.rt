//! Which tables are readable.

ghost use Rattle.std.specs.Prelude.{◌≡◌, is_none};
ghost use Rattle.std.specs.Str.{bytes_eq, chars};
ghost use Rattle.icu_decimal_plain.specs.BorrowedTables.{borrowed_tables};
ghost use Rattle.icu_decimal_reading.specs.Readable.{digit_of};
ghost use Rattle.icu_decimal_scientific.specs.HeldTables.{settings_of};
ghost use Rattle.icu_decimal_scientific.specs.ScientificReading.{AreScientificTexts, begins_apart, do_prefixes_differ, is_scientific_readable_by, lacks};

use crate::tables::ScientificTables;
use icu_decimal_plain::DecimalTables;
use icu_decimal_reading::digits::split_character;
use icu_decimal_symbols::DecimalSymbols;

// Whether a character is not in a text.
#[tactic(auto, using(crate::proofs::ReadableLemmas::lacks_not, crate::proofs::ReadableLemmas::lacks_more, crate::proofs::ReadableLemmas::lacks_end))]
fn does_lack(text: &str, mark: char) -> bool
    ensures { result ≡ lacks mark text.now }
{
    let mut left = text;
    while let Some((character, rest)) = split_character(left) {
        if character == mark {
            return false;
        }
        left = rest;
    }
    true
}

// The place of a character in a table.
fn place_of(table: &[char], mark: char) -> Option<usize>
    ensures { result ≡ digit_of table.now mark }
{
    table.iter().position(|digit| *digit == mark)
}

// Whether a character is no digit of a table.
fn is_no_digit(table: &[char], mark: char) -> bool
    ensures { result ≡ is_none (digit_of table.now mark) }
{
    place_of(table, mark).is_none()
}

// Whether a text begins with a character that is in no number without a sign.
#[tactic(auto, using(crate::proofs::ReadableLemmas::apart_some, crate::proofs::ReadableLemmas::apart_none))]
fn does_begin_apart(decimals: &DecimalTables<'_>, separator: &str) -> bool
    ensures { result ≡ begins_apart (borrowed_tables decimals.now) (chars separator.now) }
{
    let Some((mark, _)) = split_character(separator) else {
        return false;
    };
    let symbols = decimals.symbols();
    is_no_digit(decimals.digits(), mark)
        && (does_lack(symbols.decimal_separator(), mark)
            && does_lack(symbols.grouping_separator(), mark))
}

// Whether two texts are one.
fn is_same_text(one: &str, other: &str) -> bool
    ensures { result ≡ bytes_eq one.now other.now }
{
    one == other
}

// Whether what is before a number tells its sign.
fn do_differ(symbols: &DecimalSymbols) -> bool
    ensures { result ≡ do_prefixes_differ symbols.now.strings }
{
    let minus = symbols.minus_sign_prefix();
    let plus = symbols.plus_sign_prefix();
    !is_same_text(minus, "") && (!is_same_text(plus, "") && !is_same_text(minus, plus))
}

// That the tables are texts, which the laws of texts ask.
#[tactic(auto, using(crate::proofs::ReadableLemmas::are_scientific_texts))]
pub(crate) fn are_texts(
    decimals: &DecimalTables<'_>,
    separator: &str,
    exponents: &DecimalTables<'_>,
)
    ensures { AreScientificTexts
        (record { tables = borrowed_tables decimals.now; separator = separator.now; exponents = borrowed_tables exponents.now }) }
{
    icu_decimal_reading::are_tables(decimals);
    icu_decimal_reading::are_tables(exponents);
}

impl<'b> ScientificTables<'b> {
    /// Whether texts can be read back: in English with `E` they can.
    ///
    /// They can where both tables are readable, the text before exponents is not empty, its first character is no digit
    /// of the significand and in neither of its separators, and what is before a number with a minus sign, with a plus
    /// sign and without a sign differs. Then no two scientific numbers have one text. It does not allocate.
    pub fn is_readable(&self) -> bool
        ensures value { result ≡ is_scientific_readable_by (settings_of self.now) }
        ensures texts { AreScientificTexts (settings_of self.now) }
    {
        are_texts(&self.decimals, self.separator, &self.exponents);
        icu_decimal_reading::is_readable(&self.decimals)
            && (icu_decimal_reading::is_readable(&self.exponents)
                && (does_begin_apart(&self.decimals, self.separator)
                    && do_differ(self.decimals.symbols())))
    }
}
