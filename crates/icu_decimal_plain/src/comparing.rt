//! Whether a text is the one that a decimal is written as.

ghost use Rattle.std.specs.Prelude.{◌≡◌, ◌≤◌, IsUtf8, length, take};
ghost use Rattle.std.specs.Str.{bytes_eq};
ghost use Rattle.icu_decimal_plain.specs.BorrowedTables.{borrowed_tables};
ghost use Rattle.icu_decimal_plain.specs.PlainText.{decimal_text};

use crate::short_runs::{SHORT, put_short};
use crate::tables::DecimalTables;
use fixed_decimal::{Decimal, Sign};
use writeable::strict_cmp;

// Whether the first `len` bytes are this text.
fn is_front(bytes: &[u8], len: usize, text: &str) -> bool
    requires within { len ≤ length bytes.now }
    requires utf8 { IsUtf8 (take len bytes.now) }
    ensures { result ≡ bytes_eq (take len bytes.now) text.now }
{
    let front = unsafe { str::from_utf8_unchecked(&bytes[..len]) };
    front == text
}

// Whether a decimal is written so, each piece compared as it is written.
#[inline(never)]
#[tactic(auto, using(crate::proofs::TextLemmas::decimal_is_text, crate::proofs::ComparingLemmas::same_by_order))]
fn is_piece_by_piece(tables: &DecimalTables<'_>, value: &Decimal, text: &str) -> bool
    ensures { result ≡ bytes_eq (decimal_text (borrowed_tables tables.now) value.now) text.now }
{
    strict_cmp(&tables.format(value), text.as_bytes()).is_eq()
}

// Whether a decimal is written so. One without a sign that is put together at once is compared at once.
#[inline(always)]
#[tactic(auto, using(crate::proofs::ComparingLemmas::without_affixes))]
pub(crate) fn is_text(tables: &DecimalTables<'_>, value: &Decimal, text: &str) -> bool
    ensures { result ≡ bytes_eq (decimal_text (borrowed_tables tables.now) value.now) text.now }
{
    if let Sign::None = value.sign {
        let mut short = [0; SHORT];
        if let Some(len) = put_short(&mut short, tables, &value.absolute) {
            return is_front(&short, len, text);
        }
    }
    is_piece_by_piece(tables, value, text)
}
