//! The plain text of a number's digits, put into bytes.

ghost use Rattle.std.specs.Prelude.{◌≡◌, ◌+◌, ◌*◌, ◌<◌, ◌≤◌, ◌++◌, [], ◌∷◌, length, map, replicate, take, IsUtf8};
ghost use Rattle.std.specs.Char.{digit_value};
ghost use Rattle.fixed_decimal.specs.NumberText.{AreDigits};
ghost use Rattle.icu_decimal_plain.specs.LaterGroups.{groups_ahead};
ghost use Rattle.icu_decimal_plain.specs.PlainText.{decimal_text, unsigned_text, whole_text};
ghost use Rattle.icu_decimal_plain.specs.Runs.{byte_text};
ghost use Rattle.icu_decimal_direct.specs.FewDigits.{plain_number};
ghost use Rattle.icu_decimal_direct.specs.TextDigits.{number_spelled};
ghost use Rattle.icu_decimal_direct.specs.TextTables.{text_tables};

use crate::text_digits::TextDigits;
use crate::text_tables::TextTables;
use fixed_decimal::Sign;

// Puts bytes after the first `len` ones, and returns how many there are then.
#[inline(always)]
#[tactic(auto, using(crate::proofs::PuttingLemmas::byte_next, crate::proofs::PuttingLemmas::byte_none))]
pub(crate) fn put_bytes<const N: usize>(out: &mut [u8; N], len: usize, bytes: &[u8]) -> usize
    requires room { len + length bytes.now ≤ N }
    ensures text { take result out.new ≡ take len out.old ++ bytes.now }
    ensures room { result ≡ len + length bytes.now }
{
    let mut at = 0;
    while at < bytes.len() {
        out[len + at] = bytes[at];
        at += 1;
    }
    len + bytes.len()
}

// Puts the first `count` of four bytes or more after the first `len` ones, and returns how many there are then.
#[inline(always)]
fn put_begin<const N: usize>(out: &mut [u8; N], len: usize, bytes: &[u8], count: usize) -> usize
    requires room { len + 4 ≤ N }
    requires long { 4 ≤ length bytes.now }
    requires few { count ≤ 4 }
    ensures text { take result out.new ≡ take len out.old ++ take count bytes.now }
    ensures room { result ≡ len + count }
{
    out[len] = bytes[0];
    out[len + 1] = bytes[1];
    out[len + 2] = bytes[2];
    out[len + 3] = bytes[3];
    len + count
}

// Puts groups of three bytes, each with the separator before it, after the first `len` bytes, and returns how many bytes
// there are then.
#[inline(always)]
#[tactic(auto, using(crate::proofs::PuttingLemmas::byte_threes_next, crate::proofs::PuttingLemmas::byte_threes_none))]
fn put_byte_threes<const N: usize>(
    out: &mut [u8; N],
    len: usize,
    separator: u8,
    bytes: &[u8],
    groups: usize,
) -> usize
    requires room { len + 4 * groups ≤ N }
    requires enough { 3 * groups ≤ length bytes.now }
    ensures text { take result out.new
        ≡ take len out.old ++ groups_ahead (separator ∷ []) byte_text (replicate groups 3) bytes.now }
    ensures room { result ≡ len + 4 * groups }
{
    let mut at = 0;
    while at < groups {
        let from = 3 * at;
        let to = len + 4 * at;
        out[to] = separator;
        out[to + 1] = bytes[from];
        out[to + 2] = bytes[from + 1];
        out[to + 3] = bytes[from + 2];
        at += 1;
    }
    len + 4 * groups
}

// Puts groups of so many bytes, each with the separator before it, after the first `len` bytes, and returns how many
// bytes there are then.
#[inline(always)]
fn put_groups<const N: usize>(
    out: &mut [u8; N],
    len: usize,
    separator: &[u8],
    bytes: &[u8],
    size: usize,
    groups: usize,
) -> usize
    requires room { len + 4 * groups + groups * size ≤ N }
    requires short { length separator.now ≤ 4 }
    requires enough { groups * size ≤ length bytes.now }
    ensures text { take result out.new
        ≡ take len out.old ++ groups_ahead separator.now byte_text (replicate groups size) bytes.now }
    ensures room { result ≤ len + 4 * groups + groups * size }
{
    let mut end = len;
    let mut ahead = bytes;
    let mut left = groups;
    while left > 0 {
        let (group, behind) = ahead.split_at(size);
        let begun = put_bytes(out, end, separator);
        end = put_bytes(out, begun, group);
        ahead = behind;
        left -= 1;
    }
    end
}

// Puts groups of three bytes, each with the separator before it, after the first `len` bytes, and returns how many bytes
// there are then.
#[inline(always)]
fn put_threes<const N: usize>(
    out: &mut [u8; N],
    len: usize,
    separator: &[u8],
    bytes: &[u8],
    groups: usize,
) -> usize
    requires room { len + 7 * groups ≤ N }
    requires short { length separator.now ≤ 4 }
    requires enough { 3 * groups ≤ length bytes.now }
    ensures text { take result out.new
        ≡ take len out.old ++ groups_ahead separator.now byte_text (replicate groups 3) bytes.now }
    ensures room { result ≤ len + 7 * groups }
{
    if separator.len() == 1 {
        return put_byte_threes(out, len, separator[0], bytes, groups);
    }
    put_groups(out, len, separator, bytes, 3, groups)
}

// Puts digits in a first group, groups of two, and a last one of three, after the first `len` bytes, and returns how many
// bytes there are then.
#[inline(always)]
fn put_pairs<const N: usize>(
    out: &mut [u8; N],
    len: usize,
    tables: &TextTables<'_>,
    integer: &[u8],
) -> usize
    requires room { len + 92 ≤ N }
    requires digits { AreDigits integer.now }
    requires few { length integer.now ≤ 32 }
    requires grouped { tables.now.direct.groups.least ≤ length integer.now }
    requires pairs { tables.now.direct.groups.middle ≡ 2 }
    ensures text { take result out.new
        ≡ take len out.old ++ whole_text (text_tables tables.now) (map digit_value integer.now) }
    ensures room { result ≤ len + 92 }
{
    let separator = tables.direct.group.as_bytes();
    let pairs = (integer.len() - 4) / 2;
    let first = integer.len() - 3 - 2 * pairs;
    let begun = put_begin(out, len, integer, first);
    let last = integer.len() - 3;
    let end = put_groups(out, begun, separator, &integer[first..], 2, pairs);
    put_groups(out, end, separator, &integer[last..], 3, 1)
}

// Puts digits in their groups after the first `len` bytes, and returns how many bytes there are then.
#[inline(always)]
pub(crate) fn put_integer<const N: usize>(
    out: &mut [u8; N],
    len: usize,
    tables: &TextTables<'_>,
    integer: &[u8],
) -> usize
    requires room { len + 92 ≤ N }
    requires digits { AreDigits integer.now }
    requires some { 0 < length integer.now }
    requires few { length integer.now ≤ 32 }
    ensures text { take result out.new
        ≡ take len out.old ++ whole_text (text_tables tables.now) (map digit_value integer.now) }
    ensures room { result ≤ len + 92 }
{
    let groups = &tables.direct.groups;
    if integer.len() < groups.least as usize {
        return put_bytes(out, len, integer);
    }
    if groups.middle == 2 {
        return put_pairs(out, len, tables, integer);
    }
    let threes = (integer.len() - 1) / 3;
    let first = integer.len() - 3 * threes;
    let begun = put_begin(out, len, integer, first);
    put_threes(
        out,
        begun,
        tables.direct.group.as_bytes(),
        &integer[first..],
        threes,
    )
}

// Puts a number without its sign after the first `len` bytes, and returns how many bytes there are then.
#[inline(always)]
fn put_unsigned<const N: usize>(
    out: &mut [u8; N],
    len: usize,
    tables: &TextTables<'_>,
    digits: &TextDigits<'_>,
) -> usize
    requires room { len + 128 ≤ N }
    ensures text { take result out.new
        ≡ take len out.old
        ++ unsigned_text (text_tables tables.now) (plain_number digits.now.integer.now digits.now.fraction.now) }
    ensures room { result ≤ len + 128 }
{
    let end = put_integer(out, len, tables, digits.integer);
    if digits.fraction.is_empty() {
        return end;
    }
    let begun = put_bytes(out, end, tables.direct.decimal.as_bytes());
    put_bytes(out, begun, digits.fraction)
}

impl TextTables<'_> {
    /// Puts the text of a number after the first `len` bytes, and returns how many bytes there are then: `-1,234.5` for
    /// the digits of `-1234.5` in English. It does not allocate.
    ///
    /// The condition is that there is room for 136 bytes more.
    #[inline(always)]
    pub fn put<const N: usize>(
        &self,
        digits: &TextDigits<'_>,
        out: &mut [u8; N],
        len: usize,
    ) -> usize
        requires room { len + 136 ≤ N }
        ensures text { take result out.new
            ≡ take len out.old ++ decimal_text (text_tables self.now) (number_spelled digits.now) }
        ensures utf8 { IsUtf8 (decimal_text (text_tables self.now) (number_spelled digits.now)) }
        ensures room { result ≤ len + 136 }
    {
        let (prefix, suffix) = match digits.sign {
            Sign::None => return put_unsigned(out, len, self, digits),
            Sign::Negative => (self.direct.prefix, self.direct.suffix),
            Sign::Positive => (self.direct.plus_prefix, self.direct.plus_suffix),
        };
        let begun = put_bytes(out, len, prefix.as_bytes());
        let end = put_unsigned(out, begun, self, digits);
        put_bytes(out, end, suffix.as_bytes())
    }
}
