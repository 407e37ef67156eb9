//! The digits of one system, in those of ASCII; and the separators of Arabic digits.

ghost use Rattle.std.specs.Prelude.{◌≡◌, ◌++◌, ◌-◌, ◌≤◌, true, None, IfOk, IfSome, IsOk, OnOk, encode_utf8, map, option_map, slice_get, string_bytes};
ghost use Rattle.std.specs.List.{find, list_any};
ghost use Rattle.std.specs.Str.{chars, encode_utf8_all};
ghost use Rattle.icu_decimal_lenient.specs.Native.{are_of, arabic_symbols, ascii_text, has_arabic_digits, has_arabic_mark, has_arabic_separator, in_ascii, is_arabic, is_from, native_system, native_text, system_of, systems_in, zeros};

use crate::folding::put;
use icu_decimal_reading::digits::split_character;
use icu_decimal_symbols::{DecimalSymbolStrsBuilder, DecimalSymbols};
use std::alloc::{AllocError, Global};

// The zero of each system of ten digits in a row, in order: the characters of general category Nd of Unicode 17.0.
const ZEROS: [u32; 77] = [
    0x30, 0x660, 0x6F0, 0x7C0, 0x966, 0x9E6, 0xA66, 0xAE6, 0xB66, 0xBE6, 0xC66, 0xCE6, 0xD66,
    0xDE6, 0xE50, 0xED0, 0xF20, 0x1040, 0x1090, 0x17E0, 0x1810, 0x1946, 0x19D0, 0x1A80, 0x1A90,
    0x1B50, 0x1BB0, 0x1C40, 0x1C50, 0xA620, 0xA8D0, 0xA900, 0xA9D0, 0xA9F0, 0xAA50, 0xABF0, 0xFF10,
    0x104A0, 0x10D30, 0x10D40, 0x11066, 0x110F0, 0x11136, 0x111D0, 0x112F0, 0x11450, 0x114D0,
    0x11650, 0x116C0, 0x116D0, 0x116DA, 0x11730, 0x118E0, 0x11950, 0x11BF0, 0x11C50, 0x11D50,
    0x11DA0, 0x11DE0, 0x11F50, 0x16130, 0x16A60, 0x16AC0, 0x16B50, 0x16D70, 0x1CCF0, 0x1D7CE,
    0x1D7D8, 0x1D7E2, 0x1D7EC, 0x1D7F6, 0x1E140, 0x1E2F0, 0x1E4F0, 0x1E5F1, 0x1E950, 0x1FBF0,
];

// Whether a code point is a zero, or one of the nine after it.
fn counts_from(zero: u32, code: u32) -> bool
    ensures value { result ≡ is_from code zero }
    ensures within { result ≡ true → (zero ≤ code) × (code - zero ≤ 9) }
{
    zero <= code && code - zero <= 9
}

// The zero among these that a code point counts from.
fn zero_in(zeros: &[u32], code: u32) -> Option<u32>
    ensures value { result ≡ find (is_from code) zeros.now }
    ensures within { IfSome result (λ zero. (zero ≤ code) × (code - zero ≤ 9)) }
{
    for zero in zeros {
        if counts_from(*zero, code) {
            return Some(*zero);
        }
    }
    None
}

// The system of a digit, by its zero. What is in ASCII is not looked up.
#[tactic(auto, using(crate::proofs::NativeLemmas::ascii_digit, crate::proofs::NativeLemmas::ascii_other))]
fn system_of(character: char) -> Option<u32>
    ensures value { result ≡ system_of character }
    ensures within { IfSome result (λ zero. (zero ≤ character) × (character - zero ≤ 9)) }
{
    let code = character as u32;
    if code > 0x7F {
        return zero_in(&ZEROS, code);
    }
    if counts_from(0x30, code) {
        Some(0x30)
    } else {
        None
    }
}

// The system of the first digit of a text.
#[tactic(auto, using(crate::proofs::NativeLemmas::first_here, crate::proofs::NativeLemmas::first_more, crate::proofs::NativeLemmas::first_end))]
fn first_system(text: &str) -> Option<u32>
    ensures { result ≡ slice_get (systems_in (chars text.now)) 0 }
{
    let mut left = text;
    while let Some((character, rest)) = split_character(left) {
        if let Some(zero) = system_of(character) {
            return Some(zero);
        }
        left = rest;
    }
    None
}

// Whether all digits of a text are of this system.
#[tactic(auto, using(crate::proofs::NativeLemmas::only_not, crate::proofs::NativeLemmas::only_more, crate::proofs::NativeLemmas::only_other, crate::proofs::NativeLemmas::only_end))]
fn has_only(zero: u32, text: &str) -> bool
    ensures { result ≡ are_of zero (chars text.now) }
{
    let mut left = text;
    while let Some((character, rest)) = split_character(left) {
        if let Some(system) = system_of(character) {
            if system != zero {
                return false;
            }
        }
        left = rest;
    }
    true
}

// The system that all digits of a text are of, where there are digits, and they are not those of ASCII.
fn native_system(text: &str) -> Option<u32>
    ensures { result ≡ native_system (chars text.now) }
{
    let zero = first_system(text)?;
    if zero != 0x30 && has_only(zero, text) {
        Some(zero)
    } else {
        None
    }
}

// A digit as that of ASCII, any other character as it is.
fn ascii_character(character: char) -> char
    ensures { result ≡ in_ascii (system_of character) character }
{
    match system_of(character) {
        Some(zero) => ((character as u32 - zero) as u8 + 48) as char,
        None => character,
    }
}

// Puts a text after another, with its digits in ASCII.
#[tactic(auto, using(crate::proofs::NativeLemmas::ascii_more, crate::proofs::NativeLemmas::ascii_end))]
fn put_in_ascii(out: &mut String, text: &str) -> Result<(), AllocError>
    ensures { OnOk result (string_bytes out.new ≡ string_bytes out.old ++ ascii_text text.now) }
{
    let mut left = text;
    while let Some((character, rest)) = split_character(left) {
        put(out, ascii_character(character))?;
        left = rest;
    }
    Ok(())
}

/// A text with its digits in ASCII, where they are all of one system that is not that of ASCII: of `१,२३४.५` `1,234.5`.
/// `None`: it has no digits, or some of ASCII or of two systems, as `1२3`.
///
/// A system is ten characters in a row of general category Nd, of Unicode 17.0. `AllocError`: out of memory. Allocates
/// where there is such a text.
pub fn native_text(alloc: Global, text: &str) -> Result<Option<String>, AllocError>
    ensures succeeds { native_text text.now ≡ None → IsOk result }
    ensures value { IfOk result (λ native. option_map string_bytes native ≡ native_text text.now) }
{
    if native_system(text).is_none() {
        return Ok(None);
    }
    let mut native = String::with_capacity(alloc, text.len())?;
    put_in_ascii(&mut native, text)?;
    Ok(Some(native))
}

/// Whether the digits of a text are all Arabic-Indic ones, or all the extended ones of Persian and Urdu: `٤٥٦` and
/// `۴۵۶`, not `456`.
///
/// It does not allocate.
pub fn has_arabic_digits(text: &str) -> bool
    ensures { result ≡ has_arabic_digits text.now }
{
    match native_system(text) {
        Some(zero) => zero == 0x660 || zero == 0x6F0,
        None => false,
    }
}

// Whether a separator of Arabic digits is in a text.
fn has_arabic_mark(text: &str) -> bool
    ensures { result ≡ has_arabic_mark text.now }
{
    text.chars().any(|character| character == '\u{66B}' || character == '\u{66C}')
}

/// Whether a separator of Arabic digits, U+066B or U+066C, is in one of the separators: in those of `ar-EG`, not in those
/// of English.
///
/// It does not allocate.
pub fn has_arabic_separator(symbols: &DecimalSymbols) -> bool
    ensures { result ≡ has_arabic_separator symbols.now.strings }
{
    has_arabic_mark(symbols.decimal_separator()) || has_arabic_mark(symbols.grouping_separator())
}

/// These symbols with the separators that CLDR has for Arabic digits: with those of English `1٬234٫5` is 1234.5.
///
/// `AllocError`: out of memory. Allocates.
#[tactic(auto, using(crate::proofs::NativeLemmas::arabic_point, crate::proofs::NativeLemmas::arabic_group))]
pub fn arabic_symbols(alloc: Global, symbols: &DecimalSymbols) -> Result<DecimalSymbols, AllocError>
    ensures { IfOk result (λ arabic. arabic ≡ arabic_symbols symbols.now) }
{
    let own = DecimalSymbolStrsBuilder::from_strs(alloc, &symbols.strings)?;
    let decimal_separator = String::from_str(alloc, "\u{66B}")?;
    let grouping_separator = String::from_str(alloc, "\u{66C}")?;
    let texts = DecimalSymbolStrsBuilder {
        decimal_separator,
        grouping_separator,
        ..own
    };
    Ok(DecimalSymbols {
        strings: texts.build(),
        grouping_sizes: symbols.grouping_sizes,
    })
}
