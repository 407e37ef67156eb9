//! Texts as messages show them: what nobody sees is escaped.

ghost use Rattle.std.specs.Prelude.{◌≡◌};
ghost use Rattle.legumeyet.specs.Messages.{is_between, is_hidden, is_mark};

use std::fmt;

// Whether a code is from one to another.
fn is_between(first: u32, last: u32, code: u32) -> bool
    ensures value { result ≡ is_between first last code }
{
    first <= code && code <= last
}

// Whether a code is that of a mark without a width.
fn is_mark(code: u32) -> bool
    ensures value { result ≡ is_mark code }
{
    code == 0xAD
        || code == 0x61C
        || is_between(0x200B, 0x200F, code)
        || is_between(0x202A, 0x202E, code)
        || is_between(0x2060, 0x206F, code)
        || code == 0xFEFF
}

// Whether a character is escaped: a control character, a mark without a width, or white space but the plain space.
fn is_hidden(c: char) -> bool
    ensures value { result ≡ is_hidden c }
{
    c != ' ' && (c.is_control() || c.is_whitespace() || is_mark(c as u32))
}

/// A text as a message shows it: `""` where it is empty, `1\r` and `\u{feff}1` where it has what nobody sees.
#[derive(Clone, Copy)]
pub struct Shown<'a>(pub &'a str);

impl fmt::Display for Shown<'_> {
    fn fmt<W: fmt::Write>(&self, f: &mut fmt::Formatter<W>) -> fmt::Result {
        let Shown(text) = *self;
        if text.is_empty() {
            return f.write_str("\"\"");
        }
        for c in text.chars() {
            if is_hidden(c) {
                write!(f, "{}", c.escape_default())?;
            } else {
                write!(f, "{c}")?;
            }
        }
        Ok(())
    }
}

/// Bytes as a message shows them: as their text, or where they are not UTF-8 with `\xff` for a byte beyond ASCII.
#[derive(Clone, Copy)]
pub struct ShownBytes<'a>(pub &'a [u8]);

impl fmt::Display for ShownBytes<'_> {
    fn fmt<W: fmt::Write>(&self, f: &mut fmt::Formatter<W>) -> fmt::Result {
        let ShownBytes(bytes) = *self;
        match str::from_utf8(bytes) {
            Ok(text) => write!(f, "{}", Shown(text)),
            Err(_) => write!(f, "{}", bytes.escape_ascii()),
        }
    }
}
