//! Texts without the blanks around them.

ghost use Rattle.std.specs.Prelude.{◌≡◌};
ghost use Rattle.legumeyet_columns.specs.Trimming.{is_blank, trimmed, without_end, without_front};

// Whether a byte is a space, a tab or a carriage return.
fn is_blank(byte: u8) -> bool
    ensures value { result ≡ is_blank byte }
{
    byte == b' ' || byte == b'\t' || byte == b'\r'
}

// What is after the blanks in front.
fn without_front(text: &[u8]) -> &[u8]
    ensures value { result.now ≡ without_front text.now }
{
    let mut left = text;
    while let Some((first, rest)) = left.split_first() {
        if !is_blank(*first) {
            return left;
        }
        left = rest;
    }
    left
}

// What is before the blanks at the end.
fn without_end(text: &[u8]) -> &[u8]
    ensures value { result.now ≡ without_end text.now }
{
    let mut left = text;
    while let Some((last, rest)) = left.split_last() {
        if !is_blank(*last) {
            return left;
        }
        left = rest;
    }
    left
}

/// A text without the spaces, tabs and carriage returns around it. It does not allocate.
pub fn trimmed(text: &[u8]) -> &[u8]
    ensures value { result.now ≡ trimmed text.now }
{
    without_end(without_front(text))
}
