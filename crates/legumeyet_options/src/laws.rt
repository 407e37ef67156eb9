//! Laws on what is said of texts: each function says one, and does nothing.

ghost use Rattle.legumeyet_options.specs.SayingLaws.{SaysAsLines};

use locale_numbers_formatter::laws::format_is_text;

/// What is said of a text, where no rounding is coarse, is what a line of the same task, format and text is answered: its
/// text after `ok`, or its word after `err`.
pub fn says_as_lines()
    ensures { SaysAsLines }
{
    format_is_text();
}
