//! The buffer of answers as a sink, so that no text is copied.

ghost use Rattle.std.specs.Prelude.{◌≡◌, true, ◌+◌, ◌<◌, ◌≤◌, ◌++◌, length, IfOk, IsOk, OnOk, OnErr, string_bytes, string_capacity};
ghost use Rattle.writeable.specs.AnnotatedText.{text_of};
ghost use Rattle.icu_decimal.specs.CompactText.{compact_decimal_text, value_shown};
ghost use Rattle.icu_decimal.specs.HeldCompact.{compact_tables_of};
ghost use Rattle.icu_decimal.specs.ShownChoice.{CanShow};
ghost use Rattle.locale_numbers_lines.specs.Growth.{Grows};
ghost use Rattle.locale_numbers_formatter.specs.FormatReading.{is_joined, text_by_reader};
ghost use Rattle.locale_numbers_answers.specs.AnswerSink.{HasRoom};

use fixed_decimal::Decimal;
use icu_decimal::CompactDecimalFormatter;
use locale_numbers_formatter::NumberReader;
use std::alloc::AllocError;
use writeable::{Error, Part, Sink, Writeable};

// A text goes after what the buffer holds, and its parts are left out.
struct AnswerSink<'o> {
    out: &'o mut String,
    refused: bool,
}

// Writes a piece of a text, for which there is room, after what `out` holds.
fn write_piece_in_room(out: &mut String, text: &str)
    requires { HasRoom out.old text.now }
    ensures text { string_bytes out.new ≡ string_bytes out.old ++ text.now }
    ensures capacity { string_capacity out.old ≤ string_capacity out.new }
{
    match out.push_str(text) {
        Ok(()) => {}
        Err(_) => unreachable!(),
    }
}

// Makes room for a piece of a text and writes it after what `out` holds. A call of its own, since there mostly is
// room.
#[inline(never)]
fn write_piece_and_grow(out: &mut String, text: &str) -> Result<(), AllocError>
    ensures text { OnOk result (string_bytes out.new ≡ string_bytes out.old ++ text.now) }
    ensures same { OnErr result (string_bytes out.new ≡ string_bytes out.old) }
    ensures capacity { string_capacity out.old ≤ string_capacity out.new }
    ensures full { OnErr result (string_capacity out.new < length (string_bytes out.new) + length text.now) }
{
    match out.reserve(text.len()) {
        Ok(()) => {
            write_piece_in_room(out, text);
            Ok(())
        }
        Err(_) => Err(AllocError),
    }
}

// Writes a piece of a text after what `out` holds.
pub(crate) fn write_piece(out: &mut String, text: &str) -> Result<(), AllocError>
    ensures text { OnOk result (string_bytes out.new ≡ string_bytes out.old ++ text.now) }
    ensures same { OnErr result (string_bytes out.new ≡ string_bytes out.old) }
    ensures capacity { string_capacity out.old ≤ string_capacity out.new }
    ensures full { OnErr result (string_capacity out.new < length (string_bytes out.new) + length text.now) }
{
    if out.capacity() - out.len() < text.len() {
        return write_piece_and_grow(out, text);
    }
    write_piece_in_room(out, text);
    Ok(())
}

impl<'o> Sink for AnswerSink<'o> {
    ghost use Rattle.locale_numbers_answers.specs.AnswerSink.{NeedsMemory, Puts};
    ghost use Rattle.locale_numbers_answers.specs.AnswerSinkLaws.{needs_more, puts_nothing, puts_joined};

    ghost takes = { λ s es t. Puts s.out es t.out };

    ghost lacks_room = { λ s es. NeedsMemory s.out.now es };

    ghost refused = { λ s. s.refused };

    ghost lacks_more = { λ s first second lacking. needs_more s.out.now first second lacking };

    ghost nothing = { λ s. puts_nothing s.out };

    ghost joins = { λ s t u first second begun going ended. puts_joined s.out t.out u.out first second begun ended };

    fn has_refused(&self) -> bool {
        self.refused
    }

    fn write_str(&mut self, text: &str) -> Result<(), Error> {
        match write_piece(self.out, text) {
            Ok(()) => Ok(()),
            Err(_) => {
                self.refused = true;
                Err(Error)
            }
        }
    }

    fn open_part(&mut self, _part: Part) -> Result<(), Error> {
        Ok(())
    }

    fn close_part(&mut self) -> Result<(), Error> {
        Ok(())
    }
}

// Writes the text of a value after what `out` holds.
//
// Where its hint tells the length, it allocates once; where there is room, not at all. After an error a part of the
// text may be there.
#[tactic(auto, using(writeable::proofs::AnnotatedTextLemmas::text_of_bytes))]
pub(crate) fn write_text_of<T: Writeable>(out: &mut String, value: &T) -> Result<(), AllocError>
    ensures text { OnOk result (string_bytes out.new ≡ string_bytes out.old ++ text_of (T.events value.now)) }
    ensures err { OnErr result (Grows (string_bytes out.old) (string_bytes out.new)) }
    ensures room { HasRoom out.old (text_of (T.events value.now)) → IsOk result }
    ensures capacity { OnOk result (string_capacity out.old ≤ string_capacity out.new) }
{
    out.reserve(value.writeable_length_hint().low)?;
    let mut sink = AnswerSink {
        out,
        refused: false,
    };
    let written = value.write_text(&mut sink);
    let AnswerSink { out: _, refused: _ } = sink;
    match written {
        Ok(()) => Ok(()),
        Err(_) => Err(AllocError),
    }
}

// Writes a decimal, as a compact formatter writes it, after what `out` holds, makes it what is shown, and returns the
// exponent shown.
//
// Where there is room, it does not allocate. After an error a part of the text may be there.
pub(crate) fn write_number_shown(
    formatter: &CompactDecimalFormatter<'_>,
    value: &mut Decimal,
    out: &mut String,
) -> Result<u8, AllocError>
    requires { CanShow (compact_tables_of formatter.now).patterns.entries value.old.absolute.count }
    ensures value { IfOk result
        (λ exponent. record { significand = value.new; exponent = exponent }
        ≡ value_shown (compact_tables_of formatter.now) value.old) }
    ensures text { OnOk result
        (string_bytes out.new
        ≡ string_bytes out.old ++ compact_decimal_text (compact_tables_of formatter.now) value.old) }
    ensures err { OnErr result (Grows (string_bytes out.old) (string_bytes out.new)) }
    ensures room { HasRoom out.old (compact_decimal_text (compact_tables_of formatter.now) value.old) → IsOk result }
    ensures capacity { OnOk result (string_capacity out.old ≤ string_capacity out.new) }
{
    let mut sink = AnswerSink {
        out,
        refused: false,
    };
    let written = formatter.write_shown(value, &mut sink);
    let AnswerSink { out: _, refused: _ } = sink;
    match written {
        Ok(exponent) => Ok(exponent),
        Err(_) => Err(AllocError),
    }
}

// Writes a number after what `out` holds, between affixes that a reader has put together.
//
// Where there is room, it does not allocate. After an error a part of the text may be there.
pub(crate) fn write_between(
    reader: &NumberReader<'_>,
    value: &Decimal,
    out: &mut String,
) -> Result<(), AllocError>
    requires { is_joined reader.now ≡ true }
    ensures text { OnOk result (string_bytes out.new ≡ string_bytes out.old ++ text_by_reader reader.now value.now) }
    ensures err { OnErr result (Grows (string_bytes out.old) (string_bytes out.new)) }
    ensures room { HasRoom out.old (text_by_reader reader.now value.now) → IsOk result }
{
    let mut sink = AnswerSink {
        out,
        refused: false,
    };
    let written = reader.write(value, &mut sink);
    let AnswerSink { out: _, refused: _ } = sink;
    match written {
        Ok(()) => Ok(()),
        Err(_) => Err(AllocError),
    }
}
