//! Writing a number in place: it becomes what is shown for it.

ghost use Rattle.std.specs.Prelude.{◌≡◌, false, is_err, IfOk, OnErr, OnOk};
ghost use Rattle.writeable.specs.Taking.{HasBegun};
ghost use Rattle.fixed_decimal.specs.Number.{Number};
ghost use Rattle.icu_decimal_compact_value.specs.Choice.{CanShow};
ghost use Rattle.icu_decimal_compact_value.specs.Significand.{Shows};
ghost use Rattle.icu_decimal.specs.CompactText.{compact_decimal_events, compact_formatted, value_shown};
ghost use Rattle.icu_decimal.specs.HeldCompact.{compact_tables_of};

use crate::compact_formatter::CompactDecimalFormatter;
use crate::formatted_compact::in_pattern;
use fixed_decimal::Decimal;
use icu_decimal_compact_value::{CompactEntry, ShownUnder, show_in_place};
use icu_decimal_plain::FormattedSign;
use writeable::{Error, Sink, Writeable};

// Makes a decimal what it is shown as, its sign kept.
fn show_absolute(value: &mut Decimal, entries: &[CompactEntry]) -> ShownUnder
    requires { CanShow entries.now value.old.absolute.count }
    ensures sign { value.new.sign ≡ value.old.sign }
    ensures value { Shows entries.now value.old.absolute
        (record { significand = value.new.absolute; exponent = result.exponent; entry = result.entry }) }
{
    show_in_place(&mut value.absolute, entries)
}

impl<'b> CompactDecimalFormatter<'b> {
    /// Writes the decimal as `format` does, makes it the number in the pattern, and returns the exponent that the
    /// pattern stands for: in English it writes -1172700 as `-1.2M`, makes it -1.2, and returns 6.
    ///
    /// The condition is `can_format`, and that the sink has not refused yet. [`Error`] exactly where the sink refused,
    /// which has then taken a beginning; the decimal is shown then too. Only the sink may allocate.
    pub fn write_shown<S: Sink>(&self, value: &mut Decimal, sink: &mut S) -> Result<u8, Error>
        requires fine { S.refused sink.old ≡ false }
        requires can { CanShow (compact_tables_of self.now).patterns.entries value.old.absolute.count }
        ensures significand { value.new ≡ (value_shown (compact_tables_of self.now) value.old).significand }
        ensures exponent { IfOk result
            (λ exponent. exponent ≡ (value_shown (compact_tables_of self.now) value.old).exponent) }
        ensures ok { OnOk result
            (S.takes sink.old (compact_decimal_events (compact_formatted (compact_tables_of self.now) value.old))
            sink.new) }
        ensures refused { S.refused sink.new ≡ is_err result }
        ensures begun { OnErr result
            (HasBegun S.takes S.lacks_room sink.old
            (compact_decimal_events (compact_formatted (compact_tables_of self.now) value.old)) sink.new) }
    {
        let under = show_absolute(value, self.patterns.entries());
        let pattern = self.pattern_at(under.entry, &value.absolute);
        let number = self.plain.format_unsigned(&value.absolute);
        let shown = in_pattern(pattern, &number);
        FormattedSign::new(value.sign, self.plain.symbols(), shown).write_to(sink)?;
        Ok(under.exponent)
    }
}
