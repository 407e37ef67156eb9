//! A number without its sign, with its unit.

ghost use Rattle.std.specs.Prelude.{◌≡◌, false, is_err, option_map, OnOk, OnErr};
ghost use Rattle.writeable.specs.PartName.{name_of as part_name};
ghost use Rattle.writeable.specs.Taking.{HasBegun};
ghost use Rattle.icu_dimension_affixes.specs.HeldUnits.{affix_of, name_of};
ghost use Rattle.icu_dimension_affixes.specs.PartlessUnits.{affix_bytes, partless_events};
ghost use Rattle.icu_dimension_affixes.specs.UnitText.{affix_events, sign_part, side_events};

use crate::affixes::{Affix, UnitAffixes};
use crate::unit::{Unit, write_unit};
use fixed_decimal::Sign;
use icu_decimal_plain::FormattedUnsignedDecimal;
use icu_decimal_symbols::parts;
use std::fmt;
use std::marker::Model;
use writeable::{Error, LengthHint, Part, Sink, Writeable, display};

/// A number without its sign, between affixes with its unit: `€1,234.5` of `-€1,234.5`, and `CHF-5` of `CHF-5`.
///
/// The unit is the part `CURRENCY` or `PERCENT_SIGN`, in an affix of a sign's own inside `MINUS_SIGN` or `PLUS_SIGN`.
#[derive(Debug, Drop)]
pub struct NumberInUnit<'l> {
    number: FormattedUnsignedDecimal<'l>,
    affixes: &'l UnitAffixes,
    unit: Unit<'l>,
    own: Sign,
}

impl<'l> Model for NumberInUnit<'l> {
    ghost use Rattle.icu_dimension_affixes.specs.UnitText.{UnitNumber};

    ghost Value = { UnitNumber };

    ghost use Rattle.icu_dimension_affixes.specs.HeldUnits.{name_of};

    ghost view = { λ s. record { number = s.number; affixes = s.affixes.now; unit = name_of s.unit; own = s.own } };
}

// The part that the affixes of a sign's own are.
fn part_of(own: Sign) -> Option<Part>
    ensures { option_map part_name result ≡ sign_part own }
{
    match own {
        Sign::None => None,
        Sign::Negative => Some(parts::MINUS_SIGN),
        Sign::Positive => Some(parts::PLUS_SIGN),
    }
}

// Writes an affix, with the unit where it has a place for it.
fn write_affix<S: Sink>(affix: &Affix<'_>, unit: &Unit<'_>, sink: &mut S) -> Result<(), Error>
    requires { S.refused sink.old ≡ false }
    ensures ok { OnOk result (S.takes sink.old (affix_events (affix_of affix.now) (name_of unit.now)) sink.new) }
    ensures refused { S.refused sink.new ≡ is_err result }
    ensures begun { OnErr result
        (HasBegun S.takes S.lacks_room sink.old (affix_events (affix_of affix.now) (name_of unit.now)) sink.new) }
{
    match *affix {
        Affix::Literal(text) => sink.write_str(text),
        Affix::Around(before, after) => {
            sink.write_str(before)?;
            write_unit(unit, sink)?;
            sink.write_str(after)
        }
    }
}

// Writes what is on one side of the number, as the part of the sign whose own it is.
fn write_side<S: Sink>(
    own: Sign,
    affix: &Affix<'_>,
    unit: &Unit<'_>,
    sink: &mut S,
) -> Result<(), Error>
    requires { S.refused sink.old ≡ false }
    ensures ok { OnOk result (S.takes sink.old (side_events own (affix_of affix.now) (name_of unit.now)) sink.new) }
    ensures refused { S.refused sink.new ≡ is_err result }
    ensures begun { OnErr result
        (HasBegun S.takes S.lacks_room sink.old (side_events own (affix_of affix.now) (name_of unit.now)) sink.new) }
{
    let Some(part) = part_of(own) else {
        return write_affix(affix, unit, sink);
    };
    sink.open_part(part)?;
    write_affix(affix, unit, sink)?;
    sink.close_part()
}

// Writes the text of an affix, without parts.
fn write_affix_text<S: Sink>(affix: &Affix<'_>, unit: &Unit<'_>, sink: &mut S) -> Result<(), Error>
    requires { S.refused sink.old ≡ false }
    ensures ok { OnOk result (S.takes sink.old (affix_bytes (affix_of affix.now) unit.now.text.now) sink.new) }
    ensures refused { S.refused sink.new ≡ is_err result }
    ensures begun { OnErr result
        (HasBegun S.takes S.lacks_room sink.old (affix_bytes (affix_of affix.now) unit.now.text.now) sink.new) }
{
    match *affix {
        Affix::Literal(text) => sink.write_str(text),
        Affix::Around(before, after) => {
            sink.write_str(before)?;
            sink.write_str(unit.text)?;
            sink.write_str(after)
        }
    }
}

// Writes the text of a number between its affixes, without parts.
fn write_unit_text<S: Sink>(
    number: &FormattedUnsignedDecimal<'_>,
    affixes: &UnitAffixes,
    unit: &Unit<'_>,
    sink: &mut S,
) -> Result<(), Error>
    requires { S.refused sink.old ≡ false }
    ensures ok { OnOk result
        (S.takes sink.old (partless_events number.now affixes.now unit.now.text.now) sink.new) }
    ensures refused { S.refused sink.new ≡ is_err result }
    ensures begun { OnErr result
        (HasBegun S.takes S.lacks_room sink.old (partless_events number.now affixes.now unit.now.text.now) sink.new) }
{
    write_affix_text(&affixes.before(), unit, sink)?;
    number.write_text(sink)?;
    write_affix_text(&affixes.after(), unit, sink)
}

impl<'l> NumberInUnit<'l> {
    // The number between these affixes, and the sign whose own they are.
    pub(crate) fn new(
        number: FormattedUnsignedDecimal<'l>,
        affixes: &'l UnitAffixes,
        unit: Unit<'l>,
        own: Sign,
    ) -> Self
        ensures { result ≡ record { number = number.entry; affixes = affixes.now; unit = name_of unit.entry; own = own } }
    {
        NumberInUnit {
            number,
            affixes,
            unit,
            own,
        }
    }
}

/// The number between its affixes: `€1,234.5`, of which `€` is the part `CURRENCY`.
///
/// `Error`, only where the sink refused: it has taken a beginning. Writing allocates only what the sink does. The hint
/// is the least length that the number's hint says, of `€1,234.5` at least 5; it does not allocate.
impl<'l> Writeable for NumberInUnit<'l> {
    ghost use Rattle.std.specs.Prelude.{length};
    ghost use Rattle.writeable.specs.AnnotatedText.{text_of};
    ghost use Rattle.writeable.specs.LengthHint.{IsWithinHint};
    ghost use Rattle.icu_dimension_affixes.specs.UnitText.{in_unit_events};

    ghost events = { in_unit_events };

    fn write_to<S: Sink>(&self, sink: &mut S) -> Result<(), Error> {
        write_side(self.own, &self.affixes.before(), &self.unit, sink)?;
        self.number.write_to(sink)?;
        write_side(self.own, &self.affixes.after(), &self.unit, sink)
    }

    #[tactic(auto, using(crate::proofs::UnitTextLemmas::without_parts_is))]
    fn write_text<S: Sink>(&self, sink: &mut S) -> Result<(), Error> {
        write_unit_text(&self.number, self.affixes, &self.unit, sink)
    }

    #[tactic(auto, using(crate::proofs::UnitTextLemmas::number_is_shorter))]
    fn writeable_length_hint(&self) -> LengthHint
        ensures { IsWithinHint result (length (text_of (in_unit_events self.now))) }
    {
        LengthHint::at_least(self.number.writeable_length_hint().low)
    }
}

/// The same text, without its parts: `€1,234.5`. It allocates only what the writer does.
impl<'l> fmt::Display for NumberInUnit<'l> {
    ghost use Rattle.std.specs.Prelude.{Some};
    ghost use Rattle.writeable.specs.AnnotatedText.{text_of};
    ghost use Rattle.icu_dimension_affixes.specs.UnitText.{in_unit_events};

    ghost output = { λ s. Some (text_of (in_unit_events s)) };

    fn fmt<W: fmt::Write>(&self, f: &mut fmt::Formatter<W>) -> fmt::Result {
        display(self, f)
    }
}
