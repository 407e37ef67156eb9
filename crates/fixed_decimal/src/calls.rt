//! A run: a decimal is read, calls are made on it in turn, and its text is written.

ghost use Rattle.std.specs.Prelude.{◌≡◌, ◌≢◌, ◌↔◌, IsTrue, false, IfOk, IfErr, IsErrOf, OnOk, OnErr, ◌⊎◌};
ghost use Rattle.writeable.specs.AnnotatedText.{bytes};
ghost use Rattle.writeable.specs.Taking.{HasBegun};
ghost use Rattle.fixed_decimal_signed.specs.Number.{Number};
ghost use Rattle.fixed_decimal.specs.Calls.{Makes, Run, RunsFrom, RunsLong, MayGrowBy, MayGrowIn};
ghost use Rattle.fixed_decimal_signed.specs.SignedText.{ReadsSigned, ReadsLongSigned, ReadsNothing, signed_text_of};
ghost use Rattle.fixed_decimal_signed.specs.SignedValue.{SignedValue};

use crate::call::{Call, CallsError};
use fixed_decimal_signed::{Decimal, ParseError};
use std::alloc::{AllocError, Global};
use writeable::{Sink, Writeable};

// Makes one call.
fn make_call(decimal: &mut Decimal, call: Call) -> Result<(), AllocError>
    ensures value { OnOk result (Makes call decimal.old decimal.new) }
    ensures room { OnErr result (MayGrowBy call decimal.old) }
{
    match call {
        Call::MultiplyPow10(delta) => decimal.absolute.multiply_pow10(delta),
        Call::TrimStart => decimal.absolute.trim_start(),
        Call::TrimEnd => decimal.absolute.trim_end(),
        Call::TrimEndIfInteger => decimal.absolute.trim_end_if_integer(),
        Call::PadStart(position) => decimal.absolute.pad_start(position),
        Call::PadEnd(position) => decimal.absolute.pad_end(position),
        Call::SetMaxPosition(position) => decimal.absolute.set_max_position(position),
        Call::Round(position, mode, increment) => {
            return decimal.round_with_mode_and_increment(position, mode, increment);
        }
        Call::SetSign(sign) => decimal.set_sign(sign),
        Call::ApplySignDisplay(sign_display) => decimal.apply_sign_display(sign_display),
    }
    Ok(())
}

// Makes the calls, one after the other.
fn make_calls(decimal: &mut Decimal, calls: &[Call]) -> Result<(), AllocError>
    ensures value { OnOk result (Run calls.now decimal.old decimal.new) }
    ensures room { OnErr result (MayGrowIn calls.now decimal.old) }
{
    for call in calls {
        make_call(decimal, *call)?;
    }
    Ok(())
}

// The decimal that the first text spells.
fn read_start(alloc: Global, start: &[u8]) -> Result<Decimal, CallsError>
    ensures parse { IsErrOf result CallsError.Parse → ReadsNothing start.now }
    ensures write { ¬ (IsErrOf result CallsError.Write) }
    ensures memory { IsErrOf result CallsError.Memory → ReadsLongSigned start.now }
    ensures value { IfOk result (λ v. ReadsSigned start.now v) }
{
    match Decimal::try_from_utf8(alloc, start) {
        Ok(decimal) => Ok(decimal),
        Err(ParseError::Limit) => Err(CallsError::Parse),
        Err(ParseError::Syntax) => Err(CallsError::Parse),
        Err(ParseError::Memory) => Err(CallsError::Memory),
    }
}

/// Reads a decimal, makes the calls on it one after the other, and writes its text into `sink`.
///
/// `12.345` with `Round` at -2 by `HalfEven`, and then `ApplySignDisplay(Always)`, writes `+12.34`. The condition is
/// that the sink has not refused yet. `Parse` exactly where the text spells no decimal within the limits (`5.`,
/// `1e32768`). `Write` exactly where the sink refused; it has taken a beginning of the text. `Memory`: out of memory;
/// only reading more than sixteen digits and a rounding to multiples of 25 allocate. After `Parse` and `Memory` the
/// sink is as it was.
pub fn run_calls<S: Sink>(
    alloc: Global,
    start: &[u8],
    calls: &[Call],
    sink: &mut S,
) -> Result<(), CallsError>
    requires { S.refused sink.old ≡ false }
    ensures parse { IsErrOf result CallsError.Parse ↔ ReadsNothing start.now }
    ensures write { IsTrue (S.refused sink.new) ↔ IsErrOf result CallsError.Write }
    ensures memory { IsErrOf result CallsError.Memory → ReadsLongSigned start.now ⊎ RunsLong start.now calls.now }
    ensures text { OnOk result
        ((v : SignedValue Number)
        × (RunsFrom start.now calls.now v × S.takes sink.old (bytes (signed_text_of v)) sink.new)) }
    ensures begun { IsErrOf result CallsError.Write
        → (v : SignedValue Number)
        × (RunsFrom start.now calls.now v
        × HasBegun S.takes S.lacks_room sink.old (bytes (signed_text_of v)) sink.new) }
    ensures same { IfErr result (λ e. e ≢ CallsError.Write → sink.new ≡ sink.old) }
{
    let mut decimal = match read_start(alloc, start) {
        Ok(decimal) => decimal,
        Err(refused) => return Err(refused),
    };
    match make_calls(&mut decimal, calls) {
        Ok(()) => {}
        Err(_) => return Err(CallsError::Memory),
    }
    match decimal.write_to(sink) {
        Ok(()) => Ok(()),
        Err(_) => Err(CallsError::Write),
    }
}
