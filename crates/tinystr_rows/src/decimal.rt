//! Decimal texts.

ghost use Rattle.std.specs.Prelude.{◌≤◌};

use crate::argument::Argument;
use crate::writing::put_bytes;
use rows::Stop;
use tinystr::TinyAsciiStr;

pub fn answer<const N: usize>(
    call: &str,
    arguments: &[Argument<'_>],
    out: &mut String,
) -> Result<(), Stop>
    requires { N ≤ 16 }
{
    let ("new_unsigned_decimal", [number]) = (call, arguments) else {
        return Err(Stop::Unknown);
    };
    let Ok(number) = number.word.parse::<u32>() else {
        return Err(Stop::Unknown);
    };
    match TinyAsciiStr::<N>::new_unsigned_decimal(number) {
        Ok(text) => put_bytes(out, text.as_utf8()),
        Err(front) => {
            out.push_str("cut ")?;
            put_bytes(out, front.as_utf8())
        }
    }
}
