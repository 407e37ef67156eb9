//! Texts that are read, or refused.

ghost use Rattle.std.specs.Prelude.{◌≤◌};

use crate::argument::Argument;
use crate::writing::put_read;
use rows::Stop;
use tinystr::TinyAsciiStr;

pub fn answer<const N: usize>(
    call: &str,
    arguments: &[Argument<'_>],
    out: &mut String,
) -> Result<(), Stop>
    requires { N ≤ 16 }
{
    let [units] = arguments else {
        return Err(Stop::Unknown);
    };
    let read = match call {
        "try_from_str" => TinyAsciiStr::<N>::try_from_str(units.text()?),
        "parse" => units.text()?.parse::<TinyAsciiStr<N>>(),
        "try_from_utf8" => TinyAsciiStr::<N>::try_from_utf8(units.bytes.as_slice()),
        "try_from_utf16" => TinyAsciiStr::<N>::try_from_utf16(units.units.as_slice()),
        "try_from_raw" => TinyAsciiStr::<N>::try_from_raw(units.array::<N>()?),
        _ => return Err(Stop::Unknown),
    };
    put_read(out, read)
}
