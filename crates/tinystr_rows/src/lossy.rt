//! Texts of any units, with a replacement.

ghost use Rattle.std.specs.Prelude.{◌≤◌};

use crate::argument::Argument;
use crate::writing::put_bytes;
use rows::Stop;
use tinystr::TinyAsciiStr;

pub fn answer<const N: usize>(
    call: &str,
    arguments: &[Argument<'_>],
    out: &mut String,
) -> Result<(), Stop>
    requires { N ≤ 16 }
{
    let [units, replacement] = arguments else {
        return Err(Stop::Unknown);
    };
    let [replacement] = replacement.array::<1>()?;
    if replacement == 0 || replacement > 127 {
        return Err(Stop::Unknown);
    }
    let text = match call {
        "from_utf8_lossy" => {
            TinyAsciiStr::<N>::from_utf8_lossy(units.bytes.as_slice(), replacement)
        }
        "from_utf16_lossy" => {
            TinyAsciiStr::<N>::from_utf16_lossy(units.units.as_slice(), replacement)
        }
        _ => return Err(Stop::Unknown),
    };
    put_bytes(out, text.as_utf8())
}
