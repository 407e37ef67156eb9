//! Byte forms of texts.

ghost use Rattle.std.specs.Prelude.{◌≤◌};

use crate::argument::Argument;
use crate::writing::{put_bytes, put_read, put_verdict};
use rows::Stop;
use tinystr::TinyAsciiStr;

pub fn answer<const N: usize>(
    call: &str,
    arguments: &[Argument<'_>],
    out: &mut String,
) -> Result<(), Stop>
    requires { N ≤ 16 }
{
    let [argument] = arguments else {
        return Err(Stop::Unknown);
    };
    let bytes = argument.bytes.as_slice();
    match call {
        "to_bytes" => put_bytes(out, &argument.small::<N>()?.to_bytes()),
        "from_bytes" => put_read(out, TinyAsciiStr::<N>::from_bytes(bytes)),
        "validate_bytes" if N > 0 => put_verdict(out, TinyAsciiStr::<N>::validate_bytes(bytes)),
        _ => Err(Stop::Unknown),
    }
}
