//! Texts at another capacity, and joined.

ghost use Rattle.std.specs.Prelude.{◌≤◌};

use crate::argument::Argument;
use crate::writing::put_bytes;
use rows::Stop;
use tinystr::TinyAsciiStr;

/// The answer of a call, of texts of the capacity 1 or 4.
pub fn answer(
    call: &str,
    capacity: &str,
    arguments: &[Argument<'_>],
    out: &mut String,
) -> Result<(), Stop> {
    match capacity {
        "1" => answer_at::<1>(call, arguments, out),
        "4" => answer_at::<4>(call, arguments, out),
        _ => Err(Stop::Unknown),
    }
}

fn answer_at<const N: usize>(
    call: &str,
    arguments: &[Argument<'_>],
    out: &mut String,
) -> Result<(), Stop>
    requires { N ≤ 16 }
{
    match (call, arguments) {
        ("resize", [text, capacity]) => put_resized::<N>(text, capacity.word, out),
        ("concat", [front, rest, capacity]) => put_joined::<N>(front, rest, capacity.word, out),
        _ => Err(Stop::Unknown),
    }
}

// Writes the text at another capacity, which is 0 to 16.
fn put_resized<const N: usize>(
    text: &Argument<'_>,
    capacity: &str,
    out: &mut String,
) -> Result<(), Stop>
    requires { N ≤ 16 }
{
    let text = text.small::<N>()?;
    match capacity {
        "0" => resized::<N, 0>(text, out),
        "1" => resized::<N, 1>(text, out),
        "2" => resized::<N, 2>(text, out),
        "3" => resized::<N, 3>(text, out),
        "4" => resized::<N, 4>(text, out),
        "5" => resized::<N, 5>(text, out),
        "6" => resized::<N, 6>(text, out),
        "7" => resized::<N, 7>(text, out),
        "8" => resized::<N, 8>(text, out),
        "9" => resized::<N, 9>(text, out),
        "10" => resized::<N, 10>(text, out),
        "11" => resized::<N, 11>(text, out),
        "12" => resized::<N, 12>(text, out),
        "13" => resized::<N, 13>(text, out),
        "14" => resized::<N, 14>(text, out),
        "15" => resized::<N, 15>(text, out),
        "16" => resized::<N, 16>(text, out),
        _ => Err(Stop::Unknown),
    }
}

fn resized<const N: usize, const M: usize>(
    text: TinyAsciiStr<N>,
    out: &mut String,
) -> Result<(), Stop>
    requires text { N ≤ 16 }
    requires wanted { M ≤ 16 }
{
    put_bytes(out, text.resize::<M>().as_utf8())
}

// Writes both texts joined at a capacity, which is 1, 5 or 8.
fn put_joined<const N: usize>(
    front: &Argument<'_>,
    rest: &Argument<'_>,
    capacity: &str,
    out: &mut String,
) -> Result<(), Stop>
    requires { N ≤ 16 }
{
    let (front, rest) = (front.small::<N>()?, rest.small::<N>()?);
    match capacity {
        "1" => put_bytes(out, front.concat::<N, 1>(rest).as_utf8()),
        "5" => put_bytes(out, front.concat::<N, 5>(rest).as_utf8()),
        "8" => put_bytes(out, front.concat::<N, 8>(rest).as_utf8()),
        _ => Err(Stop::Unknown),
    }
}
