//! The text of a value in bytes of the caller's.

ghost use Rattle.std.specs.Prelude.{◌≡◌, ◌↔◌, ◌≤◌, ◌<◌, ◌^◌, ◌++◌, length, take, drop, min, IsOk, IfOk, OnOk, IfErr, OnErr, MatchOption};
ghost use Rattle.writeable.specs.AnnotatedText.{text_of};
ghost use Rattle.writeable_bytes.specs.Laid.{laid_from};

use crate::bytes_sink::BytesSink;
use crate::error::TooSmall;
use crate::laying::lay;
use writeable::Writeable;

/// Writes the text of a value to the front of bytes, and returns its length: `a,b` to `....` leaves `a,b.` and returns
/// 3.
///
/// Bytes after the text stay as they were. `TooSmall`: the text is longer than the bytes, which are then its first
/// ones; it says how many the text needs, as 3 of `a,b` to two bytes. It allocates only what the value does.
#[tactic(auto, using(crate::proofs::LaidLemmas::laid_whole, crate::proofs::LaidLemmas::laid_cut))]
pub fn write_to_slice<T: Writeable>(value: &T, out: &mut [u8]) -> Result<usize, TooSmall>
    ensures succeeds { IsOk result ↔ (length (text_of (T.events value.now)) ≤ length out.old) }
    ensures needed { IfErr result (λ error. error.needed ≡ min (length (text_of (T.events value.now))) usize.MAX) }
    ensures value { IfOk result (λ written. written ≡ length (text_of (T.events value.now))) }
    ensures text { OnOk result
        (out.new ≡ text_of (T.events value.now) ++ drop (length (text_of (T.events value.now))) out.old) }
    ensures err { OnErr result
        (length (text_of (T.events value.now)) < 2 ^ 64
        → out.new ≡ take (length out.old) (text_of (T.events value.now))) }
{
    let room = out.len();
    match text_length(value, out) {
        Some(length) => {
            if length <= room {
                Ok(length)
            } else {
                Err(TooSmall { needed: length })
            }
        }
        None => Err(TooSmall { needed: usize::MAX }),
    }
}

/// Copies a text to the front of bytes, and returns its length: `a,b` to `....` leaves `a,b.` and returns 3.
///
/// Bytes after the text stay as they were. `TooSmall`: the text is longer than the bytes, which are then its first
/// ones; it says how many the text needs, as 3 of `a,b` to two bytes. It does not allocate.
#[tactic(auto, using(crate::proofs::LaidLemmas::laid_whole, crate::proofs::LaidLemmas::laid_cut))]
pub fn copy_to_slice(text: &[u8], out: &mut [u8]) -> Result<usize, TooSmall>
    ensures succeeds { IsOk result ↔ (length text.now ≤ length out.old) }
    ensures needed { IfErr result (λ error. error.needed ≡ length text.now) }
    ensures value { IfOk result (λ written. written ≡ length text.now) }
    ensures text { OnOk result (out.new ≡ text.now ++ drop (length text.now) out.old) }
    ensures err { OnErr result (out.new ≡ take (length out.old) text.now) }
{
    let length = text.len();
    let room = out.len();
    lay(out, 0, text);
    if length <= room {
        Ok(length)
    } else {
        Err(TooSmall { needed: length })
    }
}

// Lays the text of a value over bytes, and returns its length, where a `usize` holds that.
fn text_length<T: Writeable>(value: &T, out: &mut [u8]) -> Option<usize>
    ensures { MatchOption result (2 ^ 64 ≤ length (text_of (T.events value.now)))
        (λ n. (n ≡ length (text_of (T.events value.now)))
        × (out.new ≡ laid_from 0 (text_of (T.events value.now)) out.old)) }
{
    let mut sink = BytesSink::new(out);
    match value.write_text(&mut sink) {
        Ok(()) => Some(sink.length),
        Err(_) => None,
    }
}
