//! A text into bytes of the caller's.

ghost use Rattle.std.specs.Prelude.{◌≡◌};
ghost use Rattle.writeable.specs.AnnotatedText.{text_of};
ghost use Rattle.legumeyet_c_values.specs.Putting.{IsPut};

use crate::call_error::CallError;
use writeable::Writeable;
use writeable_bytes::{copy_to_slice, write_to_slice};

/// Writes the text of a value to the front of the bytes, and tells its length. `TooSmall`: the text is longer than the
/// bytes.
pub fn put<T: Writeable>(value: &T, out: &mut [u8], length: &mut usize) -> Result<(), CallError>
    ensures { IsPut (λ text. text ≡ text_of (T.events value.now)) (λ error. ⊥) out.old out.new length.old length.new
        result }
{
    match write_to_slice(value, out) {
        Ok(written) => {
            *length = written;
            Ok(())
        }
        Err(error) => {
            *length = error.needed;
            Err(CallError::TooSmall)
        }
    }
}

/// Copies a text to the front of the bytes, and tells its length. `TooSmall`: it is longer than the bytes.
pub fn put_bytes(text: &[u8], out: &mut [u8], length: &mut usize) -> Result<(), CallError>
    ensures { IsPut (λ said. said ≡ text.now) (λ error. ⊥) out.old out.new length.old length.new result }
{
    match copy_to_slice(text, out) {
        Ok(written) => {
            *length = written;
            Ok(())
        }
        Err(error) => {
            *length = error.needed;
            Err(CallError::TooSmall)
        }
    }
}
