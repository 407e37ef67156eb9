//! The text of the world's book that is built in.

use locale_numbers::world_text;
use md5::{Digest, Md5};
use rows::{Stop, put_text};

/// Writes the MD5 of that text, in hexadecimal digits.
pub fn put_digest(out: &mut String) -> Result<(), Stop> {
    let alloc = *out.allocator();
    let text = world_text(alloc)?;
    let digest = u128::from_be_bytes(Md5::digest(text.as_bytes()));
    drop(text);
    let digits = format!(in alloc; "{digest:032x}")?;
    let put = put_text(out, digits.as_str());
    drop(digits);
    put
}
