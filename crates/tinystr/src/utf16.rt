//! What the UTF-16 readers do with their units.

ghost use Rattle.std.specs.Prelude.{◌≡◌, ◌≤◌, ◌++◌, length, drop, map, true, false, MatchResult};
ghost use Rattle.std.specs.List.{list_all};
ghost use Rattle.tinystr.specs.SmallText.{IsSmall, is_text_byte};
ghost use Rattle.tinystr.specs.Lossy.{kept_or_replacement};
ghost use Rattle.tinystr.specs.Faults.{IsFault, IsFaultless};

use crate::ParseError;
use crate::bytes::lossy_byte;

// Whether NULs are at the end of UTF-16 units with no other fault.
pub(crate) fn check_utf16(units: &[u16], max: usize) -> Result<bool, ParseError>
    ensures { MatchResult result (λ nul. (length units.now ≤ max) × IsFaultless nul units.now)
        (λ e. IsFault false max units.now e) }
{
    if units.len() > max {
        return Err(ParseError::TooLong {
            max,
            len: units.len(),
        });
    }
    let mut nul_seen = false;
    for unit in units {
        if *unit > 127 {
            return Err(ParseError::NonAscii);
        }
        if *unit == 0 {
            nul_seen = true;
        } else if nul_seen {
            return Err(ParseError::ContainsNull);
        }
    }
    Ok(nul_seen)
}

// Whether UTF-16 units are a text of at most `max`, where a NUL at the end is a fault too.
pub(crate) fn check_utf16_text(units: &[u16], max: usize) -> Result<(), ParseError>
    ensures { MatchResult result (λ _. IsSmall max units.now) (λ e. IsFault true max units.now e) }
{
    match check_utf16(units, max) {
        Ok(true) => Err(ParseError::ContainsNull),
        Ok(false) => Ok(()),
        Err(fault) => Err(fault),
    }
}

// Writes UTF-16 units that are a text over the first bytes.
pub(crate) fn narrow(bytes: &mut [u8], units: &[u16])
    requires fits { length units.now ≤ length bytes.old }
    requires text { list_all is_text_byte units.now ≡ true }
    ensures { bytes.new ≡ units.now ++ drop (length units.now) bytes.old }
{
    for (i, unit) in units.iter().enumerate() {
        bytes[i] = *unit as u8;
    }
}

// Writes UTF-16 units over the first bytes, each that may not be in a text replaced.
pub(crate) fn put_lossy_utf16(bytes: &mut [u8], units: &[u16], replacement: u8)
    requires { length units.now ≤ length bytes.old }
    ensures { bytes.new ≡ map (kept_or_replacement replacement) units.now ++ drop (length units.now) bytes.old }
{
    for (i, unit) in units.iter().enumerate() {
        bytes[i] = lossy_byte(*unit, replacement);
    }
}
