//! The test of units that names their fault, for bytes and for UTF-16.

ghost use Rattle.std.specs.Prelude.{◌≤◌, ◌↔◌, IsTrue, true, false, length, MatchResult};
ghost use Rattle.tinystr.specs.SmallText.{IsSmall, IsForm};
ghost use Rattle.tinystr.specs.Faults.{IsFault, IsFaultless};

use crate::ParseError;

// Whether NULs are at the end of units with no other fault.
pub(crate) fn check_bytes(units: &[u8], max: usize) -> Result<bool, ParseError>
    ensures { MatchResult result (λ nul. (length units.now ≤ max) × IsFaultless nul units.now)
        (λ e. IsFault false max units.now e) }
{
    if units.len() > max {
        return Err(ParseError::TooLong {
            max,
            len: units.len(),
        });
    }
    let mut nul_seen = false;
    for unit in units {
        if *unit > 127 {
            return Err(ParseError::NonAscii);
        }
        if *unit == 0 {
            nul_seen = true;
        } else if nul_seen {
            return Err(ParseError::ContainsNull);
        }
    }
    Ok(nul_seen)
}

// Whether units are a text of at most `max`, where a NUL at the end is a fault too.
pub(crate) fn check_text(units: &[u8], max: usize) -> Result<(), ParseError>
    ensures { MatchResult result (λ _. IsSmall max units.now) (λ e. IsFault true max units.now e) }
{
    match check_bytes(units, max) {
        Ok(true) => Err(ParseError::ContainsNull),
        Ok(false) => Ok(()),
        Err(fault) => Err(fault),
    }
}

// Whether the bytes are the form of a text at their own count.
pub(crate) fn is_form(bytes: &[u8]) -> bool
    ensures { IsTrue result ↔ IsForm (length bytes.now) bytes.now }
{
    match check_bytes(bytes, bytes.len()) {
        Ok(_) => true,
        Err(_) => false,
    }
}
