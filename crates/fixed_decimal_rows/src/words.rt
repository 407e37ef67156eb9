//! The words of a row that name a case of an enum.

use fixed_decimal::{
    RoundingIncrement, Sign, SignDisplay, SignedRoundingMode, UnsignedRoundingMode,
};
use rows::Stop;

/// The sign that a word names.
pub fn sign_of(word: &str) -> Result<Sign, Stop> {
    match word {
        "None" => Ok(Sign::None),
        "Negative" => Ok(Sign::Negative),
        "Positive" => Ok(Sign::Positive),
        _ => Err(Stop::Unknown),
    }
}

/// The choice of sign that a word names.
pub fn sign_display_of(word: &str) -> Result<SignDisplay, Stop> {
    match word {
        "Auto" => Ok(SignDisplay::Auto),
        "Never" => Ok(SignDisplay::Never),
        "Always" => Ok(SignDisplay::Always),
        "ExceptZero" => Ok(SignDisplay::ExceptZero),
        "Negative" => Ok(SignDisplay::Negative),
        _ => Err(Stop::Unknown),
    }
}

/// The mode by size that a word names.
pub fn unsigned_mode_of(word: &str) -> Result<UnsignedRoundingMode, Stop> {
    match word {
        "Expand" => Ok(UnsignedRoundingMode::Expand),
        "Trunc" => Ok(UnsignedRoundingMode::Trunc),
        "HalfExpand" => Ok(UnsignedRoundingMode::HalfExpand),
        "HalfTrunc" => Ok(UnsignedRoundingMode::HalfTrunc),
        "HalfEven" => Ok(UnsignedRoundingMode::HalfEven),
        _ => Err(Stop::Unknown),
    }
}

/// The mode that a word names, by order or by size.
pub fn mode_of(word: &str) -> Result<SignedRoundingMode, Stop> {
    match word {
        "Ceil" => Ok(SignedRoundingMode::Ceil),
        "Floor" => Ok(SignedRoundingMode::Floor),
        "HalfCeil" => Ok(SignedRoundingMode::HalfCeil),
        "HalfFloor" => Ok(SignedRoundingMode::HalfFloor),
        _ => Ok(SignedRoundingMode::Unsigned(unsigned_mode_of(word)?)),
    }
}

/// The increment that a word names, that of every count where there is no word.
pub fn increment_of(word: &str) -> Result<RoundingIncrement, Stop> {
    match word {
        "" | "MultiplesOf1" => Ok(RoundingIncrement::MultiplesOf1),
        "MultiplesOf2" => Ok(RoundingIncrement::MultiplesOf2),
        "MultiplesOf5" => Ok(RoundingIncrement::MultiplesOf5),
        "MultiplesOf25" => Ok(RoundingIncrement::MultiplesOf25),
        _ => Err(Stop::Unknown),
    }
}
