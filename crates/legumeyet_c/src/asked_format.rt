//! The format that a call that opens a formatter asks for.

ghost use Rattle.std.specs.Prelude.{◌≡◌};
ghost use Rattle.legumeyet_c.specs.AskedFormats.{format_by_skeleton, format_by_words, usual_beside};

use icu_plurals::PluralRuleType;
use legumeyet_c_values::{CallError, shape_by, usual_options};
use locale_numbers_formats::{Notation, NumberFormat, NumberOptions, Skeleton};

// A format, and the rules by whose categories words are written in place of numbers, where there are any.
#[derive(Clone, Copy, Drop)]
pub(crate) struct AskedFormat {
    pub(crate) format: NumberFormat,
    pub(crate) plurals: Option<PluralRuleType>,
}

// The options that no word changes; those of scientific numbers are in their notation.
fn usual_beside(notation: Notation) -> NumberOptions
    ensures { result ≡ usual_beside notation }
{
    match notation {
        Notation::Standard | Notation::Compact(_) | Notation::CompactDigits(_, _) =>
            usual_options(),
        Notation::Scientific(_, _) => NumberOptions::unchanged(),
    }
}

// The format that words ask for, with the options that no word changes.
pub(crate) fn format_by_words(words: &[i32], unit: &[u8]) -> Result<AskedFormat, CallError>
    ensures { result ≡ format_by_words words.now unit.now }
{
    match shape_by(words, unit) {
        Ok(asked) => Ok(AskedFormat {
            format: NumberFormat {
                shape: asked.shape,
                options: usual_beside(asked.shape.notation),
            },
            plurals: asked.plurals,
        }),
        Err(error) => Err(error),
    }
}

// The format that a skeleton asks for, of numbers.
pub(crate) fn format_by_skeleton(skeleton: &[u8]) -> Result<AskedFormat, CallError>
    ensures { result ≡ format_by_skeleton skeleton.now }
{
    match Skeleton::try_from_utf8(skeleton) {
        Ok(skeleton) => Ok(AskedFormat {
            format: skeleton.format(),
            plurals: None,
        }),
        Err(error) => Err(CallError::Skeleton(error)),
    }
}
