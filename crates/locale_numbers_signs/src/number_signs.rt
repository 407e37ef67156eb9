//! The signs of a locale.

use std::marker::Model;

/// The texts around both ends of a range: nothing, `–` and nothing in German.
#[derive(Debug, Drop)]
pub struct RangeSigns {
    /// What is before the first end.
    pub before: String,
    /// What is between both ends.
    pub between: String,
    /// What is after the second end.
    pub after: String,
}

impl Model for RangeSigns {
    ghost use Rattle.std.specs.Prelude.{string_bytes};
    ghost use Rattle.locale_numbers_signs.specs.NumberSigns.{RangeTexts};

    ghost Value = { RangeTexts };

    ghost view = { λ r. record {
      before = string_bytes r.before;
      between = string_bytes r.between;
      after = string_bytes r.after;
    } };
}

/// The texts around a number that is the one end of a range: nothing and `+` of 3 and more, `3+`.
#[derive(Debug, Drop)]
pub struct BoundSigns {
    /// What is before the number.
    pub before: String,
    /// What is after the number.
    pub after: String,
}

impl Model for BoundSigns {
    ghost use Rattle.std.specs.Prelude.{string_bytes};
    ghost use Rattle.locale_numbers_signs.specs.NumberSigns.{BoundTexts};

    ghost Value = { BoundTexts };

    ghost view = { λ b. record { before = string_bytes b.before; after = string_bytes b.after } };
}

/// The signs of a locale, beside its symbols: in German `E`, `·`, `‰`, `≈`, and those of ranges.
#[derive(Debug, Drop)]
pub struct NumberSigns {
    /// What is before an exponent: `E` of `1,2E6`.
    pub exponent: String,
    /// The sign of multiplication, where the exponent is a superscript: `·` of `1,2·10⁶`.
    pub multiplication: String,
    /// The permille sign: `‰`.
    pub permille: String,
    /// The sign of about: `≈` of `≈3`.
    pub about: String,
    /// The texts around both ends of a range: `–` between them, as in `3–5`.
    pub range: RangeSigns,
    /// The texts around a number that is the least: `+` after it, as in `3+`.
    pub at_least: BoundSigns,
    /// The texts around a number that is the greatest: `≤` before it, as in `≤3`.
    pub at_most: BoundSigns,
}

impl Model for NumberSigns {
    ghost use Rattle.std.specs.Prelude.{string_bytes};
    ghost use Rattle.locale_numbers_signs.specs.NumberSigns.{SignTexts};

    ghost Value = { SignTexts };

    ghost view = { λ s. record {
      exponent = string_bytes s.exponent;
      multiplication = string_bytes s.multiplication;
      permille = string_bytes s.permille;
      about = string_bytes s.about;
      range = s.range;
      at_least = s.at_least;
      at_most = s.at_most;
    } };
}
