//! Which tables, affixes and counts of digits texts with a unit are put with.

ghost use Rattle.std.specs.Prelude.{◌≡◌, ◌↔◌, ◌≤◌, length, IfSome, IsSome, IsTrue};
ghost use Rattle.icu_decimal_direct.specs.HeldUnits.{short_text, texts_after, texts_before, unit_texts};
ghost use Rattle.icu_decimal_direct.specs.TextDigits.{number_spelled};
ghost use Rattle.icu_decimal_direct.specs.TextTables.{text_tables};
ghost use Rattle.icu_decimal_direct.specs.UnitTexts.{CanPutUnits, IsShownBy};

use crate::short_text::ShortText;
use crate::text_digits::TextDigits;
use crate::text_tables::TextTables;
use crate::unit_text_tables::{HeldAffixes, UnitAffixTexts, UnitTextTables};

impl HeldAffixes {
    // These; `None` where one of them has more than 32 bytes.
    fn of(texts: UnitAffixTexts<'_>) -> Option<HeldAffixes>
        ensures before { IfSome result (λ held. short_text held.before ≡ texts.entry.before.now) }
        ensures after { IfSome result (λ held. short_text held.after ≡ texts.entry.after.now) }
        ensures some { length texts.entry.before.now ≤ 32 → length texts.entry.after.now ≤ 32 → IsSome result }
    {
        let before = ShortText::of(texts.before)?;
        let after = ShortText::of(texts.after)?;
        Some(HeldAffixes { before, after })
    }
}

impl<'b> UnitTextTables<'b> {
    /// These tables, these affixes of a number without a sign, with a minus and with a plus, and so many fraction digits:
    /// of percents none at least and 32 at most, of euros two and two.
    ///
    /// `None` only where an affix has more than 32 bytes, there are more than 32 digits, or more at least than at most. It
    /// does not allocate.
    pub fn of(
        tables: TextTables<'b>,
        none: UnitAffixTexts<'_>,
        minus: UnitAffixTexts<'_>,
        plus: UnitAffixTexts<'_>,
        least: u8,
        most: u8,
    ) -> Option<UnitTextTables<'b>>
        ensures value { IfSome result (λ units. unit_texts units ≡ record {
          tables = text_tables tables.entry;
          before = texts_before none.entry minus.entry plus.entry;
          after = texts_after none.entry minus.entry plus.entry;
          least = least;
          most = most;
        }) }
        ensures some { CanPutUnits (texts_before none.entry minus.entry plus.entry)
            (texts_after none.entry minus.entry plus.entry) least most → IsSome result }
    {
        if least > most || most > 32 {
            return None;
        }
        let Some(none) = HeldAffixes::of(none) else {
            return None;
        };
        let Some(minus) = HeldAffixes::of(minus) else {
            return None;
        };
        let Some(plus) = HeldAffixes::of(plus) else {
            return None;
        };
        Some(UnitTextTables {
            tables,
            none,
            minus,
            plus,
            least,
            most,
        })
    }

    /// Whether a number's digits can be put: of `1234.5` in euros they can, of `1234.567` they are to be rounded first. It
    /// does not allocate.
    pub fn can_put(&self, digits: &TextDigits<'_>) -> bool
        ensures { IsTrue result ↔ IsShownBy (unit_texts self.now) (number_spelled digits.now) }
    {
        digits.fraction.len() <= self.most as usize
    }
}
