//! The categories of plural rules.

ghost use Rattle.std.specs.Prelude.{◌≡◌};

/// A plural category of UTS 35: `One` of `1` in English. Which numbers it has depends on the language.
#[derive(Clone, Copy, Debug, PartialEq, Eq)]
pub enum PluralCategory {
    /// `zero`: 0 in Arabic.
    Zero,
    /// `one`: 1 in English, but not 1.0.
    One,
    /// `two`: 2 in Arabic.
    Two,
    /// `few`: 2 to 4 in Czech.
    Few,
    /// `many`: 5 in Polish.
    Many,
    /// `other`: what no other category has, as 2 in English.
    Other,
}

impl PluralCategory {
    ghost use Rattle.icu_decimal_plurals.specs.Categories.{word, category_named};

    /// The word of the category in CLDR: `few` of `Few`. It does not allocate.
    pub fn as_str(self) -> &'static str
        ensures { result.now ≡ word self }
    {
        match self {
            PluralCategory::Zero => "zero",
            PluralCategory::One => "one",
            PluralCategory::Two => "two",
            PluralCategory::Few => "few",
            PluralCategory::Many => "many",
            PluralCategory::Other => "other",
        }
    }

    /// The category of a word of CLDR: `Few` of `few`, none of `Few` or of an empty text. It does not allocate.
    ///
    /// After ICU4X's call of this name.
    pub fn get_for_cldr_bytes(bytes: &[u8]) -> Option<PluralCategory>
        ensures { result ≡ category_named bytes.now }
    {
        if bytes == b"zero".as_slice() {
            Some(PluralCategory::Zero)
        } else if bytes == b"one".as_slice() {
            Some(PluralCategory::One)
        } else if bytes == b"two".as_slice() {
            Some(PluralCategory::Two)
        } else if bytes == b"few".as_slice() {
            Some(PluralCategory::Few)
        } else if bytes == b"many".as_slice() {
            Some(PluralCategory::Many)
        } else if bytes == b"other".as_slice() {
            Some(PluralCategory::Other)
        } else {
            None
        }
    }
}
