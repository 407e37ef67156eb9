//! Laws of language identifiers: each is the contract of a function that computes nothing.

ghost use Rattle.std.specs.Prelude.{IfSome};
ghost use Rattle.icu_locale_core_grammar.specs.Subtags.{is_script, is_region, title, upper};
ghost use Rattle.icu_locale_core_grammar.specs.Pieces.{pieces};
ghost use Rattle.icu_locale_core_grammar.specs.LanguagePart.{MeansLanguage};
ghost use Rattle.icu_locale_core_grammar.specs.WellFormed.{IsNormalPiece, IsNormalLanguage};
ghost use Rattle.icu_locale_core_langid.specs.LanguageText.{language_text};
ghost use Rattle.icu_locale_core_langid.specs.SameLanguage.{SameIsEqual};

use crate::language_identifier::LanguageIdentifier;
use icu_locale_core_subtags::laws::subtags_are_words;
use icu_locale_core_subtags::{Region, Script};

fn scripts_are_normal(script: Option<Script>)
    ensures { IfSome script (IsNormalPiece is_script title) }
{
    if let Some(script) = script {
        subtags_are_words(&script);
    }
}

fn regions_are_normal(region: Option<Region>)
    ensures { IfSome region (IsNormalPiece is_region upper) }
{
    if let Some(region) = region {
        subtags_are_words(&region);
    }
}

/// A language identifier is in normal form, and its text reads back as it.
#[tactic(auto, using(crate::proofs::LanguageTextLemmas::text_reads_back))]
pub fn identifiers_read_back(id: &LanguageIdentifier)
    ensures normal { IsNormalLanguage id.now }
    ensures reads { MeansLanguage (pieces (language_text id.now)) id.now }
{
    subtags_are_words(&id.language);
    scripts_are_normal(id.script);
    regions_are_normal(id.region);
    let _variants = id.variants.as_slice();
}

/// `==` holds exactly of equal identifiers.
pub fn same_is_equal()
    ensures { SameIsEqual }
{}
