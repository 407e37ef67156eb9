//! The plural rules that a book has for a tag.

ghost use Rattle.std.specs.Prelude.{◌≡◌, ◌⊎◌, Ok, Err, false, IfOk, IfErr};
ghost use Rattle.std.specs.Result.{IsErrOf};
ghost use Rattle.icu_locale_core.specs.Pieces.{pieces};
ghost use Rattle.icu_locale_core.specs.SingleVariant.{SingleMeaning, MeansSingle};
ghost use Rattle.icu_locale_core.specs.TagAllocation.{tag_may_grow};
ghost use Rattle.locale_numbers_book.specs.FoundRules.{plural_rules_of, rules_held};
ghost use Rattle.locale_numbers_book.specs.declared.formatter_error.FormatterError.{FormatterError};

use crate::book::Book;
use crate::formatter_error::FormatterError;
use crate::plural_finding::find_plural_rules;
use crate::tag_formatters::preferences_of_tag;
use icu_plurals::{PluralRuleType, PluralRulesWithRanges};
use std::alloc::Global;

impl Book {
    /// The plural rules of a type for a tag, and the categories of ranges: of `SAMPLE_BOOK` the cardinal rules of `en`, by
    /// which 1 is of `one` and 1.0 of `other`.
    ///
    /// They are those that [`find_plural_rules`](crate::find_plural_rules) finds for what the tag prefers, and are borrowed
    /// from the book.
    ///
    /// - Tag: the text is no locale tag, as `e`.
    /// - Table: the book has no such rules for it, as `SAMPLE_BOOK` no ordinal ones.
    /// - Memory: out of memory. A tag of at most one variant and one keyword does not allocate, nor does one of language,
    ///   script and region only.
    pub fn plural_rules(
        &self,
        alloc: Global,
        tag: &str,
        rule_type: PluralRuleType,
    ) -> Result<PluralRulesWithRanges<'_>, FormatterError>
        ensures value { IfOk result (λ rules. plural_rules_of self.now tag.now rule_type ≡ Ok (rules_held rules)) }
        ensures fault { IfErr result
            (λ fault. (fault ≡ FormatterError.Memory) ⊎ (plural_rules_of self.now tag.now rule_type ≡ Err fault)) }
        ensures room { tag_may_grow (pieces tag.now) ≡ false → ¬ (IsErrOf result FormatterError.Memory) }
        ensures single { (m : SingleMeaning) → MeansSingle (pieces tag.now) m
            → ¬ (IsErrOf result FormatterError.Memory) }
    {
        let preferences = preferences_of_tag(alloc, tag)?;
        match find_plural_rules(self, preferences, rule_type) {
            Some(rules) => Ok(rules),
            None => Err(FormatterError::Table),
        }
    }
}
