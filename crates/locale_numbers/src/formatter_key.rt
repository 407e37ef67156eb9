//! What a formatter is kept under.

ghost use Rattle.std.specs.Prelude.{◌≡◌};
ghost use Rattle.locale_numbers.specs.FormatterKeys.{purpose_of};

use icu_decimal::DecimalFormatterPreferences;
use icu_plurals::PluralRuleType;
use locale_numbers_cache::CacheKey;
use locale_numbers_formats::NumberShape;
use locale_numbers_requests::Task;

// What a formatter is for.
#[derive(Clone, Copy, PartialEq, Eq, Hash)]
pub(crate) enum Purpose {
    /// It writes numbers, and reads back what it writes.
    Writes,
    /// It reads what people type.
    ReadsTyped,
    /// It tells how many there are: the categories of cardinal rules.
    Cardinal,
    /// It tells which one it is: the categories of ordinal rules.
    Ordinal,
}

// What a formatter is kept under: what a tag prefers, a shape, and what it is for. Tags that prefer the same have one key.
#[derive(Clone, Copy, PartialEq, Eq, Hash)]
pub(crate) struct FormatterKey {
    /// What the tag prefers, `rg` too.
    pub preferences: DecimalFormatterPreferences,
    /// What the tables are found by.
    pub shape: NumberShape,
    /// What it is for.
    pub purpose: Purpose,
}

impl CacheKey for FormatterKey {
    ghost use Rattle.locale_numbers.specs.SameKeys.{keys_are};

    ghost same = { keys_are };
}

// What the formatter of a task is for.
pub(crate) fn purpose_of(task: Task) -> Purpose
    ensures { result ≡ purpose_of task }
{
    match task {
        Task::Write | Task::WriteExact | Task::Read => Purpose::Writes,
        Task::ReadLenient => Purpose::ReadsTyped,
        Task::Category(PluralRuleType::Cardinal) | Task::RangeCategory => Purpose::Cardinal,
        Task::Category(PluralRuleType::Ordinal) => Purpose::Ordinal,
    }
}
