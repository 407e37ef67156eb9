//! Which locale is asked for where one has no table.

ghost use Rattle.std.specs.Prelude.{◌≡◌};

use icu_locale_core::DataLocale;

/// A provider that names the next locale to ask for where one has no table: `en-001` after `en-AU`, where its parents
/// say so.
///
/// What it returns is a function of the locale. One without parents returns `None` and 0.
pub trait ParentProvider {
    ghost use Rattle.std.specs.Prelude.{◌≡◌, ℕ, Option, None};
    ghost use Rattle.icu_locale_core.specs.TagPreferences.{DataLocaleMeaning};

    // the step from each locale
    ghost next: { Self → DataLocaleMeaning → Option DataLocaleMeaning } = { λ provider locale. None };

    // how many steps are taken at most
    ghost limit: { Self → ℕ } = { λ provider. 0 };

    /// The locale that is asked for after this one: `en-001` after `en-AU`. `None` ends the chain. It does not
    /// allocate.
    fn parent(&self, locale: &DataLocale) -> Option<DataLocale>
        ensures { result ≡ next self.now locale.now };

    /// How many steps a chain is followed at most: 0 where there are no parents. It does not allocate.
    fn chain_limit(&self) -> u128
        ensures { result ≡ limit self.now };
}
