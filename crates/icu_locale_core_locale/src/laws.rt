//! Laws of locales: each is the contract of a function that computes nothing.

ghost use Rattle.icu_locale_core_locale.specs.LocaleOrders.{OrdersAreTotal};
ghost use Rattle.icu_locale_core_locale.specs.SameLocale.{SameIsEqual};
ghost use Rattle.icu_locale_core_locale.specs.ReadsBack.{LocalesReadBack};

/// A locale that was read and printed reads back equal.
///
/// What `Locale::try_from_str` returns, printed by `write_to` and read by `try_from_str` again, is accepted unless out
/// of memory, and is equal.
pub fn locales_read_back()
    ensures { LocalesReadBack }
{}

/// `==` holds exactly of equal locales.
pub fn same_is_equal()
    ensures { SameIsEqual }
{}

/// `total_cmp` of locales, and of extensions, is a total order, and is `Equal` exactly where `==` holds.
pub fn orders_are_total()
    ensures { OrdersAreTotal }
{}
