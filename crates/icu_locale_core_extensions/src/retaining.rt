//! Keeping the extensions at whose types a closure returns true.

ghost use Rattle.std.specs.Prelude.{◌≡◌};
ghost use Rattle.icu_locale_core_keywords_fields.specs.Retained.{IsRetained};
ghost use Rattle.icu_locale_core_extensions.specs.RetainedByType.{other_type, IsRetainedByType};

use crate::extension_type::ExtensionType;
use crate::extensions::Extensions;
use crate::other::Other;

// Keeps those at whose types the closure returns true.
fn retain_others<F: FnMut(ExtensionType) -> bool + Drop>(others: &mut Vec<Other>, mut keep: F)
    requires { F.IsAlwaysCallable keep }
    ensures { IsRetained (λ p singleton b q. F.step p (other_type singleton) b q) keep others.old.items
        others.new.items }
{
    let mut place = 0;
    while place < others.len() {
        if keep(others[place].get_ext()) {
            place += 1;
        } else {
            others.remove(place);
        }
    }
}

impl Extensions {
    /// Keeps the extensions at whose types `predicate` returns true, and removes the subtags of `u`, `t` and `x`
    /// elsewhere.
    ///
    /// It is called once with each type, also where there is none of it: with `u`, `t`, `x`, and then with each other
    /// in its order. The condition is that it may be called at any time. Of `a-foo-u-nu-thai`, where it keeps only `u`,
    /// `u-nu-thai` is left. It does not allocate.
    pub fn retain_by_type<F: FnMut(ExtensionType) -> bool + Drop>(&mut self, mut predicate: F)
        requires { F.IsAlwaysCallable predicate }
        ensures { IsRetainedByType (λ p asked b q. F.step p asked b q) predicate self.old self.new }
    {
        if !predicate(ExtensionType::Unicode) {
            self.unicode.clear();
        }
        if !predicate(ExtensionType::Transform) {
            self.transform.clear();
        }
        if !predicate(ExtensionType::Private) {
            self.private.clear();
        }
        retain_others(&mut self.other, predicate);
    }
}
