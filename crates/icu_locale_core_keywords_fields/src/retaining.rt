//! Keeping the entries at whose keys a closure returns true.

ghost use Rattle.std.specs.Fn.{CalledAt};
ghost use Rattle.icu_locale_core_keywords_fields.specs.Retained.{IsRetained};

use crate::entries::EntriesOf;
use icu_locale_core_subtags::{transform, unicode};

// Keeps the pairs at whose first parts the closure returns true.
pub(crate) fn retain_pairs<X: Drop, Y: Drop, F: FnMut(&X) -> bool + Drop>(
    pairs: &mut Vec<(X, Y)>,
    mut keep: F,
)
    requires { F.IsAlwaysCallable keep }
    ensures { IsRetained (CalledAt F.FnMut) keep pairs.old.items pairs.new.items }
{
    let mut place = 0;
    while place < pairs.len() {
        if keep(&pairs[place].0) {
            place += 1;
        } else {
            pairs.remove(place);
        }
    }
}

impl EntriesOf<unicode::KeyRule> {
    /// Keeps the entries at whose keys `keep` returns true. It is called once with each key, in order.
    ///
    /// The condition is that `keep` may be called at any time. Of `ca-buddhist-nu-thai`, where it keeps only `nu`,
    /// `nu-thai` is left. It does not allocate.
    pub fn retain_by_key<F: FnMut(&unicode::Key) -> bool + Drop>(&mut self, keep: F)
        requires { F.IsAlwaysCallable keep }
        ensures { IsRetained (CalledAt F.FnMut) keep self.old self.new }
    {
        retain_pairs(&mut self.entries, keep);
    }
}

impl EntriesOf<transform::KeyRule> {
    /// Keeps the entries at whose keys `keep` returns true. It is called once with each key, in order.
    ///
    /// The condition is that `keep` may be called at any time. Of `h0-hybrid-m0-und`, where it keeps only `m0`,
    /// `m0-und` is left. It does not allocate.
    pub fn retain_by_key<F: FnMut(&transform::Key) -> bool + Drop>(&mut self, keep: F)
        requires { F.IsAlwaysCallable keep }
        ensures { IsRetained (CalledAt F.FnMut) keep self.old self.new }
    {
        retain_pairs(&mut self.entries, keep);
    }
}
