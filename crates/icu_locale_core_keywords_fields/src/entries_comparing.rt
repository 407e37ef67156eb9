//! Equality, order and hash of maps: those of their lists.

ghost use Rattle.std.specs.Prelude.{◌++◌, Some, refl};
ghost use Rattle.std.specs.Cmp.{partial_equiv_from_equiv};
ghost use Rattle.std.specs.Hash as fed;
ghost use Rattle.std.proofs.Common.{ap};
ghost use Rattle.icu_locale_core_grammar.specs.TagOrder.{entries_cmp};
ghost use Rattle.icu_locale_core_keywords_fields.specs.Orders.{same_entries};
ghost use Rattle.icu_locale_core_keywords_fields.specs.OrderLaws.{entries_equiv, entries_total, entries_tie, entries_po, entries_decide};

use crate::entries::EntriesOf;
use crate::kind::EntryKind;
use std::cmp::Ordering;
use std::hash::{Hash, Hasher};

impl<K: EntryKind> PartialEq for EntriesOf<K> {
    ghost eq = { λ m n. same_entries m n };

    ghost laws = { partial_equiv_from_equiv entries_equiv };

    fn eq(&self, other: &Self) -> bool {
        self.as_slice() == other.as_slice()
    }
}

impl<K: EntryKind> Eq for EntriesOf<K> {
    ghost laws = { entries_equiv };
}

impl<K: EntryKind> PartialOrd for EntriesOf<K> {
    ghost partial_cmp = { λ m n. Some (entries_cmp m n) };

    ghost laws = { entries_po };

    fn partial_cmp(&self, other: &Self) -> Option<Ordering> {
        Some(self.cmp(other))
    }
}

/// Entry by entry, by the keys and then the values; a beginning comes first: `nu` before `nu-latn`.
impl<K: EntryKind> Ord for EntriesOf<K> {
    ghost cmp = { λ m n. entries_cmp m n };

    ghost total = { entries_total };

    ghost matches_partial_cmp = { λ m n. refl };

    ghost matches_eq = { entries_tie };

    fn cmp(&self, other: &Self) -> Ordering {
        self.as_slice().cmp(other.as_slice())
    }
}

impl<K: EntryKind> Hash for EntriesOf<K> {
    ghost hash_input = { λ m. fed.slice (λ e. fed.str e.0 ++ fed.slice fed.str e.1) m };

    ghost respects_eq = { λ m n e. ap (fed.slice (λ f. fed.str f.0 ++ fed.slice fed.str f.1))
        ((entries_decide m n).0 e) };

    fn hash<H: Hasher>(&self, state: &mut H) {
        self.as_slice().hash(state);
    }
}
