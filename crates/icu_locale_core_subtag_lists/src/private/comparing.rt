//! Equality, order, hash and `Debug` of private subtags: those of their lists of texts.

ghost use Rattle.std.specs.Prelude.{Some, refl};
ghost use Rattle.std.specs.Cmp.{on_equiv, on_total, on_po, on_per, partial_equiv_from_equiv};
ghost use Rattle.std.specs.Cmp.Lexicographic.{pointwise, slice_cmp, lists_equiv, lists_total, lists_ties, nat_list_eq_equiv, nat_list_cmp_total, texts_ties};
ghost use Rattle.std.specs.Hash as fed;
ghost use Rattle.icu_locale_core_grammar.specs.Subtags.{same_text};
ghost use Rattle.icu_locale_core_grammar.specs.Collections.{text_cmp};
ghost use Rattle.icu_locale_core_subtag_lists.specs.Orders.{lists_of_texts_po, lists_fed_alike};

use crate::private::Private;
use std::cmp::Ordering;
use std::fmt;
use std::hash::{Hash, Hasher};

impl PartialEq for Private {
    ghost eq = { λ s t. pointwise same_text s t };

    ghost laws = { on_per (λ s. s) (partial_equiv_from_equiv (lists_equiv nat_list_eq_equiv)) };

    fn eq(&self, other: &Self) -> bool {
        self.as_slice() == other.as_slice()
    }
}

impl Eq for Private {
    ghost laws = { on_equiv (λ s. s) (lists_equiv nat_list_eq_equiv) };
}

impl PartialOrd for Private {
    ghost partial_cmp = { λ s t. Some (slice_cmp text_cmp s t) };

    ghost laws = { on_po (λ s. s) lists_of_texts_po };

    fn partial_cmp(&self, other: &Self) -> Option<Ordering> {
        Some(self.cmp(other))
    }
}

/// Subtag by subtag in byte order; where one list begins the other, the shorter is less: `x-a` than `x-a-b`.
impl Ord for Private {
    ghost cmp = { λ s t. slice_cmp text_cmp s t };

    ghost total = { on_total (λ s. s) (lists_total nat_list_cmp_total) };

    ghost matches_partial_cmp = { λ s t. refl };

    ghost matches_eq = { λ s t. lists_ties text_cmp texts_ties s t };

    fn cmp(&self, other: &Self) -> Ordering {
        self.as_slice().cmp(other.as_slice())
    }
}

impl Hash for Private {
    ghost hash_input = { λ s. fed.slice fed.str s };

    ghost respects_eq = { λ s t e. lists_fed_alike s t e };

    fn hash<H: Hasher>(&self, state: &mut H) {
        self.as_slice().hash(state);
    }
}

impl fmt::Debug for Private {
    fn fmt<W: fmt::Write>(&self, f: &mut fmt::Formatter<W>) -> fmt::Result {
        fmt::Debug::fmt(self.as_slice(), f)
    }
}
