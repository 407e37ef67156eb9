//! Laws of small texts. Each function does nothing; its clause is the law.

ghost use Rattle.std.specs.Prelude.{ℕ, List};
ghost use Rattle.tinystr.specs.Laws.{OneForm, EqualTexts, NicheIsNoForm, OneFault, TextsHaveNoFault, CaseSettles, CaseMeetsCut, JoinsAlike, OneDecimal, TenDigits};

/// A form at a capacity is that of one text: `[97, 98, 0, 0]` at 4 that of `ab`.
pub fn one_form()
    ensures { OneForm }
{}

/// `==` is true exactly where the texts are one, and so is an order of `Equal`: `ab` is `ab`, and not `aB`.
pub fn equal_texts()
    ensures { (one other : List ℕ) → EqualTexts one other }
{}

/// The bytes of `NICHE_BIT_PATTERN` are the form of no text where N is above 0, as `[255, 255]` at 2.
pub fn niche_is_no_form()
    ensures { NicheIsNoForm }
{}

/// Units that are refused have one fault, and no text has one: `[0, 97]` at 2 is only `ContainsNull`, and `[97]` has
/// none.
pub fn one_fault()
    ensures one { OneFault }
    ensures texts { TextsHaveNoFault }
{}

/// A case change twice is the change once; lower case after upper case is lower case: `tEsT` gives `TEST`, and both
/// give `test`.
pub fn case_settles()
    ensures { (text : List ℕ) → CaseSettles text }
{}

/// `resize` and a case change may be done in either order: of `tEsT` at 2 in upper case both give `TE`.
pub fn case_meets_cut()
    ensures { (count : ℕ) (text : List ℕ) → CaseMeetsCut count text }
{}

/// `concat` of three texts may begin with the first two or the last two: of `a`, `b` and `c` at 4 both give `abc`.
pub fn joins_alike()
    ensures { JoinsAlike }
{}

/// A number has one shortest decimal text, and that of a `u32` has at most ten digits: of 7 it is `7`, and of the
/// greatest `u32` `4294967295`.
pub fn one_decimal()
    ensures one { OneDecimal }
    ensures ten { TenDigits }
{}
