//! Laws of plural categories. No call is made: each clause is the law.
ghost use Rattle.icu_plurals.specs.Laws.{CategoriesAreHad, CategoryIsFirst, CategoryIsOneOfThem, EqualOperandsOneCategory, OtherWhereNoneHolds, RangeIsOneOfThem, ZerosInFront};

/// The category of a number is that of the first condition that holds, in the order `zero`, `one`, `two`, `few`,
/// `many`, and `other` where none does. By the rules of English 1 is of `one`, and 2 of `other`.
pub fn category_is_first()
    ensures first { CategoryIsFirst }
    ensures other { OtherWhereNoneHolds }
{}

/// Two numbers with equal operands have one category; `1` and `01` are such numbers, `1` and `1.0` are not.
pub fn equal_operands_have_one_category()
    ensures equal { EqualOperandsOneCategory }
    ensures zeros { ZerosInFront }
{}

/// The categories of rules are those that have a condition, and `other`, each once; the category of a number is one of
/// them. Those of English are `one`, `other`.
pub fn categories_are_those_with_a_condition()
    ensures each { CategoriesAreHad }
    ensures among { CategoryIsOneOfThem }
{}

/// Where the results for ranges are categories of a language, the category of each range is one of them too: in English
/// that of `other` and `one` is `other`.
pub fn ranges_have_categories()
    ensures { RangeIsOneOfThem }
{}
