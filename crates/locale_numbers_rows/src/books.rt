//! The books that lines name.
use locale_numbers::{SAMPLE_BOOK, SAMPLE_UNITS_BOOK};

// The sample book, with English grouped by three and then by two.
const THREE_TWO: &str = r#"[[["en","","latn","-","","+","",".",",",3,2,1],
  ["ar-EG","","arab","-","","+","","٫","٬",3,3,1]],
 [["latn","0123456789"],["arab","٠١٢٣٤٥٦٧٨٩"],["thai","๐๑๒๓๔๕๖๗๘๙"]],
 [["en",[["one","i = 1 and v = 0 @integer 1"],["other"," @integer 0, 2"]]]],
 [["en","",[[3,3,[["other",["","K"]]]],[6,6,[["other",["","M"]]]]],null]],
 [["en","",[[3,3,[["1",["a thousand"]],["other",["","-thousands"]]]],
   [6,6,[["one",["","-million"]],["other",["","-millions"]]]]],null]]]"#;

// The English symbols, grouped where two digits are in front.
const TWO_IN_FRONT: &str = r#"[[["en","","latn","-","","+","",".",",",3,3,2]],
 [["latn","0123456789"]],[],[],[]]"#;

// The English symbols, not grouped.
const NOT_GROUPED: &str = r#"[[["en","","latn","-","","+","",".",",",0,3,1]],
 [["latn","0123456789"]],[],[],[]]"#;

// Symbols for parts of a locale: under a subdivision, a variant, a region, and under a system.
const PARTS: &str = r#"[[["en-US-u-sd-ustx","","latn","-","","+","",".","t",3,3,1],
  ["en-US","","latn","-","","+","",".","r",3,3,1],
  ["de-1996","","latn","-","","+","",".","v",3,3,1],
  ["de","","latn","-","","+","",".","d",3,3,1],
  ["de","thai","latn","-","","+","",".","n",3,3,1]],
 [["latn","0123456789"]],[],[],[]]"#;

// The undetermined language alone, and in a region.
const UNDETERMINED: &str = r#"[[["und","","latn","-","","+","",".","u",3,3,1],
  ["und-US","","latn","-","","+","",".","r",3,3,1]],
 [["latn","0123456789"],["thai","๐๑๒๓๔๕๖๗๘๙"]],[],[],[]]"#;

// Symbols under a system which name the digits of another; of `deva` there are no digits.
const OTHER_SYSTEM: &str = r#"[[["en","","latn","-","","+","",".",",",3,3,1],
  ["en","thai","arab","-","","+","",".","t",3,3,1],
  ["en","deva","arab","-","","+","",".","d",3,3,1],
  ["en","beng","deva","-","","+","",".","b",3,3,1]],
 [["latn","0123456789"],["arab","٠١٢٣٤٥٦٧٨٩"],["thai","๐๑๒๓๔๕๖๗๘๙"]],[],[],[]]"#;

// The symbols and digits of the sample book, and symbols of `ar-EG` for `latn`.
const LATIN_EGYPT: &str = r#"[[["en","","latn","-","","+","",".",",",3,3,1],
  ["ar-EG","","arab","-","","+","","٫","٬",3,3,1],
  ["ar-EG","latn","latn","-","","+","",".",",",3,3,1]],
 [["latn","0123456789"],["arab","٠١٢٣٤٥٦٧٨٩"],["thai","๐๑๒๓๔๕๖๗๘๙"]],[],[],[]]"#;

// Bengali, grouped by three and then by two.
const BENGALI: &str = r#"[[["bn","","beng","-","","+","",".",",",3,2,1]],
 [["beng","০১২৩৪৫৬৭৮৯"]],[],[],[]]"#;

// Trillions, and no smaller pattern.
const TRILLIONS: &str = r#"[[["en","","latn","-","","+","",".",",",3,3,1]],[["latn","0123456789"]],
 [["en",[["other",""]]]],[["en","",[[12,12,[["other",["","T"]]]]],null]],[]]"#;

// Thousands and millions with one pattern.
const ONE_PATTERN: &str =
    r#"[[["en","","latn","-","","+","",".",",",3,3,1]],[["latn","0123456789"]],
 [["en",[["other",""]]]],
 [["en","",[[3,3,[["other",["","K"]]]],[6,6,[["other",["","K"]]]]],null]],[]]"#;

// Millions from ten of them on.
const LATE_MILLION: &str =
    r#"[[["en","","latn","-","","+","",".",",",3,3,1]],[["latn","0123456789"]],
 [["en",[["other",""]]]],
 [["en","",[[3,3,[["other",["","K"]]]],[7,6,[["other",["","M"]]]]],null]],[]]"#;

// The sample book, with two short patterns of one exponent.
const ONE_EXPONENT: &str =
    r#"[[["en","","latn","-","","+","",".",",",3,3,1]],[["latn","0123456789"]],
 [["en",[["one","i = 1 and v = 0 @integer 1"],["other"," @integer 0, 2"]]]],
 [["en","",[[3,3,[["other",["","K"]]]],[5,3,[["other",["","k"]]]]],null]],[]]"#;

// The sample book, with long patterns of thousands alone.
const LONG_THOUSANDS: &str =
    r#"[[["en","","latn","-","","+","",".",",",3,3,1]],[["latn","0123456789"]],
 [["en",[["one","i = 1 and v = 0 @integer 1"],["other"," @integer 0, 2"]]]],[],
 [["en","",[[3,3,[["1",["a thousand"]],["other",["","-thousands"]]]]],null]]]"#;

// Patterns without plural rules.
const NO_RULES: &str =
    r#"[[["en","","latn","-","","+","",".",",",3,3,1]],[["latn","0123456789"]],[],
 [["en","",[[3,3,[["other",["","K"]]]]],null]],[]]"#;

// Symbols of `en` under `thai`, and of `en-US` under no system.
const THAI_BEHIND: &str = r#"[[["en","","latn","-","","+","",".",",",3,3,1],
  ["en","thai","thai","-","","+","",",",".",3,3,1],
  ["en-US","","latn","-","","+","",".","'",3,3,1]],
 [["latn","0123456789"],["thai","๐๑๒๓๔๕๖๗๘๙"]],[],[],[]]"#;

// Entries of six locales, from CLDR, with units: Arabic in Egypt has those of `latn` too.
const TYPED: &str = r#"[[[["en","","latn","-","","+","",".",",",3,3,1],
  ["de","","latn","-","","+","",",",".",3,3,1],
  ["de-CH","","latn","-","","+","",".","'",3,3,1],
  ["fr","","latn","-","","+","",",","\u202f",3,3,1],
  ["hi","","latn","-","","+","",".",",",3,2,1],
  ["ar-EG","","arab","\u061c-","","\u061c+","","٫","٬",3,3,1],
  ["ar-EG","latn","latn","\u200e-","","\u200e+","",".",",",3,3,1]],
 [["latn","0123456789"],["arab","٠١٢٣٤٥٦٧٨٩"]],[],[],[]],
 [[["en","","%",null,["","¤"]],
  ["de","","%",null,["","\u00a0¤"]],
  ["de-CH","","%",null,["","¤"]],
  ["fr","","%",null,["","\u00a0¤"]],
  ["hi","","%",null,["","¤"]],
  ["ar-EG","","٪\u061c",null,["","¤"]],
  ["ar-EG","latn","\u200e%\u200e",null,["","¤"]]],
 [["en","",null,["¤",""],["¤\u00a0",""]],
  ["de","",null,["","\u00a0¤"],null],
  ["de-CH","",null,["¤\u00a0","","¤-","","¤+",""],null],
  ["fr","",null,["","\u00a0¤"],null],
  ["hi","",null,["¤",""],["¤\u00a0",""]],
  ["ar-EG","",null,["\u200f","\u00a0¤"],null],
  ["ar-EG","latn",null,["\u200f","\u00a0¤","\u200f\u200e-","\u00a0¤","\u200f\u200e+","\u00a0¤"],null]],
 [["en","",null,["¤","","(¤",")","+¤",""],["¤\u00a0","","(¤\u00a0",")","+¤\u00a0",""]]],
 [["en","EUR","€",0],
  ["en","USD","$",0],
  ["de","EUR","€",0],
  ["de","USD","$",0],
  ["fr","EUR","€",0],
  ["hi","INR","₹",0],
  ["ar-EG","EGP","ج.م.\u200f",3]],[]]]"#;

// Entries of three locales, from CLDR: Turkish without its permille sign.
const PERMILLE: &str = r#"[[[["en","","latn","-","","+","",".",",",3,3,1],
  ["de","","latn","-","","+","",",",".",3,3,1],
  ["tr","","latn","-","","+","",",",".",3,3,1]],
 [["latn","0123456789"]],[],[],[]],
 [[["en","","%",null,["","¤"],"‰"],
  ["de","","%",null,["","\u00a0¤"],"‰"],
  ["tr","","%",null,["¤",""]]],[],[],[],[]]]"#;

// Entries of English, French and German, from CLDR, with amounts of euros, ordinal rules and the categories of ranges.
// Austria has other separators in amounts than in numbers.
const PLURALS: &str = r#"[[[["en","","latn","-","","+","",".",",",3,3,1],
  ["fr","","latn","-","","+","",",","\u202f",3,3,1],
  ["de","","latn","-","","+","",",",".",3,3,1],
  ["de-AT","","latn","-","","+","",",","\u00a0",3,3,1]],
 [["latn","0123456789"]],
 [["en",[["one","i = 1 and v = 0"],["other",""]]],
  ["fr",[["one","i = 0,1"],["many","e = 0 and i != 0 and i % 1000000 = 0 and v = 0 or e != 0..5"],["other",""]]],
  ["de",[["one","i = 1 and v = 0"],["other",""]]]],
 [["en","",[[3,3,[["other",["","K"]]]],[6,6,[["other",["","M"]]]]],null],
  ["fr","",[[3,3,[["other",["","\u00a0k"]]]],[6,6,[["other",["","\u00a0M"]]]]],null]],[],[]],
 [[["en","","%",null,["","¤"]]],
 [["en","",null,["¤",""],["¤\u00a0",""]],
  ["de","",null,["","\u00a0¤"],null],
  ["de-AT","",["latn","-","","+","",",",".",3,3,1],["¤\u00a0",""],null]],
 [],
 [["en","EUR","€",0],
  ["de","EUR","€",0]],[]],
 [[["en",[["one","n % 10 = 1 and n % 100 != 11"],["two","n % 10 = 2 and n % 100 != 12"],["few","n % 10 = 3 and n % 100 != 13"],["other",""]]],
  ["fr",[["one","n = 1"],["other",""]]],
  ["und",[]]],
 [["en",[["one","other","other"],["other","one","other"],["other","other","other"]]],
  ["fr",[["one","one","one"],["one","other","other"],["other","other","other"]]]]]]"#;

// Entries of five locales, from CLDR, with signs: those of French are left out, so that it has those of `und`. English and
// French have plural rules. There are parents, and none is listed.
const SIGNS: &str = r#"[[[["en","","latn","-","","+","",".",",",3,3,1],
  ["sv","","latn","\u2212","","+","",",","\u00a0",3,3,1],
  ["de","","latn","-","","+","",",",".",3,3,1],
  ["fr","","latn","-","","+","",",","\u202f",3,3,1],
  ["ar-EG","","arab","\u061c-","","\u061c+","","٫","٬",3,3,1],
  ["ar-EG","latn","latn","\u200e-","","\u200e+","",".",",",3,3,1]],
 [["latn","0123456789"],["arab","٠١٢٣٤٥٦٧٨٩"]],
 [["en",[["one","i = 1 and v = 0"],["other",""]]],
  ["fr",[["one","i = 0,1"],["many","e = 0 and i != 0 and i % 1000000 = 0 and v = 0 or e != 0..5"],["other",""]]]],
 [],[],[]],
 [[["en","","%",null,["","¤"]]],[],[],[],[]],
 [[],[],
  [["en","","E","×","‰","~",["","–",""],["","+"],["≤",""]],
   ["sv","","×10^","×","‰","~",["","–",""],["⩾",""],["≤",""]],
   ["de","","E","·","‰","≈",["","–",""],["","+"],["≤",""]],
   ["ar-EG","","أس","×","؉","~",["","–",""],["+",""],["≤",""]],
   ["ar-EG","latn","E","×","‰","~",["","–",""],["+",""],["≤",""]],
   ["und","","E","×","‰","~",["","–",""],["≥",""],["≤",""]]]]]"#;

/// The text of the book with this name.
pub fn book_named(name: &str) -> Option<&'static str> {
    match name {
        "sample" => Some(SAMPLE_BOOK),
        "units" => Some(SAMPLE_UNITS_BOOK),
        "three-two" => Some(THREE_TWO),
        "two-in-front" => Some(TWO_IN_FRONT),
        "not-grouped" => Some(NOT_GROUPED),
        "parts" => Some(PARTS),
        "undetermined" => Some(UNDETERMINED),
        "other-system" => Some(OTHER_SYSTEM),
        "latin-egypt" => Some(LATIN_EGYPT),
        "bengali" => Some(BENGALI),
        "trillions" => Some(TRILLIONS),
        "one-pattern" => Some(ONE_PATTERN),
        "late-million" => Some(LATE_MILLION),
        "one-exponent" => Some(ONE_EXPONENT),
        "long-thousands" => Some(LONG_THOUSANDS),
        "no-rules" => Some(NO_RULES),
        "thai-behind" => Some(THAI_BEHIND),
        "typed" => Some(TYPED),
        "permille" => Some(PERMILLE),
        "plurals" => Some(PLURALS),
        "signs" => Some(SIGNS),
        _ => None,
    }
}
