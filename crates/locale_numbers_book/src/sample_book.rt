//! The books that are there without a file, as constants.

/// A small book: symbols for English and for Arabic in Egypt, digits of three systems, and the English plural rules and
/// compact patterns.
///
/// The long patterns, but for `a thousand`, have a hyphen before the word, as in `1.0-thousands`, which is not how
/// English writes them. The last byte is `]`. `Book::from_json` takes it.
pub const SAMPLE_BOOK: &str = r#"[[["en","","latn","-","","+","",".",",",3,3,1],
  ["ar-EG","","arab","-","","+","","٫","٬",3,3,1]],
 [["latn","0123456789"],["arab","٠١٢٣٤٥٦٧٨٩"],["thai","๐๑๒๓๔๕๖๗๘๙"]],
 [["en",[["one","i = 1 and v = 0 @integer 1"],["other"," @integer 0, 2"]]]],
 [["en","",[[3,3,[["other",["","K"]]]],[6,6,[["other",["","M"]]]]],null]],
 [["en","",[[3,3,[["1",["a thousand"]],["other",["","-thousands"]]]],
   [6,6,[["one",["","-million"]],["other",["","-millions"]]]]],null]]]"#;

/// A small book with units: the symbols of German, Swiss German, English, Hebrew and Turkish, percents and amounts of
/// money in each, the symbols of four currencies, and the digits of francs, yen and Kuwaiti dinars.
///
/// It has the digits of `latn`, no plural rules and no compact patterns, and parents without entries, so that `de-AT`
/// has the tables of `de`. The entries are those of CLDR 48. A code without an entry, as `QQQ`, is written by itself,
/// with two digits. `Book::from_json` takes it.
pub const SAMPLE_UNITS_BOOK: &str =
    r#"[[[["de","","latn","-","","+","",",",".",3,3,1],["de-CH","","latn","-","","+","",".","'",3,3,1],
   ["en","","latn","-","","+","",".",",",3,3,1],["he","","latn","\u200e-","","\u200e+","",".",",",3,3,1],
   ["tr","","latn","-","","+","",",",".",3,3,1]],
  [["latn","0123456789"]],[],[],[],[]],
 [[["de","","%",null,["","\u00a0¤"]],["de-CH","","%",null,["","¤"]],["en","","%",null,["","¤"]],
   ["he","","%",null,["","¤"]],["tr","","%",null,["¤",""]]],
  [["de","",null,["","\u00a0¤"],null],["de-CH","",null,["¤\u00a0","","¤-","","¤+",""],null],
   ["en","",null,["¤",""],["¤\u00a0",""]],
   ["he","",null,["\u200f","\u00a0\u200f¤","\u200f\u200e-","\u00a0\u200f¤","\u200f\u200e+","\u00a0\u200f¤"],null],
   ["tr","",null,["¤",""],["¤\u00a0",""]]],
  [["en","",null,["¤","","(¤",")","+¤",""],["¤\u00a0","","(¤\u00a0",")","+¤\u00a0",""]],
   ["tr","",null,["¤","","(¤",")","+¤",""],["¤\u00a0","","(¤\u00a0",")","+¤\u00a0",""]]],
  [["de","EUR","€",0],["de","USD","$",0],["de-CH","EUR","EUR",3],["en","EUR","€",0],["en","JPY","¥",0],
   ["en","USD","$",0],["he","EUR","€",0],["tr","EUR","€",0],["tr","USD","$",0]],
  [["CHF",2,1,2,5],["JPY",0,1,0,1],["KWD",3,1,3,1]]]]"#;
