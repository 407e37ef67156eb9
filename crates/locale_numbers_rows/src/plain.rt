//! Numbers in the symbols and the sizes of a row, and where separators are.

use crate::calls::answer_under;
use icu_decimal::grouper;
use icu_decimal::options::GroupingStrategy;
use icu_decimal::provider::GroupingSizes;
use rows::{Stop, number_of, put};

// The signs or the digits of this name, as they are in a book: signs are the prefix and the suffix of the minus sign,
// and those of the plus sign.
fn text_named(name: &str) -> Result<&'static str, Stop> {
    match name {
        "english" => Ok(r#""-","","+","""#),
        "brackets" => Ok(r#""(",")","+","!""#),
        "latn" => Ok("0123456789"),
        "beng" => Ok("০১২৩৪৫৬৭৮৯"),
        "mathbold" => Ok("𝟎𝟏𝟐𝟑𝟒𝟓𝟔𝟕𝟖𝟗"),
        _ => Err(Stop::Unknown),
    }
}

/// Writes the answer of a book whose entry `en` has these signs and sizes, the separators of English and these digits,
/// to the line that asks for the plain text of a number.
pub fn answer_sized(passed: &[&str], out: &mut String) -> Result<(), Stop> {
    let [signs, sizes, digits, grouping, number] = passed else {
        return Err(Stop::Unknown);
    };
    let signs = text_named(signs)?;
    let digits = text_named(digits)?;
    let texts = format!(in *out.allocator();
        "[[[\"en\",\"\",\"latn\",{signs},\".\",\",\",{sizes}]],[[\"latn\",\"{digits}\"]],[],[],[]]\nen\tplain\t{grouping}\tkeep\t-\t{number}"
    )?;
    let put = match texts.split_once('\n') {
        Some((book, line)) => answer_under("answer", &[book, line], line.as_bytes(), out),
        None => Err(Stop::Unknown),
    };
    drop(texts);
    put
}

fn grouping_named(name: &str) -> Result<GroupingStrategy, Stop> {
    match name {
        "auto" => Ok(GroupingStrategy::Auto),
        "never" => Ok(GroupingStrategy::Never),
        "always" => Ok(GroupingStrategy::Always),
        "min2" => Ok(GroupingStrategy::Min2),
        "on-aligned" => Ok(GroupingStrategy::OnAligned),
        _ => Err(Stop::Unknown),
    }
}

// The three sizes of `3,2,1`.
fn sizes_of(field: &str) -> Result<GroupingSizes, Stop> {
    let Some((primary, behind)) = field.split_once(',') else {
        return Err(Stop::Unknown);
    };
    let Some((secondary, min_grouping)) = behind.split_once(',') else {
        return Err(Stop::Unknown);
    };
    Ok(GroupingSizes {
        primary: number_of(primary)?,
        secondary: number_of(secondary)?,
        min_grouping: number_of(min_grouping)?,
    })
}

/// Writes whether a separator follows the digit at a magnitude, in a number with this upper magnitude.
pub fn check(passed: &[&str], out: &mut String) -> Result<(), Stop> {
    let [upper, place, grouping, sizes] = passed else {
        return Err(Stop::Unknown);
    };
    let upper = number_of(upper)?;
    let place = number_of(place)?;
    let grouping = grouping_named(grouping)?;
    let sizes = sizes_of(sizes)?;
    put(out, &grouper::check(upper, place, grouping, sizes))
}
