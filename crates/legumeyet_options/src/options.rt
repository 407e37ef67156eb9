//! The options, as `clap` reads them.

use crate::help::{AFTER_HELP, AFTER_LONG_HELP};
use clap::builder::ValueParser;
use clap::{Arg, ArgAction, Command};
use std::alloc::{AllocError, Global};

static FORMS: [&str; 7] = [
    "plain",
    "short",
    "long",
    "exact-short",
    "exact-long",
    "read",
    "read-lenient",
];

static GROUPINGS: [&str; 5] = ["auto", "always", "min2", "on-aligned", "never"];

static SIGNS: [&str; 6] = ["keep", "auto", "always", "never", "except-zero", "negative"];

static PRIORITIES: [&str; 2] = ["more", "less"];

static INVALIDS: [&str; 4] = ["empty", "keep", "skip", "abort"];

// An option that goes with none of these.
fn without<'a>(option: Arg<'a>, others: &[&'static str]) -> Result<Arg<'a>, AllocError> {
    let mut option = option;
    for other in others {
        option = option.conflicts_with(other)?;
    }
    Ok(option)
}

fn tag<'a>(alloc: Global) -> Arg<'a> {
    Arg::new(alloc, "tag")
        .short('t')
        .long("tag")
        .value_name("TAG")
        .num_args(0..=1)
        .help(
            "The locale, as de or ar-EG-u-nu-thai, or as de_DE.UTF-8 [default: that of the environment]",
        )
}

fn form<'a>(alloc: Global) -> Arg<'a> {
    Arg::new(alloc, "form")
        .short('f')
        .long("form")
        .value_name("FORM")
        .value_parser(FORMS.as_slice())
        .help("What is written [default: plain]")
}

fn format<'a>(alloc: Global) -> Result<Arg<'a>, AllocError> {
    Arg::new(alloc, "format")
        .long("format")
        .value_name("SKELETON")
        .help(
            "Writes by a number skeleton of ICU, as 'currency/EUR .00', which says all that is written",
        )
        .conflicts_with("form")
}

fn scientific<'a>(alloc: Global) -> Result<Arg<'a>, AllocError> {
    let option = Arg::new(alloc, "scientific")
        .long("scientific")
        .action(ArgAction::SetTrue)
        .help("Writes in scientific notation: 12000 is 1.2E4 in English");
    without(option, &["form", "format"])
}

fn engineering<'a>(alloc: Global) -> Result<Arg<'a>, AllocError> {
    let option = Arg::new(alloc, "engineering")
        .long("engineering")
        .action(ArgAction::SetTrue)
        .help("The same with exponents that are multiples of three: 12000 is 12E3 in English");
    without(option, &["form", "format", "scientific"])
}

fn grouping<'a>(alloc: Global) -> Result<Arg<'a>, AllocError> {
    Arg::new(alloc, "grouping")
        .short('g')
        .long("grouping")
        .value_name("GROUPING")
        .value_parser(GROUPINGS.as_slice())
        .help(
            "Which digits are grouped; min2 groups from 10000 on, on-aligned always from 1000 on [default: auto]",
        )
        .conflicts_with("format")
}

fn sign<'a>(alloc: Global) -> Result<Arg<'a>, AllocError> {
    Arg::new(alloc, "sign")
        .short('s')
        .long("sign")
        .value_name("SIGN")
        .value_parser(SIGNS.as_slice())
        .help("When a sign is written; keep writes that of the number, a plus too [default: keep]")
        .conflicts_with("format")
}

fn round<'a>(alloc: Global) -> Result<Arg<'a>, AllocError> {
    Arg::new(alloc, "round")
        .short('r')
        .long("round")
        .value_name("POSITION[,MODE[,INCREMENT]]")
        .allow_hyphen_values(true)
        .help("Rounds first: -2 to hundredths, -2,floor down, -2,half-even,5 to multiples of 0.05")
        .conflicts_with("format")
}

fn digits<'a>(alloc: Global) -> Result<Arg<'a>, AllocError> {
    let option = Arg::new(alloc, "digits")
        .short('d')
        .long("digits")
        .value_name("N")
        .help("Writes so many digits after the point, rounded half to even");
    without(option, &["format", "round"])
}

fn max_digits<'a>(alloc: Global) -> Result<Arg<'a>, AllocError> {
    let option = Arg::new(alloc, "max-digits")
        .long("max-digits")
        .value_name("N")
        .help("Writes so many digits after the point at most, and no zeros at the end");
    without(option, &["format", "round", "digits"])
}

fn min_digits<'a>(alloc: Global) -> Result<Arg<'a>, AllocError> {
    let option = Arg::new(alloc, "min-digits")
        .long("min-digits")
        .value_name("N")
        .help(
            "Writes so many digits after the point at least; without --max-digits nothing is rounded",
        );
    without(option, &["format", "round", "digits"])
}

fn significant<'a>(alloc: Global) -> Result<Arg<'a>, AllocError> {
    let option = Arg::new(alloc, "significant")
        .long("significant")
        .value_name("N")
        .help(
            "Writes so many digits from the first one that is not zero on: 3, or 1-3 at most three",
        );
    without(option, &["format", "round"])
}

fn priority<'a>(alloc: Global) -> Result<Arg<'a>, AllocError> {
    let option = Arg::new(alloc, "priority")
        .long("priority")
        .value_name("PRIORITY")
        .value_parser(PRIORITIES.as_slice())
        .help(
            "Writes by --significant or by --digits and --max-digits, whichever shows more, or less",
        )
        .requires_arg("significant")?;
    without(option, &["format", "round", "cash"])
}

fn currency<'a>(alloc: Global) -> Result<Arg<'a>, AllocError> {
    let option = Arg::new(alloc, "currency")
        .short('c')
        .long("currency")
        .value_name("CODE")
        .help("Writes amounts of this currency, as EUR, rounded to its digits");
    without(option, &["form", "format", "scientific", "engineering"])
}

// An option of amounts of a currency. What it requires may be missing where that goes with nothing that is given, so each form
// without a currency is named.
fn of_amounts<'a>(option: Arg<'a>) -> Result<Arg<'a>, AllocError> {
    let option = option.requires_arg("currency")?;
    without(
        option,
        &[
            "form",
            "format",
            "scientific",
            "engineering",
            "percent",
            "permille",
        ],
    )
}

fn accounting<'a>(alloc: Global) -> Result<Arg<'a>, AllocError> {
    let option = Arg::new(alloc, "accounting")
        .long("accounting")
        .action(ArgAction::SetTrue)
        .help("Writes amounts as accounts have them: in English -5 dollars are ($5.00)");
    of_amounts(option)
}

fn code<'a>(alloc: Global) -> Result<Arg<'a>, AllocError> {
    let option = Arg::new(alloc, "code")
        .long("code")
        .action(ArgAction::SetTrue)
        .help("Writes the code of the currency, EUR, in place of its symbol")
        .conflicts_with("accounting")?;
    of_amounts(option)
}

fn cash<'a>(alloc: Global) -> Result<Arg<'a>, AllocError> {
    let option = Arg::new(alloc, "cash")
        .long("cash")
        .action(ArgAction::SetTrue)
        .help("Rounds amounts to what is paid in cash: 2.34 Swiss francs are 2.35");
    let option = without(
        option,
        &["round", "digits", "max-digits", "min-digits", "significant"],
    )?;
    of_amounts(option)
}

fn percent<'a>(alloc: Global) -> Result<Arg<'a>, AllocError> {
    let option = Arg::new(alloc, "percent")
        .short('p')
        .long("percent")
        .action(ArgAction::SetTrue)
        .help("Writes percents: 12.5 is 12.5% in English");
    without(
        option,
        &["form", "format", "scientific", "engineering", "currency"],
    )
}

fn permille<'a>(alloc: Global) -> Result<Arg<'a>, AllocError> {
    let option = Arg::new(alloc, "permille")
        .long("permille")
        .action(ArgAction::SetTrue)
        .help("Writes permilles: 12.5 is 12.5‰ in English");
    without(
        option,
        &[
            "form",
            "format",
            "scientific",
            "engineering",
            "currency",
            "percent",
        ],
    )
}

fn plural<'a>(alloc: Global) -> Result<Arg<'a>, AllocError> {
    let option = Arg::new(alloc, "plural")
        .long("plural")
        .action(ArgAction::SetTrue)
        .help("Prints the plural category of each number as it would be written: one, few, other");
    without(option, &["read", "read-exact", "read-fields", "parts"])
}

fn ordinal<'a>(alloc: Global) -> Result<Arg<'a>, AllocError> {
    let option = Arg::new(alloc, "ordinal")
        .long("ordinal")
        .action(ArgAction::SetTrue)
        .help("Prints the category of each as an ordinal number: in English two of 2, as in 2nd");
    without(
        option,
        &["read", "read-exact", "read-fields", "parts", "plural"],
    )
}

fn read<'a>(alloc: Global) -> Arg<'a> {
    Arg::new(alloc, "read")
        .long("read")
        .value_name("TEXT")
        .action(ArgAction::Append)
        .allow_hyphen_values(true)
        .help(
            "Prints the number that was typed so, as 1.234,5 or 1234,5 under de; may be given again",
        )
}

fn read_exact<'a>(alloc: Global) -> Arg<'a> {
    Arg::new(alloc, "read-exact")
        .long("read-exact")
        .value_name("TEXT")
        .action(ArgAction::Append)
        .allow_hyphen_values(true)
        .help("Prints the number that is written so, to the byte; may be given again")
}

fn field<'a>(alloc: Global) -> Result<Arg<'a>, AllocError> {
    let option = Arg::new(alloc, "field")
        .long("field")
        .value_name("FIELD[=SKELETON]")
        .action(ArgAction::Append)
        .help(
            "Writes the numbers in this field of the records of standard input, a number from 1 on or a name in the header; may be given again",
        );
    without(option, &["numbers", "read", "read-exact", "parts"])
}

// An option of the fields of a table. What it requires may be missing where that goes with nothing that is given, so each
// way without a field is named.
fn of_fields<'a>(option: Arg<'a>) -> Result<Arg<'a>, AllocError> {
    let option = option.requires_arg("field")?;
    without(option, &["numbers", "read", "read-exact", "parts"])
}

fn read_fields<'a>(alloc: Global) -> Result<Arg<'a>, AllocError> {
    let option = Arg::new(alloc, "read-fields")
        .long("read-fields")
        .action(ArgAction::SetTrue)
        .help("Reads the fields as people type them, and writes the number that each is")
        .conflicts_with("form")?;
    of_fields(option)
}

fn delimiter<'a>(alloc: Global) -> Result<Arg<'a>, AllocError> {
    let option = Arg::new(alloc, "delimiter")
        .long("delimiter")
        .value_name("CHARACTER")
        .allow_hyphen_values(true)
        .help(
            "What is between two fields, an ASCII character; tab is a tab, and then there are no quotes [default: ,]",
        );
    of_fields(option)
}

fn header<'a>(alloc: Global) -> Result<Arg<'a>, AllocError> {
    let option = Arg::new(alloc, "header")
        .long("header")
        .value_name("N")
        .num_args(0..=1)
        .require_equals(true)
        .default_missing_value("1")
        .value_parser(ValueParser::unsigned(0, 65_535))
        .help(
            "So many first records are a header, and stay [default: 1 where a field has a name, else 0]",
        );
    of_fields(option)
}

fn padding<'a>(alloc: Global) -> Result<Arg<'a>, AllocError> {
    let option = Arg::new(alloc, "padding")
        .long("padding")
        .value_name("N")
        .allow_hyphen_values(true)
        .help("Puts spaces before the text of a field up to so many characters, with -N behind it");
    of_fields(option)
}

fn parts<'a>(alloc: Global) -> Result<Arg<'a>, AllocError> {
    let option = Arg::new(alloc, "parts")
        .long("parts")
        .action(ArgAction::SetTrue)
        .help("Prints each text and then its parts, a line each; not for exact and reading forms");
    without(option, &["read", "read-exact"])
}

fn invalid<'a>(alloc: Global) -> Arg<'a> {
    Arg::new(alloc, "invalid")
        .long("invalid")
        .value_name("MODE")
        .value_parser(INVALIDS.as_slice())
        .help(
            "What is written for what is refused: an empty line or field, the text as it is, nothing, or nothing more at all [default: empty for lines of -, keep for fields, else skip]",
        )
}

fn book<'a>(alloc: Global) -> Arg<'a> {
    Arg::new(alloc, "book")
        .short('b')
        .long("book")
        .value_name("FILE")
        .help("A book of tables in place of that of all locales")
}

// The options that say which numbers and texts are written or read, and how.
static OF_NUMBERS: [&str; 31] = [
    "numbers",
    "tag",
    "form",
    "format",
    "scientific",
    "engineering",
    "grouping",
    "sign",
    "round",
    "digits",
    "max-digits",
    "min-digits",
    "significant",
    "priority",
    "currency",
    "accounting",
    "code",
    "cash",
    "percent",
    "permille",
    "plural",
    "ordinal",
    "read",
    "read-exact",
    "field",
    "read-fields",
    "delimiter",
    "header",
    "padding",
    "parts",
    "invalid",
];

fn locales<'a>(alloc: Global) -> Result<Arg<'a>, AllocError> {
    let option = Arg::new(alloc, "locales")
        .long("locales")
        .action(ArgAction::SetTrue)
        .help(
            "Lists the locales of the book of all locales, or those that the book of --book has symbols for",
        );
    without(option, OF_NUMBERS.as_slice())
}

// A line names all that is asked for.
fn lines<'a>(alloc: Global) -> Result<Arg<'a>, AllocError> {
    let option = Arg::new(alloc, "lines")
        .long("lines")
        .action(ArgAction::SetTrue)
        .help("Answers the request lines of standard input");
    without(option, OF_NUMBERS.as_slice())?.conflicts_with("locales")
}

fn capacity<'a>(alloc: Global) -> Result<Arg<'a>, AllocError> {
    let option = Arg::new(alloc, "capacity")
        .long("capacity")
        .value_name("N")
        .value_parser(ValueParser::unsigned(1, 65_535))
        .default_value("512")
        .help("How many formatters are kept for --lines, from 1 to 65535");
    without(
        option,
        &["numbers", "read", "read-exact", "field", "locales"],
    )
}

fn numbers<'a>(alloc: Global) -> Result<Arg<'a>, AllocError> {
    Arg::new(alloc, "numbers")
        .value_name("NUMBER")
        .num_args(1..)
        .action(ArgAction::Append)
        .allow_negative_numbers(true)
        .help("Numbers, as -1234567.891; - stands for those of standard input, a line each")
        .required_unless_present("read")?
        .required_unless_present("read-exact")?
        .required_unless_present("field")?
        .required_unless_present("locales")?
        .required_unless_present("lines")
}

// Puts an option after others, where it was made.
fn put<'a>(args: &mut Vec<Arg<'a>>, made: Result<Arg<'a>, AllocError>) -> Result<(), AllocError> {
    match made {
        Ok(arg) => Ok(args.push(arg)?),
        Err(refused) => Err(refused),
    }
}

// Puts those of the tag and the format, in the order in which help lists them; the others follow in theirs.
fn put_forms<'a>(alloc: Global, args: &mut Vec<Arg<'a>>) -> Result<(), AllocError> {
    put(args, numbers(alloc))?;
    put(args, Ok(tag(alloc)))?;
    put(args, Ok(form(alloc)))?;
    put(args, format(alloc))?;
    put(args, scientific(alloc))?;
    put(args, engineering(alloc))
}

// Puts those of amounts, percents and permilles.
fn put_units<'a>(alloc: Global, args: &mut Vec<Arg<'a>>) -> Result<(), AllocError> {
    put(args, currency(alloc))?;
    put(args, accounting(alloc))?;
    put(args, code(alloc))?;
    put(args, cash(alloc))?;
    put(args, percent(alloc))?;
    put(args, permille(alloc))
}

// Puts those of groups, signs and digits of a fraction.
fn put_digits<'a>(alloc: Global, args: &mut Vec<Arg<'a>>) -> Result<(), AllocError> {
    put(args, grouping(alloc))?;
    put(args, sign(alloc))?;
    put(args, digits(alloc))?;
    put(args, max_digits(alloc))?;
    put(args, min_digits(alloc))
}

// Puts those of significant digits and of roundings, and those of plural categories.
fn put_roundings<'a>(alloc: Global, args: &mut Vec<Arg<'a>>) -> Result<(), AllocError> {
    put(args, significant(alloc))?;
    put(args, priority(alloc))?;
    put(args, round(alloc))?;
    put(args, plural(alloc))?;
    put(args, ordinal(alloc))
}

// Puts those of texts that are read, and of fields of tables.
fn put_fields<'a>(alloc: Global, args: &mut Vec<Arg<'a>>) -> Result<(), AllocError> {
    put(args, Ok(read(alloc)))?;
    put(args, Ok(read_exact(alloc)))?;
    put(args, field(alloc))?;
    put(args, read_fields(alloc))
}

// Puts those beside a field.
fn put_tables<'a>(alloc: Global, args: &mut Vec<Arg<'a>>) -> Result<(), AllocError> {
    put(args, delimiter(alloc))?;
    put(args, header(alloc))?;
    put(args, padding(alloc))?;
    put(args, parts(alloc))
}

// Puts those that are left.
fn put_others<'a>(alloc: Global, args: &mut Vec<Arg<'a>>) -> Result<(), AllocError> {
    put(args, Ok(invalid(alloc)))?;
    put(args, Ok(book(alloc)))?;
    put(args, locales(alloc))?;
    put(args, lines(alloc))?;
    put(args, capacity(alloc))
}

// Puts all of them.
fn put_all<'a>(alloc: Global, args: &mut Vec<Arg<'a>>) -> Result<(), AllocError> {
    put_forms(alloc, args)?;
    put_units(alloc, args)?;
    put_digits(alloc, args)?;
    put_roundings(alloc, args)?;
    put_fields(alloc, args)?;
    put_tables(alloc, args)?;
    put_others(alloc, args)
}

// All of them.
fn all_args<'a>(alloc: Global) -> Result<Vec<Arg<'a>>, AllocError> {
    let mut args = Vec::new(alloc);
    match put_all(alloc, &mut args) {
        Ok(()) => Ok(args),
        Err(refused) => {
            drop(args);
            Err(refused)
        }
    }
}

// The command before its options.
fn empty<'a>(alloc: Global) -> Result<Command<'a>, AllocError> {
    Command::new(alloc, "legumeyet")
        .version("2.1 (CLDR 48)")
        .about("Writes numbers as the readers of a locale write them, and reads what they type")
        .after_help(AFTER_HELP)
        .after_long_help(AFTER_LONG_HELP)
        .arg_required_else_help(true)
        .bin_name("legumeyet")
}

/// The command `legumeyet` with its options: [`try_get_matches_from`](clap::Command::try_get_matches_from) reads words by it.
///
/// The version is that of `include/legumeyet.h`, with that of CLDR, of which the tables are. Allocates. `AllocError`: out of memory.
pub fn command<'a>(alloc: Global) -> Result<Command<'a>, AllocError> {
    let args = all_args(alloc)?;
    match empty(alloc) {
        Ok(command) => command.args(args),
        Err(refused) => {
            drop(args);
            Err(refused)
        }
    }
}
