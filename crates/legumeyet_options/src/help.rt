//! What help says after the options.

/// The end of `legumeyet -h`.
pub const AFTER_HELP: &str =
    "Example: legumeyet --tag de 1234567.891 prints 1.234.567,891. --help says more.";

/// The end of `legumeyet --help`: tags, numbers, parts, lines, statuses, examples.
pub const AFTER_LONG_HELP: &str = "\
Tags:
  --tag takes a locale tag, as de or ar-EG-u-nu-thai, or the name of a locale, as LANG and setlocale
  have it: de_DE is taken as de-DE, what follows a dot or an at sign is left out, as in de_DE.UTF-8,
  and C and POSIX are taken as en. Without --tag, or with no TAG after it, the name is that of the
  environment: of LC_ALL, LC_NUMERIC or LANG, the first that is not empty, else C. Put -- between
  --tag without a TAG and a number. The tag of a line of --lines is a locale tag: write de-DE, not
  de_DE.

Numbers:
  A number is written as 1234567.891, -0.5 or 1.5e6; for exact-short and exact-long as 1.20c6, which
  is 1.20 million; for --form read and read-lenient it is a text, as 1.234.567,891. Words after --
  are no options: -- -1.20c6. With - the numbers are those of standard input, a line each; spaces,
  tabs and a carriage return around one are left out.

Refused numbers:
  A number or a text that is refused gets a line on standard error that says why, and the others are
  written. In place of a line of - an empty line is written, so that the lines stay beside those of
  the input; in place of a word nothing is. --invalid says something else for both: empty, an empty
  line; keep, the text as it is; skip, nothing; abort, nothing, and nothing after it.

Fields:
  --field 3 writes the third field of each record of standard input anew, as --tag and the options of
  numbers say, or a skeleton after the last equals sign of its word: --field share=percent. All else
  stays as it is, to the byte. Records are those of CSV: lines, with commas between the fields, and a
  field that begins with a quote may have commas, line feeds and doubled quotes up to the quote that
  ends it. A field that can't stand without quotes is put into them. With --delimiter tab nothing is in
  quotes. A blank field stays blank. A refused field stays as it is, or --invalid says something else:
  empty, an empty field; skip, the record goes; abort, it goes and all after it. A field of digits is a
  number; any other is a name, in the first record. --field 3=plural and --field 3=ordinal write plural
  categories, --field 3=plural::.00 those of numbers in the format of a skeleton.

Reading:
  --read takes what people type: with all separators between groups or with none, with spaces around
  it, with the digits of the locale or, where the locale has others, 0 to 9. Nothing is guessed: 1.23
  is no number under de. --read-exact takes a text only as it is written under the tag and the
  grouping, so that each number has one text: for texts that a program wrote. In scientific notation
  only --read-exact reads.

Money and percents:
  --currency EUR writes an amount: 1.234,50 € under de. The code is three capitals; one that the book
  does not know is written by itself. The amount is rounded to the digits of the currency, half to
  even, or with --cash to what is paid in cash, or as an option of digits says. --accounting is for
  accounts: ($5.00). --code writes EUR in place of €. --percent writes a number as it is given: 12.5 is
  12.5%, with --permille 12.5‰. With any of these --read takes a text with the unit on either side,
  with its code or without.

Digits:
  --digits 2 shows two digits after the point; --max-digits 2 two at most, and none that is not
  needed; --min-digits 2 two at least. The last two may be given together. --significant 3 shows three
  digits from the first one that is not zero on, and --significant 1-3 three at most; beside --digits or
  --max-digits --priority more takes what shows more digits, and less what shows fewer. They round half
  to even. With --form short and long they are the digits of what is shown, 1.23M by --max-digits 2,
  and --round rounds the number before. With --scientific and --engineering they and --round are for
  what is before the exponent, 1.23E6, which without them has all digits of the number.
  --round -2 rounds to hundredths and shows both digits, 0 rounds to whole numbers, 3 to thousands. A
  mode may follow, and then an increment: -2,floor and -2,half-even,5. The modes are expand, trunc,
  ceil, floor, half-expand, half-trunc, half-ceil, half-floor and half-even, the increments 1, 2, 5, 10,
  20, 25, 50, 100, 200, 250, 500, 1000, 2000, 2500 and 5000; without them it is half-even and 1. Under a
  position above 0 without a mode a number with a fraction is refused: --round 2 rounds to hundreds, and
  --digits 2 may be meant. Exact forms and texts that are read are not rounded.

Plural categories:
  --plural prints, in place of each number, its plural category in the language of the tag: zero, one,
  two, few, many or other. It is that of the number as it would be written: after --digits and the like,
  and of a compact or scientific number by what is shown. --ordinal prints that of an ordinal number, as
  of 2nd. Neither goes with exact forms and with texts that are read.

Skeletons:
  --format takes a number skeleton, as ICU's message formatters have it behind ::, 'currency/EUR .00'
  or 'compact-short sign-always'. Zeros that the number has in front, or at the end of its fraction,
  are shown only where it asks for them. The texts of --read and --read-exact have its unit.

Lines:
  A line of --lines has six fields with tabs between: tag, form, grouping, sign, rounding and number.
  The first five have the words of the options. Further forms are scientific and engineering; percent,
  permille and, of amounts in euros, currency-EUR, accounting-EUR and code-EUR, each with read- or
  read-lenient- before it where a text is read; and ::SKELETON. plural and ordinal tell plural
  categories, range-plural that of a range as 1..5, each with ::SKELETON behind it or without. The
  rounding is -, cash, or all three words of --round, in which f0-2 is two digits at most, or
  s1-3,half-even for three significant ones at most; with - only amounts are rounded, to the digits of
  their currency. The answer to a line is ok, a tab and the text, for short, long, scientific and
  engineering also a tab and the value that is shown; or err, a tab and the first of these words that
  applies:

    shape        the line does not have six fields of known words
    tag          the tag is no locale tag
    number       the text is no decimal number
    limit        the number has a digit or an exponent beyond magnitudes -32768 to 32767
    table        the book has no tables for the tag
    range        the value shown, or an exact form, reaches beyond these magnitudes
    exponent     numbers of this magnitude are shown with another exponent
    unreadable   two numbers may have one text under the tag's symbols
    not-written  no number is written so under this tag and grouping, nor typed so

Statuses:
  0  all is written; of --lines, each line has an answer, which may be err
  1  a number or a text is refused
  2  the words are wrong
  3  the file of --book can't be read
  4  the file of --book is no book
  5  standard input or output failed
  6  out of memory

Examples:
  $ legumeyet --tag de 1234567.891
  1.234.567,891

  $ legumeyet --tag de --form long 1234567
  1,2 Millionen

  $ legumeyet --tag de --form long --max-digits 2 1234567
  1,23 Millionen

  $ legumeyet --tag en --scientific 1234567.891 0.00012
  1.234567891E6
  1.2E-4

  $ legumeyet --tag de --currency EUR 1234.5
  1.234,50 €

  $ legumeyet --tag pl --plural 5 1.5
  many
  other

  $ legumeyet --tag de --max-digits 2 1234.5 0.125
  1.234,5
  0,12

  $ legumeyet --tag de --digits 2 --parts -1234.567
  -1.234,57
    minusSign -
    integer 1.234
    group .
    decimal ,
    fraction 57

  $ legumeyet --tag de --read 1234567,891 --read-exact 1.234.567,891
  1234567.891
  1234567.891

  $ printf '1234.5\\n-7\\n' | legumeyet --tag hi-u-nu-deva -
  १,२३४.५
  -७

  $ printf 'amount\\n1234.5\\n' | legumeyet --tag de --invalid keep - 2>/dev/null
  amount
  1.234,5

  $ printf 'article,amount\\ntea,1234.5\\n' | legumeyet --tag de --currency EUR --field amount
  article,amount
  tea,\"1.234,50 €\"

  $ printf 'de\\tshort\\tauto\\tkeep\\t-\\t1234567\\n' | legumeyet --lines
  ok\t1,2 Mio.\t1.2c6";
