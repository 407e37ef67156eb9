//! The program for given words: its book is read, then its lines are answered.

ghost use Rattle.std.specs.Prelude.{◌≡◌, ◌≤◌, false, true, IfOk, IfErr, OnOk, IsErrOf, IsSome, IsNone};
ghost use Rattle.locale_numbers_lines.specs.Run.{WritesAll, WritesTold, WritesPart, WritesFirst, CountsLines, CountsMade, MayReadOnceAnswered};
ghost use Rattle.locale_numbers_book.specs.Book.{BookTables};
ghost use Rattle.locale_numbers.specs.Answer.{answer_of};
ghost use Rattle.locale_numbers.specs.FormatterKeys.{makes};
ghost use Rattle.locale_numbers.specs.Program.{Says, OfText, OfBook, IsRefusal, IsOfFile, MayCome, IsBeforeLines};

use crate::fault::ProgramFault;
use crate::running::run;
use crate::words::Words;
use locale_numbers_book::{Book, SAMPLE_BOOK, book_from};
use locale_numbers_lines::{ByteReader, ByteWriter, Report, RunError};
use std::alloc::Global;
use std::fs;
use std::io::Read;
use std::rt::Files;

// The file of a book, opened to be read; none where no path is named. It alone calls `rt`, which could
// change files too.
fn opened<F: Files>(rt: &F, path: Option<&str>) -> Result<Option<F::File>, ProgramFault>
    ensures named { IfOk result (λ file. IsNone path.entry → IsNone file) }
    ensures faults { IfErr result (λ fault. IsSome path.entry × IsOfFile fault) }
{
    match path {
        None => Ok(None),
        Some(path) => match fs::open(rt, path) {
            Ok(file) => Ok(Some(file)),
            Err(error) => Err(ProgramFault::of_file(error)),
        },
    }
}

// All bytes of a file.
fn read_file<I: Read + Drop>(alloc: Global, mut file: I) -> Result<Vec<u8>, ProgramFault>
    ensures { IfErr result IsOfFile }
{
    let mut bytes = Vec::new(alloc);
    match file.read_to_end(&mut bytes) {
        Ok(_) => Ok(bytes),
        Err(error) => Err(ProgramFault::of_file(error)),
    }
}

// The sample book.
fn sample_book(alloc: Global) -> Result<Book, ProgramFault>
    ensures says { IfOk result (λ book. Says SAMPLE_BOOK.now book) }
    ensures refused { IfErr result (IsRefusal SAMPLE_BOOK.now) }
{
    match Book::from_json(alloc, SAMPLE_BOOK.as_bytes()) {
        Ok(book) => Ok(book),
        Err(refusal) => Err(ProgramFault::Book(refusal)),
    }
}

// The book that the bytes of a file are.
fn file_book(alloc: Global, bytes: Vec<u8>) -> Result<Book, ProgramFault>
    ensures says { IfOk result (λ book. Says bytes.items book) }
    ensures refused { IfErr result (IsRefusal bytes.items) }
{
    match book_from(alloc, bytes) {
        Ok(book) => Ok(book),
        Err(refusal) => Err(ProgramFault::Book(refusal)),
    }
}

// The book of a file, or the sample book.
fn read_book<I: Read + Drop>(alloc: Global, file: Option<I>) -> Result<Book, ProgramFault>
    ensures says { IfOk result (λ book. OfText SAMPLE_BOOK.now file (λ text. Says text book)) }
    ensures faults { IfErr result (MayCome SAMPLE_BOOK.now file) }
    ensures early { IfErr result IsBeforeLines }
{
    match file {
        None => sample_book(alloc),
        Some(file) => match read_file(alloc, file) {
            Ok(bytes) => file_book(alloc, bytes),
            Err(fault) => Err(fault),
        },
    }
}

// The book that these words name, of which that is the file.
fn named_book<I: Read + Drop>(
    alloc: Global,
    _words: &Words<'_>,
    file: Option<I>,
) -> Result<Book, ProgramFault>
    requires named { IsNone _words.now.book → IsNone file }
    ensures says { IfOk result (λ book. OfText SAMPLE_BOOK.now _words.now.book (λ text. Says text book)) }
    ensures faults { IfErr result (MayCome SAMPLE_BOOK.now _words.now.book) }
    ensures early { IfErr result IsBeforeLines }
{
    read_book(alloc, file)
}

// Answers the lines that `reader` gives by the book that `words` name, of which that is the file, and counts them and
// the formatters made.
fn report<I: Read + Drop, R: ByteReader, W: ByteWriter>(
    alloc: Global,
    words: &Words<'_>,
    file: Option<I>,
    reader: &mut R,
    writer: &mut W,
) -> Result<Report, ProgramFault>
    requires named { IsNone words.now.book → IsNone file }
    requires room { 1 ≤ words.now.capacity }
    requires reader_well { R.failed reader.old ≡ false }
    requires writer_well { W.failed writer.old ≡ false }

    // The reader is read only where all lines that it gave whole are answered by that book.
    requires prompt { (book : BookTables) → OfText SAMPLE_BOOK.now words.now.book (λ text. Says text book) →
        MayReadOnceAnswered R.may_read R.remaining W.contents (answer_of book) reader.old writer.old }

    // Every line is answered by the book that was read.
    ensures output { OnOk result (OfBook SAMPLE_BOOK.now words.now.book (λ book.
        WritesAll (answer_of book) (R.remaining reader.old)
        (W.contents writer.old) (W.contents writer.new))) }
    ensures lines { IfOk result (λ report. CountsLines (R.remaining reader.old) report.lines) }

    // As many formatters are kept as the words say.
    ensures made { IfOk result (λ report. OfBook SAMPLE_BOOK.now words.now.book (λ book.
        CountsMade (makes book words.now.capacity) (R.remaining reader.old) report.made)) }
    ensures stays_well { OnOk result (
        (R.failed reader.new ≡ false) × (W.failed writer.new ≡ false)) }

    // Before the first line only the file and the book are at fault, and nothing is read or written.
    ensures faults { IfErr result (MayCome SAMPLE_BOOK.now words.now.book) }
    ensures untouched { IfErr result (λ fault. IsBeforeLines fault →
        (reader.new ≡ reader.old) × (writer.new ≡ writer.old)) }

    // From the first line on, what a run leaves.
    ensures read { IsErrOf result (ProgramFault.Run RunError.Read) →
        OfBook SAMPLE_BOOK.now words.now.book (λ book.
        WritesTold (answer_of book) (R.remaining reader.old) (R.remaining reader.new)
        (W.contents writer.old) (W.contents writer.new)) }
    ensures reader_failed { IsErrOf result (ProgramFault.Run RunError.Read) → R.failed reader.new ≡ true }
    ensures write { IsErrOf result (ProgramFault.Run RunError.Write) →
        OfBook SAMPLE_BOOK.now words.now.book (λ book.
        WritesPart (answer_of book) (R.remaining reader.old)
        (W.contents writer.old) (W.contents writer.new)) }
    ensures writer_failed { IsErrOf result (ProgramFault.Run RunError.Write) →
        W.failed writer.new ≡ true }
    ensures memory { IsErrOf result (ProgramFault.Run RunError.Memory) →
        OfBook SAMPLE_BOOK.now words.now.book (λ book.
        WritesFirst (answer_of book) (R.remaining reader.old)
        (W.contents writer.old) (W.contents writer.new)) }
    ensures memory_only { IsErrOf result (ProgramFault.Run RunError.Memory) →
        (R.failed reader.new ≡ false) × (W.failed writer.new ≡ false) }
{
    match named_book(alloc, words, file) {
        Ok(book) => {
            let left = run(alloc, &book, words.capacity, reader, writer);
            drop(book);
            match left {
                Ok(report) => Ok(report),
                Err(fault) => Err(ProgramFault::Run(fault)),
            }
        }
        Err(fault) => Err(fault),
    }
}

/// Reads the book that `words` name, and answers the lines that `reader` gives onto `writer`.
///
/// The book is the file at `words.book`, or the sample book where that is `None`; the lines are
/// answered as by [`run`](crate::run), and what that asks of its capacity, reader and writer is asked
/// here too. Without words the line of `ar-EG`, `plain`, `auto`, `keep`, `-`, `1234.5` is answered by
/// `ok`, a tab, `١٬٢٣٤٫٥`. Allocates. Faults come in this order, and up to Book nothing is read or
/// written:
///
/// - File: the file can't be opened, or not be read to its end.
/// - Book: its text is refused, or it was out of memory while it was read.
/// - Run: the reader or the writer failed, or it was out of memory while lines were answered.
///
/// It never returns Usage, which is for [`read_words`](crate::read_words).
pub fn program<F: Files, R: ByteReader, W: ByteWriter>(
    rt: &F,
    alloc: Global,
    words: &Words<'_>,
    reader: &mut R,
    writer: &mut W,
) -> Result<(), ProgramFault>
    requires room { 1 ≤ words.now.capacity }
    requires reader_well { R.failed reader.old ≡ false }
    requires writer_well { W.failed writer.old ≡ false }

    // The reader is read only where all lines that it gave whole are answered by that book.
    requires prompt { (book : BookTables) → OfText SAMPLE_BOOK.now words.now.book (λ text. Says text book) →
        MayReadOnceAnswered R.may_read R.remaining W.contents (answer_of book) reader.old writer.old }

    // Every line is answered by the book that was read.
    ensures output { OnOk result (OfBook SAMPLE_BOOK.now words.now.book (λ book.
        WritesAll (answer_of book) (R.remaining reader.old)
        (W.contents writer.old) (W.contents writer.new))) }
    ensures stays_well { OnOk result (
        (R.failed reader.new ≡ false) × (W.failed writer.new ≡ false)) }

    // Before the first line only the file and the book are at fault, and nothing is read or written.
    ensures faults { IfErr result (MayCome SAMPLE_BOOK.now words.now.book) }
    ensures untouched { IfErr result (λ fault. IsBeforeLines fault →
        (reader.new ≡ reader.old) × (writer.new ≡ writer.old)) }

    // From the first line on, what a run leaves.
    ensures read { IsErrOf result (ProgramFault.Run RunError.Read) →
        OfBook SAMPLE_BOOK.now words.now.book (λ book.
        WritesTold (answer_of book) (R.remaining reader.old) (R.remaining reader.new)
        (W.contents writer.old) (W.contents writer.new)) }
    ensures reader_failed { IsErrOf result (ProgramFault.Run RunError.Read) → R.failed reader.new ≡ true }
    ensures write { IsErrOf result (ProgramFault.Run RunError.Write) →
        OfBook SAMPLE_BOOK.now words.now.book (λ book.
        WritesPart (answer_of book) (R.remaining reader.old)
        (W.contents writer.old) (W.contents writer.new)) }
    ensures writer_failed { IsErrOf result (ProgramFault.Run RunError.Write) →
        W.failed writer.new ≡ true }
    ensures memory { IsErrOf result (ProgramFault.Run RunError.Memory) →
        OfBook SAMPLE_BOOK.now words.now.book (λ book.
        WritesFirst (answer_of book) (R.remaining reader.old)
        (W.contents writer.old) (W.contents writer.new)) }
    ensures memory_only { IsErrOf result (ProgramFault.Run RunError.Memory) →
        (R.failed reader.new ≡ false) × (W.failed writer.new ≡ false) }
{
    match opened(rt, words.book) {
        Ok(file) => match report(alloc, words, file, reader, writer) {
            Ok(_) => Ok(()),
            Err(fault) => Err(fault),
        },
        Err(fault) => Err(fault),
    }
}
