//! The whole program, from the arguments that its runtime has.

ghost use Rattle.std.specs.Prelude.{◌≡◌, ◌≤◌, ◌⊎◌, ◌↔◌, ℕ, List, false, true, None, Some, Err, map, option_map, string_bytes, IfOk, IfErr, OnOk, IsErrOf};
ghost use Rattle.std.specs.IoError.{error_kind};
ghost use Rattle.std.specs.declared.io.ErrorKind.TheVariants.{OutOfMemory};
ghost use Rattle.locale_numbers_lines.specs.Run.{WritesAll, WritesTold, WritesPart, WritesFirst, MayReadOnceAnswered};
ghost use Rattle.locale_numbers_book.specs.Book.{BookTables};
ghost use Rattle.locale_numbers.specs.Answer.{answer_of};
ghost use Rattle.locale_numbers.specs.Program.{Says, OfSomeBook, IsOfWords, MayStart, IsBeforeLines};
ghost use Rattle.locale_numbers.specs.Words.{words_said};

use crate::fault::ProgramFault;
use crate::program_run::program;
use crate::words::{Words, read_words};
use locale_numbers_lines::{ByteReader, ByteWriter, RunError};
use std::alloc::Global;
use std::env::{self, Env};
use std::io::{self, ErrorKind};
use std::rt::Files;

// The fault that words are which can't be copied: out of memory, or one that is not UTF-8.
fn fault_of(error: io::Error) -> ProgramFault
    ensures memory { error_kind error ≡ OutOfMemory → result ≡ ProgramFault.Run RunError.Memory }
    ensures usage { ¬ (error_kind error ≡ OutOfMemory) → result ≡ ProgramFault.Usage }
{
    if error.kind() == ErrorKind::OutOfMemory {
        ProgramFault::Run(RunError::Memory)
    } else {
        ProgramFault::Usage
    }
}

// The words after the program's own name.
fn own_words<H: Env + AllocGlobal>(rt: &H) -> Result<Vec<String>, ProgramFault>
    ensures { IfErr result IsOfWords }
{
    let all = match env::args(rt) {
        Ok(all) => all,
        Err(error) => return Err(fault_of(error)),
    };
    let mut texts = Vec::new(rt.alloc());
    for word in all.skip(1) {
        if texts.push(word).is_err() {
            return Err(ProgramFault::Run(RunError::Memory));
        }
    }
    Ok(texts)
}

// What the words say.
fn words_in(texts: &[String]) -> Result<Words<'_>, ProgramFault>
    ensures value { IfOk result (λ read. words_said (map (λ text. string_bytes text) texts.now)
        ≡ Some (record { book = option_map (λ book. book.now) read.book; capacity = read.capacity })) }
    ensures usage { IfErr result (λ fault. (fault ≡ ProgramFault.Usage)
        × (words_said (map (λ text. string_bytes text) texts.now) ≡ None)) }
    ensures room { IfOk result (λ read. 1 ≤ read.capacity) }
{
    match texts {
        [] => read_words(&[]),
        [book] => read_words(&[book.as_str()]),
        [book, capacity] => read_words(&[book.as_str(), capacity.as_str()]),
        _ => Err(ProgramFault::Usage),
    }
}

// Answers the lines that `reader` gives onto `writer`, as these words say.
fn start_with<F: Files, R: ByteReader, W: ByteWriter>(
    rt: &F,
    alloc: Global,
    texts: &[String],
    reader: &mut R,
    writer: &mut W,
) -> Result<(), ProgramFault>
    requires reader_well { R.failed reader.old ≡ false }
    requires writer_well { W.failed writer.old ≡ false }

    // The reader is read only where all lines that it gave whole are answered by the book that was read.
    requires prompt { (book : BookTables) (text : List ℕ) → Says text book →
        MayReadOnceAnswered R.may_read R.remaining W.contents (answer_of book) reader.old writer.old }

    // No fault of a file, of a book or of the run is told before one of the words.
    ensures usage { (result ≡ Err ProgramFault.Usage)
        ↔ (words_said (map (λ text. string_bytes text) texts.now) ≡ None) }
    ensures output { OnOk result (OfSomeBook (λ book.
        WritesAll (answer_of book) (R.remaining reader.old)
        (W.contents writer.old) (W.contents writer.new))) }
    ensures stays_well { OnOk result (
        (R.failed reader.new ≡ false) × (W.failed writer.new ≡ false)) }

    // A book is refused for what its text is.
    ensures faults { IfErr result MayStart }
    ensures untouched { IfErr result (λ fault. IsBeforeLines fault →
        (reader.new ≡ reader.old) × (writer.new ≡ writer.old)) }
    ensures read { IsErrOf result (ProgramFault.Run RunError.Read) → OfSomeBook (λ book.
        WritesTold (answer_of book) (R.remaining reader.old) (R.remaining reader.new)
        (W.contents writer.old) (W.contents writer.new)) }
    ensures reader_failed { IsErrOf result (ProgramFault.Run RunError.Read) → R.failed reader.new ≡ true }
    ensures write { IsErrOf result (ProgramFault.Run RunError.Write) → OfSomeBook (λ book.
        WritesPart (answer_of book) (R.remaining reader.old)
        (W.contents writer.old) (W.contents writer.new)) }
    ensures writer_failed { IsErrOf result (ProgramFault.Run RunError.Write) →
        W.failed writer.new ≡ true }

    ensures memory { IsErrOf result (ProgramFault.Run RunError.Memory) → OfSomeBook (λ book.
        WritesFirst (answer_of book) (R.remaining reader.old)
        (W.contents writer.old) (W.contents writer.new)) }
    ensures memory_only { IsErrOf result (ProgramFault.Run RunError.Memory) →
        (R.failed reader.new ≡ false) × (W.failed writer.new ≡ false) }
{
    match words_in(texts) {
        Ok(words) => program(rt, alloc, &words, reader, writer),
        Err(fault) => Err(fault),
    }
}

/// Answers the lines that `reader` gives onto `writer`, as the words say that the program was started
/// with: the whole program, but for its standard streams and its status.
///
/// `rt` is the runtime that `main` has; its words are read by [`read_words`], and its book by
/// [`program`](crate::program). No words ask for the sample book: the line of `ar-EG`, `plain`, `auto`, `keep`, `-`,
/// `1234.5` is answered by `ok`, a tab, `١٬٢٣٤٫٥`. Allocates. Of neither `reader` nor `writer` a call may have
/// failed before. Faults come in this order, and up to Book nothing is read or written:
///
/// - Usage: the words are not those of [`read_words`], or one is not UTF-8.
/// - File: the book's file can't be opened, or not be read to its end.
/// - Book: its text is refused, or it was out of memory while it was read.
/// - Run: the reader or the writer failed, or it was out of memory.
///
/// Of the words that a program is given the runtime tells nothing, so the clauses leave open which book it is: that is
/// said of [`read_words`] and of [`program`](crate::program).
pub fn start<H: Env + AllocGlobal + Files, R: ByteReader, W: ByteWriter>(
    rt: &H,
    reader: &mut R,
    writer: &mut W,
) -> Result<(), ProgramFault>
    requires reader_well { R.failed reader.old ≡ false }
    requires writer_well { W.failed writer.old ≡ false }

    // The reader is read only where all lines that it gave whole are answered by the book that was read.
    requires prompt { (book : BookTables) (text : List ℕ) → Says text book →
        MayReadOnceAnswered R.may_read R.remaining W.contents (answer_of book) reader.old writer.old }

    ensures output { OnOk result (OfSomeBook (λ book.
        WritesAll (answer_of book) (R.remaining reader.old)
        (W.contents writer.old) (W.contents writer.new))) }
    ensures stays_well { OnOk result (
        (R.failed reader.new ≡ false) × (W.failed writer.new ≡ false)) }

    // A book is refused for what its text is.
    ensures faults { IfErr result MayStart }
    ensures untouched { IfErr result (λ fault. IsBeforeLines fault →
        (reader.new ≡ reader.old) × (writer.new ≡ writer.old)) }
    ensures read { IsErrOf result (ProgramFault.Run RunError.Read) → OfSomeBook (λ book.
        WritesTold (answer_of book) (R.remaining reader.old) (R.remaining reader.new)
        (W.contents writer.old) (W.contents writer.new)) }
    ensures reader_failed { IsErrOf result (ProgramFault.Run RunError.Read) → R.failed reader.new ≡ true }
    ensures write { IsErrOf result (ProgramFault.Run RunError.Write) → OfSomeBook (λ book.
        WritesPart (answer_of book) (R.remaining reader.old)
        (W.contents writer.old) (W.contents writer.new)) }
    ensures writer_failed { IsErrOf result (ProgramFault.Run RunError.Write) →
        W.failed writer.new ≡ true }

    // Memory may be refused for the words too.
    ensures memory { IsErrOf result (ProgramFault.Run RunError.Memory) →
        ((reader.new ≡ reader.old) × (writer.new ≡ writer.old)) ⊎ OfSomeBook (λ book.
        WritesFirst (answer_of book) (R.remaining reader.old)
        (W.contents writer.old) (W.contents writer.new)) }
    ensures memory_only { IsErrOf result (ProgramFault.Run RunError.Memory) →
        (R.failed reader.new ≡ false) × (W.failed writer.new ≡ false) }
{
    match own_words(rt) {
        Ok(texts) => start_with(rt, rt.alloc(), &texts, reader, writer),
        Err(fault) => Err(fault),
    }
}
