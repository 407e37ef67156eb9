//! Laws on tables: each function says one, and does nothing.

ghost use Rattle.legumeyet_columns.specs.Laws.{FieldsAreCut, FieldsAreThePieces, QuotedIsRead, RecordsAreCut, RecordsAreThePieces};

/// The records of bytes, one after another, are these bytes: `a`, a line feed and `b` are cut into `a` with its line feed, and
/// `b`.
pub fn records_are_the_pieces()
    ensures { RecordsAreThePieces }
{}

/// The fields of bytes, with delimiters between them, are these bytes: `a,b` is cut into `a` and `b`.
pub fn fields_are_the_pieces()
    ensures { FieldsAreThePieces }
{}

/// Fields as RFC 4180 has them, with delimiters between them, are cut into these fields: `"a,b",c` into `"a,b"` and `c`.
pub fn fields_are_cut()
    ensures { FieldsAreCut }
{}

/// With a line feed after them they are a record, whatever follows.
pub fn records_are_cut()
    ensures { RecordsAreCut }
{}

/// A text that is put in quotes is read as it was: `a"b` of `"a""b"`.
pub fn quoted_is_read()
    ensures { QuotedIsRead }
{}
