//! Laws on lines and outputs: each function says one, and does nothing.

ghost use Rattle.locale_numbers_lines.specs.Laws.{LinesAreThePieces, WholeLinesAreThePieces, EachInputSplits, OutputsJoin};

/// Bytes that are some lines, each ended by a line feed, and a rest without one, have just these
/// lines, and the rest for a last one where it is not empty. `a`, two line feeds and `b` have the
/// lines `a`, an empty one, and `b`.
pub fn lines_are_the_pieces()
    ensures { LinesAreThePieces }
{}

/// The whole lines of such bytes are those that a line feed ends: of `a`, two line feeds and `b`
/// they are `a` and an empty one.
pub fn whole_lines_are_the_pieces()
    ensures { WholeLinesAreThePieces }
{}

/// Any bytes can be cut so: `a`, a line feed and `b` into the line `a` and the rest `b`.
pub fn each_input_splits()
    ensures { EachInputSplits }
{}

/// Of two inputs joined, of which the first ends with a line feed, the output is the two outputs
/// joined. In upper case, `one`, line feed and `two` give `ONE`, line feed, and then `TWO`, line
/// feed.
pub fn outputs_join()
    ensures { OutputsJoin }
{}
