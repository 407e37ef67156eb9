//! Laws of tables. No call is made: each clause is the law.
ghost use Rattle.icu_decimal_patterns.specs.TableLaws.{OneTableIsMade, OneTableIsSaid};

/// Types make one table at most, and a JSON value says one at most: `[[3,3,[["other",["","K"]]]]]` says the table with
/// only `K` at type 3. So what `to_json` makes of a table is read back as an equal table, unless it is out of memory.
pub fn tables_are_one()
    ensures made { OneTableIsMade }
    ensures said { OneTableIsSaid }
{}
