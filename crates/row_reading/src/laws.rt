//! Laws of rows and their bytes: each is a clause of a function that does nothing.
ghost use Rattle.row_reading.specs.ReadingLaws.{SpelledIsRow, ValuesBack};

/// What a row's bytes say is the row, and they are a row of its kinds.
pub fn law_rows_back()
    ensures values { ValuesBack }
    ensures rows { SpelledIsRow }
{}
