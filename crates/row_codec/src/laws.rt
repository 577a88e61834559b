//! Laws of the formats: each is the contract of a function that does nothing.

ghost use Rattle.row_codec.specs.RowLaws.{RowBack};

/// What is read where a row is spelled is that row, whatever bytes follow it.
pub fn law_row_back()
    ensures law { RowBack }
{}
