//! Laws: each is the contract of a function that does nothing.
ghost use Rattle.fragments.specs.Rows.{EvenIsPermutation, RowsWeighAsMuch};

/// Where batches were dealt, so were their rows: each row went to one of the feeders as often as it was given. Where rows can be told
/// apart, those of all feeders together are a permutation of those that were given.
pub fn law_rows<T, Row>()
    ensures rows { RowsWeighAsMuch T Row }
    ensures permuted { EvenIsPermutation Row }
{}
