//! Laws: each is the contract of a function that does nothing.
ghost use Rattle.std.specs.Cmp.Lexicographic.{slice_cmp};
ghost use Rattle.std.specs.Ordering.{nat_cmp};
ghost use Rattle.row_codec.specs.Order.{path_order};
ghost use Rattle.group_rows.specs.Apart.{RowsInAnyOrder, StandTogether, StandsForItsRows};
ghost use Rattle.group_rows.specs.Bounds.{ExtremesAreTrue, SumsAreTrue};
ghost use Rattle.group_rows.specs.Combining.{
  AreNoMore,
  GiveGroups,
  GroupPerKey,
  InAnyOrder,
  InAnyParts,
  KeysOnce,
};
ghost use Rattle.group_rows.specs.Gathered.{AreGathered, GatheredSumIsTrue};
ghost use Rattle.group_rows.specs.Kept.{DistinctStay, KeysWeighNoMore, OrderedStay};
ghost use Rattle.group_rows.specs.Keyed.{IsExactOrder};
ghost use Rattle.group_rows.specs.Lengths.{FitsWeight, LengthByKey, StayAsLong};
ghost use Rattle.group_rows.specs.Ordered.{FirstSuffice, OrderedAreGroups, PutsInOrder};
ghost use Rattle.group_rows.specs.Rows.{EmitsGroupRow, KeyTellsValues, ReadsBack};
ghost use Rattle.group_rows.specs.Splitting.{OnePath, PartsByCut, PartsByPath, PathGrows};
ghost use Rattle.group_rows.specs.Standing.{StandThroughout};
ghost use Rattle.group_rows.specs.Tables.{IntoEntry, NewEntry};

/// The two orders of keys of which the other laws speak: by path, and by bytes.
pub fn law_orders()
    ensures path { IsExactOrder path_order }
    ensures bytes { IsExactOrder (slice_cmp nat_cmp) }
{}

/// There is one group for each key of the rows, in order; and the partial rows of the rows, combined,
/// are these groups.
pub fn law_gives_groups()
    ensures keys { GroupPerKey }
    ensures groups { GiveGroups }
{}

/// Partial rows may be combined in any order, and any part of them first.
pub fn law_any_parts()
    ensures order { InAnyOrder }
    ensures parts { InAnyParts }
{}

/// Combining gives each distinct key once, and no more partial rows than there were.
pub fn law_fewer()
    ensures keys { KeysOnce }
    ensures no_more { AreNoMore }
{}

/// A table that takes a partial row in combines to what it would with that row beside it.
pub fn law_tables()
    ensures entry { IntoEntry }
    ensures new_entry { NewEntry }
{}

/// An operator's table and streams stand for the rows that it was fed, after each of its steps.
pub fn law_stands()
    ensures law { StandThroughout }
{}

/// Rows may be grouped apart, in any order, and the groups of some may be taken in as partial rows beside others.
pub fn law_apart()
    ensures together { StandTogether }
    ensures group { StandsForItsRows }
    ensures order { RowsInAnyOrder }
{}

/// What combining keeps: entries in order, distinct keys, and the sum of any weights of keys.
pub fn law_kept()
    ensures ordered { OrderedStay }
    ensures distinct { DistinctStay }
    ensures weight { KeysWeighNoMore }
{}

/// Partial rows that are split by their keys are combined part by part.
pub fn law_splits()
    ensures cut { PartsByCut }
    ensures path { PartsByPath }
    ensures grows { PathGrows }
    ensures one_path { OnePath }
{}

/// A table in order takes a partial row in at its place; a limit keeps its first entries.
pub fn law_ordered()
    ensures put { PutsInOrder }
    ensures first { FirstSuffice }
    ensures groups { OrderedAreGroups }
{}

/// Partial rows of which no rows are known combine number by number.
pub fn law_gathered()
    ensures gathered { AreGathered }
    ensures sum { GatheredSumIsTrue }
{}

/// Where counts and sums are the true ones, and what a least and a greatest number are.
pub fn law_true()
    ensures sums { SumsAreTrue }
    ensures extremes { ExtremesAreTrue }
{}

/// How many bytes a partial row has.
pub fn law_weight()
    ensures fits { FitsWeight }
    ensures same { StayAsLong }
    ensures by_key { LengthByKey }
{}

/// A partial row is read back from its values, a key tells its values, and an entry gives the row of
/// its group.
pub fn law_rows_back()
    ensures back { ReadsBack }
    ensures values { KeyTellsValues }
    ensures emits { EmitsGroupRow }
{}
