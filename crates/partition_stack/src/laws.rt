//! Laws of partitions: each is the contract of a function that does nothing.
ghost use Rattle.partition_stack.specs.Laws.{AllFewInAll, FewPartitions, OthersLeaveOwned, OwnedStay, PagesAreFew, RoomForEach, RoomStays, SixteenCome, SlotsSuffice, TopGoes, WantComesLate};

use tuple_stream::law_few_pages;

/// A stack has at most 272 partitions.
pub fn law_few_partitions()
    ensures law { FewPartitions }
{}

/// Where a client has room from a place on, each partition from there on has room for a page, and calls of these keep it.
pub fn law_room()
    ensures each { RoomForEach }
    ensures stays { RoomStays }
{}

/// A client's streams stay all that it has, over their own calls and over those of other clients, which leave their rows.
pub fn law_owned()
    ensures own { OwnedStay }
    ensures others { OthersLeaveOwned }
{}

/// Partitions without rows may come on top, and go from there: what the client has and what the others show stays.
pub fn law_top()
    ensures come { SixteenCome }
    ensures goes { TopGoes }
{}

/// How many pages partitions have together, by their rows; and with slots for one page more than there are, none is
/// lacking: so want of slots comes only where there are fewer.
pub fn law_scratch()
    ensures few { AllFewInAll }
    ensures slots { SlotsSuffice }
    ensures pages { PagesAreFew }
    ensures want { WantComesLate }
{
    law_few_pages();
}
