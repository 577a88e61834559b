// The records of one piece, one after the other.

ghost use Rattle.std.specs.Prelude.{◌≡◌, ◌∷◌, [], IfOk, true, false};
ghost use Rattle.csv.specs.Records.{fields_of};
ghost use Rattle.csv_edge.specs.Inside.{IsSound, records_behind};
ghost use Rattle.csv_edge.specs.Typed.{records_in};

use csv::{ByteRecord, Reader, ReaderBuilder};
use row_codec::Memory;
use std::alloc::Global;
use std::io::Cursor;

/// Reads the records of a piece, which stands in memory.
pub(crate) type PieceReader = Reader<Cursor<Vec<u8>>>;

/// A reader at the front of a piece.
pub(crate) fn reader_of(alloc: Global, piece: Vec<u8>) -> PieceReader
    ensures sound { IsSound result }
    ensures records { records_behind result ≡ records_in piece.items }
{
    ReaderBuilder::new()
        .has_headers(false)
        .flexible(true)
        .from_reader(alloc, Cursor::new(piece))
}

/// Reads the next record of the piece, or answers `false` behind the last one.
///
/// Records may be of any width, and a piece in memory has no faults: an error is want of memory,
/// and then the reader has nothing more.
pub(crate) fn read_record(
    alloc: Global,
    reader: &mut PieceReader,
    byte_record: &mut ByteRecord,
) -> Result<bool, Memory>
    requires { IsSound reader.old }
    ensures sound { IsSound reader.new }
    ensures more { IfOk result (λ found. found ≡ true → records_behind reader.old ≡ fields_of byte_record.new ∷ records_behind reader.new) }
    ensures end { IfOk result (λ found. found ≡ false → records_behind reader.old ≡ []) }
{
    let Ok(found) = reader.read_byte_record(byte_record) else {
        let_go(alloc, reader);
        return Err(Memory);
    };
    Ok(found)
}

// Lets the piece go. This stands apart since a reader is large, and room for one more would be zeroed
// at each record.
#[cold]
#[inline(never)]
fn let_go(alloc: Global, reader: &mut PieceReader)
    ensures { IsSound reader.new }
{
    *reader = reader_of(alloc, Vec::new(alloc));
}
