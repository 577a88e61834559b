// Where the declared columns stand in a header.

ghost use Rattle.std.specs.Prelude.{◌≡◌, IfOk, option_map, count_by, position, bytes_eq};
ghost use Rattle.csv.specs.Records.{fields_of};
ghost use Rattle.csv_edge.specs.Typed.{only_place, places_of};

use crate::row::field_of;
use csv::ByteRecord;
use row_codec::{Bytes, Column, Kind, Memory};
use std::alloc::Global;

/// A declared column, and the place of its field in each record.
#[derive(Clone, Copy)]
pub(crate) struct Placed {
    pub(crate) place: usize,
    pub(crate) kind: Kind,
}

/// The columns with their places, or `None` where one's name does not stand in the header once.
pub(crate) fn places(
    alloc: Global,
    header: &ByteRecord,
    columns: &[Column],
) -> Result<Option<Vec<Placed>>, Memory>
    ensures { IfOk result (λ o. option_map (λ v. v.items) o ≡ places_of (fields_of header.now) columns.now) }
{
    let names = copied_fields(alloc, header)?;
    let mut placed = Vec::with_capacity(alloc, columns.len())?;
    for column in columns {
        let Some(place) = only_place_of(&names, &column.name) else {
            return Ok(None);
        };
        placed.push(Placed {
            place,
            kind: column.kind,
        })?;
    }
    Ok(Some(placed))
}

// The place of a name that stands in the header exactly once.
fn only_place_of(header: &[Bytes], name: &Bytes) -> Option<usize>
    ensures { result ≡ only_place header.now name.now }
{
    if times(header, name) == 1 {
        first_place(header, name)
    } else {
        None
    }
}

fn times(header: &[Bytes], name: &Bytes) -> usize
    ensures { result ≡ count_by (bytes_eq name.now) header.now }
{
    header.iter().filter(|field| *name == **field).count()
}

fn first_place(header: &[Bytes], name: &Bytes) -> Option<usize>
    ensures { result ≡ position (bytes_eq name.now) header.now }
{
    header.iter().position(|field| *name == *field)
}

// The fields of a record, copied.
fn copied_fields(alloc: Global, found: &ByteRecord) -> Result<Vec<Bytes>, Memory>
    ensures { IfOk result (λ fields. fields.items ≡ fields_of found.now) }
{
    let mut fields = Vec::with_capacity(alloc, found.len())?;
    for at in 0..found.len() {
        fields.push(Bytes::of(alloc, field_of(found, at))?)?;
    }
    Ok(fields)
}
