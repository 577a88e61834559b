// A file that was refused, read once more for what a person is told of it.

use csv::{ByteRecord, Reader, ReaderBuilder};
use std::alloc::Global;
use std::fs;
use std::io::Read;
use std::rt::Files;

// A header that is longer isn't read again.
const HEADER_BYTES: u64 = 65536;

// The header of a file, which has no field where the file has no record. A pipe gives its bytes once, so only a regular file
// is read.
pub(crate) fn header_of<F: Files + AllocGlobal>(files: &F, name: &str) -> Option<ByteRecord> {
    let size = size_of(files, name)?;
    let file = fs::open(files, name).ok()?;
    let mut reader = reader_of(files.alloc(), file.take(HEADER_BYTES));
    let mut header = ByteRecord::new(files.alloc());
    if !reader.read_byte_record(&mut header).ok()? {
        return Some(header);
    }
    // Where nothing follows it in so many bytes, it may have been cut.
    let mut next = ByteRecord::new(files.alloc());
    if size >= HEADER_BYTES && !reader.read_byte_record(&mut next).ok()? {
        return None;
    }
    Some(header)
}

// A record with the header of its file.
#[derive(Drop)]
pub(crate) struct Found {
    pub(crate) header: ByteRecord,
    pub(crate) record: ByteRecord,
}

// The record with this number, where the header has 0. No more than a record and a piece of the file is in memory.
pub(crate) fn record_of<F: Files + AllocGlobal>(
    files: &F,
    name: &str,
    number: u64,
) -> Option<Found> {
    size_of(files, name)?;
    let mut reader = reader_of(files.alloc(), fs::open(files, name).ok()?);
    let mut header = ByteRecord::new(files.alloc());
    let mut record = ByteRecord::new(files.alloc());
    if !reader.read_byte_record(&mut header).ok()? {
        return None;
    }
    for _ in 0..number {
        if !reader.read_byte_record(&mut record).ok()? {
            return None;
        }
    }
    Some(Found { header, record })
}

// The bytes of a regular file.
fn size_of<F: Files>(files: &F, name: &str) -> Option<u64> {
    let data = fs::metadata(files, name).ok()?;
    if data.is_file() {
        Some(data.len())
    } else {
        None
    }
}

// Records may be of any width, as in the run.
fn reader_of<R: Read>(alloc: Global, bytes: R) -> Reader<R> {
    ReaderBuilder::new()
        .has_headers(false)
        .flexible(true)
        .from_reader(alloc, bytes)
}
