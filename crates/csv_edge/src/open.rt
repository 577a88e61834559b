// An input that is being read.

ghost use Rattle.std.specs.Prelude.{◌≡◌, ◌≤◌, ◌<◌, ◌+◌, ◌-◌, ◌⊎◌, Some, length, map, option_map, true, false, IfErr, IfOk, IfSome, IsErrOf, OnOk};
ghost use Rattle.std.specs.Io.KnownBytes.{IsAtEnd};
ghost use Rattle.outside.specs.Counts.{Rose};
ghost use Rattle.row_codec.specs.Row.{kinds_of};
ghost use Rattle.csv_edge.specs.Inside.{typed_told};
ghost use Rattle.csv_edge.specs.Rows.{Becomes, CountsBytes, FitsLimit, IsOfRecord, NamesInt, PassesLimit};
ghost use Rattle.csv_edge.specs.Typed.{nothing_more, refused_here, row_then, typed_rows};

use crate::header::{Placed, places};
use crate::records::Records;
use crate::refusal::InputErr;
use crate::row::{NoValue, fill_row};
use csv::ByteRecord;
use outside::Source;
use row_codec::{Column, Value};
use std::alloc::Global;
use std::marker::Model;

// The reader takes at most as many bytes of a piece at once as the record has room for. A longer
// record is taken in several parts, and has more room from then on.
const ROOM: usize = 4096;

// The room for the ends of its fields.
const FIELDS: usize = 64;

/// An input whose header was read, as far as it isn't read yet.
#[derive(Drop)]
pub struct Open {
    alloc: Global,
    records: Records,
    byte_record: ByteRecord,
    width: usize,
    columns: Vec<Placed>,
    number: u64,
    most: u64,
}

impl Model for Open {
    ghost use Rattle.std.specs.Prelude.{◌≤◌};
    ghost use Rattle.csv_edge.specs.Unread.{Unread};

    ghost Value = { Unread };

    ghost view = { λ o. record { feed = o.records; width = o.width; columns = o.columns.items; number = o.number; most = o.most } };

    ghost invariant = { λ o. o.number ≤ o.most };
}

impl Open {
    /// Reads the header of what the source has left.
    pub(crate) fn over<S: Source>(
        alloc: Global,
        src: &mut S,
        columns: &[Column],
        max_records: u64,
        max_bytes: u64,
    ) -> Result<Open, InputErr>
        ensures ok { IfOk result (λ o. Becomes (λ t. t) (option_map (typed_rows columns.now max_records) (S.remaining src.old)) (typed_told o (S.remaining src.new))) }
        ensures kinds { IfOk result (λ o. map (λ column. column.kind) o.columns ≡ map (λ column. column.kind) columns.now) }
        ensures allowed { IfOk result (λ o. o.most - o.number + 1 ≡ max_records) }
        ensures counts { IfOk result (λ o. CountsBytes max_bytes (S.remaining src.old) o.feed.taken.allowed (S.remaining src.new)) }

        // Why it failed.
        ensures refused { IfErr result (λ e. IsOfRecord e → IfSome (S.remaining src.old) (λ bytes. typed_rows columns.now max_records bytes ≡ refused_here e)) }
        ensures field { IfErr result (λ e. NamesInt e (map (λ column. column.kind) columns.now)) }
        ensures large { IsErrOf result InputErr.TooLarge → IfSome (S.remaining src.old) (λ bytes. (typed_rows columns.now max_records bytes ≡ refused_here InputErr.TooLarge) ⊎ (max_bytes < length bytes)) }
        ensures fault { IsErrOf result InputErr.Fault → Rose (S.faults src.old) (S.faults src.new) }
        ensures never_falls { S.faults src.old ≤ S.faults src.new }
    {
        let mut records = Records::over(alloc, src, max_bytes)?;
        let mut byte_record = ByteRecord::with_capacity(alloc, ROOM, FIELDS)?;
        if !records.next(alloc, src, &mut byte_record)? {
            return Err(InputErr::Header);
        }
        if max_records == 0 {
            return Err(InputErr::TooLarge);
        }
        let Some(columns) = places(alloc, &byte_record, columns)? else {
            return Err(InputErr::Header);
        };
        Ok(Open {
            alloc,
            width: byte_record.len(),
            records,
            byte_record,
            columns,
            number: 1,
            most: max_records,
        })
    }

    /// Where its memory comes from.
    #[inline]
    pub(crate) fn alloc(&self) -> Global {
        self.alloc
    }

    /// Makes a list the row of the next record, or answers `false` at the end of the input.
    pub(crate) fn next_row<S: Source>(
        &mut self,
        src: &mut S,
        row: &mut Vec<Value>,
    ) -> Result<bool, InputErr>
        ensures row { IfOk result (λ found. found ≡ true → Becomes (row_then row.new.items) (typed_told self.old (S.remaining src.old)) (typed_told self.new (S.remaining src.new))) }
        ensures kinds { IfOk result (λ found. found ≡ true → kinds_of row.new.items ≡ map (λ column. column.kind) self.old.columns) }
        ensures columns { OnOk result (self.new.columns ≡ self.old.columns) }
        ensures falls { IfOk result (λ found. found ≡ true → self.old.most - self.old.number ≡ self.new.most - self.new.number + 1) }
        ensures counts { OnOk result (CountsBytes self.old.feed.taken.allowed (S.remaining src.old) self.new.feed.taken.allowed (S.remaining src.new)) }

        // At the end all was read, and no limit was passed.
        ensures end { IfOk result (λ found. found ≡ false → Becomes (λ t. t) (typed_told self.old (S.remaining src.old)) (Some nothing_more)) }
        ensures read { IfOk result (λ found. found ≡ false → IsAtEnd (S.remaining src.new) × FitsLimit self.old.feed.taken.allowed (S.remaining src.old)) }

        // Why it failed.
        ensures refused { IfErr result (λ e. IsOfRecord e → Becomes (λ t. t) (typed_told self.old (S.remaining src.old)) (Some (refused_here e))) }
        ensures field { IfErr result (λ e. NamesInt e (map (λ column. column.kind) self.old.columns)) }
        ensures large { IsErrOf result InputErr.TooLarge → Becomes (λ t. t) (typed_told self.old (S.remaining src.old)) (Some (refused_here InputErr.TooLarge)) ⊎ PassesLimit self.old.feed.taken.allowed (S.remaining src.old) }
        ensures fault { IsErrOf result InputErr.Fault → Rose (S.faults src.old) (S.faults src.new) }
        ensures never_falls { S.faults src.old ≤ S.faults src.new }
    {
        if !self.records.next(self.alloc, src, &mut self.byte_record)? {
            return Ok(false);
        }
        let number = self.number;
        if self.byte_record.len() != self.width {
            return Err(InputErr::Csv { number });
        }
        if number >= self.most {
            return Err(InputErr::TooLarge);
        }
        match fill_row(self.alloc, &self.byte_record, &self.columns, row)? {
            Ok(()) => {
                self.number += 1;
                Ok(true)
            }
            Err(NoValue { column }) => Err(InputErr::Field { number, column }),
        }
    }
}
