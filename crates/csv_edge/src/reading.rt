// The rows of a source, handed out one by one.

ghost use Rattle.std.specs.Prelude.{◌≡◌, ◌≤◌, ◌+◌, ◌⊎◌, ◌<◌, Some, length, map, option_map, true, false, IfOk, OnOk, OnErr, IfErr, IfSome, IfNone, IsErrOf};
ghost use Rattle.std.specs.Io.KnownBytes.{IsAtEnd};
ghost use Rattle.outside.specs.Counts.{Rose};
ghost use Rattle.csv_edge.specs.Typed.{nothing_more, refused_here, row_then, typed_rows};
ghost use Rattle.csv_edge.specs.Rows.{Becomes, CountsBytes, FitsLimit, GoesOn, HasEnded, IsOfRecord, IsOpen, NamesInt, PassesLimit, bytes_allowed, kinds_in, records_allowed, rest_of};

use crate::open::Open;
use crate::refusal::InputErr;
use outside::Source;
use row_codec::{Column, Value};
use std::alloc::Global;

/// Typed rows of a source, which it borrows. What was read of the source stays read.
pub struct RowsOver<'a, S, L> {
    src: &'a mut S,
    left: L,
}

/// The rows of a source: none before [`Rows::start`], none behind a refusal or the end.
pub type Rows<'a, S> = RowsOver<'a, S, Option<Box<Open>>>;

impl<S, L: Drop> Drop for RowsOver<'_, S, L> {
    fn drop(self)
        ensures { self.exit.0.now ≡ self.entry.src.now }
    {
        let RowsOver { src: _, left } = self;
        drop(left);
    }
}

impl<'a, S: Source> RowsOver<'a, S, Option<Box<Open>>> {
    /// Rows of this source, of which nothing is read yet.
    pub fn of(src: &'a mut S) -> Rows<'a, S>
        ensures same { result.src.ghost_name ≡ src.entry.ghost_name }
        ensures source { result.src.now ≡ src.old }
        ensures ended { HasEnded S.remaining result }
    {
        RowsOver { src, left: None }
    }

    /// Reads the header. So many records are allowed, the header among them, and so many bytes.
    ///
    /// What the rows before were is forgotten. An input that passes a limit is refused when that
    /// shows: of one with too many bytes, the rows before the refusal are some of those before the
    /// limit.
    ///
    /// # Errors
    ///
    /// `Header`: there is no record, or the name of a column doesn't stand in the header exactly once. `TooLarge`: no
    /// record is allowed, or the input has more bytes than are allowed. `Fault`: the source failed, and its count of
    /// faults rose. `Memory`. After an error no row comes.
    pub fn start(
        &mut self,
        alloc: Global,
        columns: &[Column],
        max_records: u64,
        max_bytes: u64,
    ) -> Result<(), InputErr>
        ensures ok { OnOk result (Becomes (λ t. t) (option_map (typed_rows columns.now max_records) (S.remaining self.old.src.now)) (rest_of S.remaining self.new)) }
        ensures open { OnOk result (IsOpen self.new) }
        ensures kinds { OnOk result (kinds_in self.new ≡ map (λ column. column.kind) columns.now) }
        ensures allowed { OnOk result (records_allowed self.new + 1 ≡ max_records) }
        ensures counts { OnOk result (CountsBytes max_bytes (S.remaining self.old.src.now) (bytes_allowed self.new) (S.remaining self.new.src.now)) }
        ensures err { OnErr result (HasEnded S.remaining self.new) }

        // Why it failed.
        ensures refused { IfErr result (λ e. IsOfRecord e → IfSome (S.remaining self.old.src.now) (λ bytes. typed_rows columns.now max_records bytes ≡ refused_here e)) }
        ensures field { IfErr result (λ e. NamesInt e (map (λ column. column.kind) columns.now)) }
        ensures large { IsErrOf result InputErr.TooLarge → IfSome (S.remaining self.old.src.now) (λ bytes. (typed_rows columns.now max_records bytes ≡ refused_here InputErr.TooLarge) ⊎ (max_bytes < length bytes)) }
        ensures fault { IsErrOf result InputErr.Fault → Rose (S.faults self.old.src.now) (S.faults self.new.src.now) }
        ensures never_falls { S.faults self.old.src.now ≤ S.faults self.new.src.now }
        ensures same { self.new.src.ghost_name ≡ self.old.src.ghost_name }
    {
        self.left = None;
        let open = Open::over(alloc, self.src, columns, max_records, max_bytes)?;
        self.left = Some(Box::new(alloc, open)?);
        Ok(())
    }

    /// Makes a list the next row, or answers `false` at the end of the input, and behind a refusal or
    /// the end. The memory of the list and of its texts is used again.
    ///
    /// Behind `false` and behind an error the list has any values.
    ///
    /// # Errors
    ///
    /// Of the next record, looked at in this order: `Csv`, it has another number of fields than the header; `TooLarge`,
    /// it is one more than are allowed; `Field`, a field spells no value of its column's kind, the first such column.
    /// Besides `TooLarge`: the input has more bytes than are allowed; `Fault`: the source failed, and its count of faults
    /// rose; `Memory`. No row comes behind an error: each later call answers `false`, until the rows are started again.
    pub fn next_into(&mut self, row: &mut Vec<Value>) -> Result<bool, InputErr>
        ensures row { IfOk result (λ found. found ≡ true → Becomes (row_then row.new.items) (rest_of S.remaining self.old) (rest_of S.remaining self.new)) }
        ensures goes_on { IfOk result (λ found. found ≡ true → GoesOn row.new.items self.old self.new) }
        ensures counts { IfOk result (λ found. found ≡ true → CountsBytes (bytes_allowed self.old) (S.remaining self.old.src.now) (bytes_allowed self.new) (S.remaining self.new.src.now)) }

        // At the end all was read, and no limit was passed.
        ensures end { IfOk result (λ found. found ≡ false → Becomes (λ t. t) (rest_of S.remaining self.old) (Some nothing_more) × HasEnded S.remaining self.new) }
        ensures ended { HasEnded S.remaining self.old → result ≡ Ok false }
        ensures read { IfOk result (λ found. found ≡ false → IsOpen self.old → IsAtEnd (S.remaining self.new.src.now) × FitsLimit (bytes_allowed self.old) (S.remaining self.old.src.now)) }

        // Why it failed.
        ensures refused { IfErr result (λ e. IsOfRecord e → Becomes (λ t. t) (rest_of S.remaining self.old) (Some (refused_here e))) }
        ensures field { IfErr result (λ e. NamesInt e (kinds_in self.old)) }
        ensures large { IsErrOf result InputErr.TooLarge → Becomes (λ t. t) (rest_of S.remaining self.old) (Some (refused_here InputErr.TooLarge)) ⊎ PassesLimit (bytes_allowed self.old) (S.remaining self.old.src.now) }
        ensures err { OnErr result (HasEnded S.remaining self.new) }
        ensures fault { IsErrOf result InputErr.Fault → Rose (S.faults self.old.src.now) (S.faults self.new.src.now) }
        ensures never_falls { S.faults self.old.src.now ≤ S.faults self.new.src.now }
        ensures same { self.new.src.ghost_name ≡ self.old.src.ghost_name }
    {
        let Some(open) = &mut self.left else {
            return Ok(false);
        };
        match open.next_row(self.src, row) {
            Ok(true) => Ok(true),
            ended => {
                self.let_go();
                ended
            }
        }
    }

    /// Lets the rows go. The source comes back, with what was not read of it.
    pub fn into_source(self) -> &'a mut S
        ensures same { result.ghost_name ≡ self.entry.src.ghost_name }
        ensures source { result.now ≡ self.entry.src.now }
    {
        let RowsOver { src, left } = self;
        drop(left);
        src
    }

    // Lets the input go. This stands apart, since an input that is let go takes much of the stack.
    #[cold]
    #[inline(never)]
    fn let_go(&mut self)
        ensures { self.new ≡ record self.old { left = None } }
    {
        self.left = None;
    }

    /// The next row, or `None` at the end of the input, and behind a refusal or the end.
    ///
    /// # Errors
    ///
    /// Those of [`RowsOver::next_into`]. Behind an error each later call answers `None`.
    pub fn next(&mut self) -> Result<Option<Vec<Value>>, InputErr>
        ensures row { IfOk result (λ next. IfSome next (λ row. Becomes (row_then row.items) (rest_of S.remaining self.old) (rest_of S.remaining self.new))) }
        ensures goes_on { IfOk result (λ next. IfSome next (λ row. GoesOn row.items self.old self.new)) }
        ensures counts { IfOk result (λ next. IfSome next (λ _. CountsBytes (bytes_allowed self.old) (S.remaining self.old.src.now) (bytes_allowed self.new) (S.remaining self.new.src.now))) }

        // At the end all was read, and no limit was passed.
        ensures end { IfOk result (λ next. IfNone next (Becomes (λ t. t) (rest_of S.remaining self.old) (Some nothing_more) × HasEnded S.remaining self.new)) }
        ensures ended { HasEnded S.remaining self.old → result ≡ Ok None }
        ensures read { IfOk result (λ next. IfNone next (IsOpen self.old → IsAtEnd (S.remaining self.new.src.now) × FitsLimit (bytes_allowed self.old) (S.remaining self.old.src.now))) }

        // Why it failed.
        ensures refused { IfErr result (λ e. IsOfRecord e → Becomes (λ t. t) (rest_of S.remaining self.old) (Some (refused_here e))) }
        ensures field { IfErr result (λ e. NamesInt e (kinds_in self.old)) }
        ensures large { IsErrOf result InputErr.TooLarge → Becomes (λ t. t) (rest_of S.remaining self.old) (Some (refused_here InputErr.TooLarge)) ⊎ PassesLimit (bytes_allowed self.old) (S.remaining self.old.src.now) }
        ensures err { OnErr result (HasEnded S.remaining self.new) }
        ensures fault { IsErrOf result InputErr.Fault → Rose (S.faults self.old.src.now) (S.faults self.new.src.now) }
        ensures never_falls { S.faults self.old.src.now ≤ S.faults self.new.src.now }
        ensures same { self.new.src.ghost_name ≡ self.old.src.ghost_name }
    {
        let Some(open) = &self.left else {
            return Ok(None);
        };
        let mut row = Vec::new(open.alloc());
        if self.next_into(&mut row)? {
            Ok(Some(row))
        } else {
            Ok(None)
        }
    }
}
