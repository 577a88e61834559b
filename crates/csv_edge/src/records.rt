// The records of an input, piece after piece.

ghost use Rattle.std.specs.Prelude.{◌≡◌, ◌≤◌, ◌<◌, ◌+◌, ◌∷◌, [], length, true, false, option_map, IfErr, IfOk, IfSome, IsErrOf, OnOk};
ghost use Rattle.std.specs.Io.KnownBytes.{IsAtEnd, prepend_known};
ghost use Rattle.outside.specs.Counts.{Rose};
ghost use Rattle.csv.specs.Records.{fields_of};
ghost use Rattle.csv_edge.specs.Inside.{later_records, records_told};
ghost use Rattle.csv_edge.specs.Rows.{Becomes, CountsBytes, IsOfRecord, PassesLimit};
ghost use Rattle.csv_edge.specs.Typed.{records_of};

use crate::intake::Intake;
use crate::piece::{fill_piece, first_piece};
use crate::record_reader::{PieceReader, read_record, reader_of};
use crate::refusal::InputErr;
use csv::ByteRecord;
use outside::Source;
use row_codec::Memory;
use std::alloc::Global;
use std::marker::Model;
use std::mem;

/// The records that are left: those of a piece, and those of the pieces behind it.
#[derive(Drop)]
pub(crate) struct Records {
    reader: PieceReader,
    intake: Intake,
}

impl Model for Records {
    ghost use Rattle.csv_edge.specs.Unread.{Feed};
    ghost use Rattle.csv_edge.specs.Inside.{IsSound, records_behind};

    ghost Value = { Feed };

    ghost view = { λ r. record { records = records_behind r.reader; taken = r.intake } };

    ghost invariant = { λ r. IsSound r.reader };
}

impl Records {
    /// The records of what the source has left, of which the first piece is read.
    pub(crate) fn over<S: Source>(
        alloc: Global,
        src: &mut S,
        max_bytes: u64,
    ) -> Result<Records, InputErr>
        ensures records { IfOk result (λ r. Becomes (λ rs. rs) (option_map records_of (S.remaining src.old)) (records_told r (S.remaining src.new))) }
        ensures counts { IfOk result (λ r. CountsBytes max_bytes (S.remaining src.old) r.taken.allowed (S.remaining src.new)) }
        ensures large { IsErrOf result InputErr.TooLarge → PassesLimit max_bytes (S.remaining src.old) }
        ensures fault { IsErrOf result InputErr.Fault → Rose (S.faults src.old) (S.faults src.new) }
        ensures never_falls { S.faults src.old ≤ S.faults src.new }
        ensures cause { IfErr result (λ e. IsOfRecord e → ⊥) }
    {
        let mut intake = Intake::new(alloc, max_bytes)?;
        let mut piece = Vec::new(alloc);
        first_piece(src, &mut intake, &mut piece)?;
        Ok(Records {
            reader: reader_of(alloc, piece),
            intake,
        })
    }

    /// Reads the next record, or answers `false` at the end of the input.
    pub(crate) fn next<S: Source>(
        &mut self,
        alloc: Global,
        src: &mut S,
        byte_record: &mut ByteRecord,
    ) -> Result<bool, InputErr>
        ensures more { IfOk result (λ found. found ≡ true → Becomes (λ rs. fields_of byte_record.new ∷ rs) (records_told self.old (S.remaining src.old)) (records_told self.new (S.remaining src.new))) }
        ensures none { IfOk result (λ found. found ≡ false → IfSome (records_told self.old (S.remaining src.old)) (λ rs. rs ≡ [])) }
        ensures end { IfOk result (λ found. found ≡ false → IsAtEnd (S.remaining src.new)) }
        ensures counts { OnOk result (CountsBytes self.old.taken.allowed (S.remaining src.old) self.new.taken.allowed (S.remaining src.new)) }
        ensures large { IsErrOf result InputErr.TooLarge → PassesLimit self.old.taken.allowed (S.remaining src.old) }
        ensures fault { IsErrOf result InputErr.Fault → Rose (S.faults src.old) (S.faults src.new) }
        ensures never_falls { S.faults src.old ≤ S.faults src.new }
        ensures cause { IfErr result (λ e. IsOfRecord e → ⊥) }
    {
        while !self.next_of_piece(alloc, byte_record)? {
            if !self.next_piece(alloc, src)? {
                return Ok(false);
            }
        }
        Ok(true)
    }

    // Reads the next record of the piece, or answers `false` at its end.
    fn next_of_piece(&mut self, alloc: Global, byte_record: &mut ByteRecord) -> Result<bool, Memory>
        ensures more { IfOk result (λ found. found ≡ true → self.old.records ≡ fields_of byte_record.new ∷ self.new.records) }
        ensures none { IfOk result (λ found. found ≡ false → self.old.records ≡ []) }
        ensures taken { self.new.taken ≡ self.old.taken }
    {
        read_record(alloc, &mut self.reader, byte_record)
    }

    // Reads the next piece in place of the one that was, or answers `false` where no byte is left.
    // A piece may have no records. This stands apart, as the one that lets a reader go does.
    #[cold]
    #[inline(never)]
    fn next_piece<S: Source>(&mut self, alloc: Global, src: &mut S) -> Result<bool, InputErr>
        ensures records { OnOk result (Becomes (λ rs. rs) (option_map later_records (prepend_known self.old.taken.ahead (S.remaining src.old))) (records_told self.new (S.remaining src.new))) }
        ensures falls { IfOk result (λ more. more ≡ true → self.new.taken.allowed + length self.new.taken.ahead < self.old.taken.allowed + length self.old.taken.ahead) }
        ensures none { IfOk result (λ more. more ≡ false → IfSome (prepend_known self.old.taken.ahead (S.remaining src.old)) (λ bytes. bytes ≡ [])) }
        ensures end { IfOk result (λ more. more ≡ false → IsAtEnd (S.remaining src.new)) }
        ensures counts { OnOk result (CountsBytes self.old.taken.allowed (S.remaining src.old) self.new.taken.allowed (S.remaining src.new)) }
        ensures large { IsErrOf result InputErr.TooLarge → PassesLimit self.old.taken.allowed (S.remaining src.old) }
        ensures fault { IsErrOf result InputErr.Fault → Rose (S.faults src.old) (S.faults src.new) }
        ensures never_falls { S.faults src.old ≤ S.faults src.new }
        ensures cause { IfErr result (λ e. IsOfRecord e → ⊥) }
    {
        // The buffer of the piece that was is used again.
        let spent = mem::replace(&mut self.reader, reader_of(alloc, Vec::new(alloc)));
        let mut piece = spent.into_inner().into_inner();
        piece.clear();
        fill_piece(src, &mut self.intake, &mut piece)?;
        let more = !piece.is_empty();
        self.reader = reader_of(alloc, piece);
        Ok(more)
    }
}
