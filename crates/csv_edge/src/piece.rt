// The pieces of an input.

ghost use Rattle.std.specs.Prelude.{◌≡◌, ◌≤◌, ◌+◌, [], length, IfErr, IsErrOf, OnOk};
ghost use Rattle.std.specs.Io.KnownBytes.{IsAtEnd, prepend_known};
ghost use Rattle.outside.specs.Counts.{Rose};
ghost use Rattle.csv_edge.specs.Inside.{Cuts, Fills};
ghost use Rattle.csv_edge.specs.Pieces.{first_len, mark_len};
ghost use Rattle.csv_edge.specs.Rows.{CountsBytes, IsOfRecord, PassesLimit};

use crate::intake::Intake;
use crate::refusal::InputErr;
use crate::scan::{Front, Scan, front_of};
use outside::Source;

// A piece that another one follows has at least so many bytes.
const PIECE_LEN: usize = 1048576;

/// Reads the first piece of an input, of which nothing was taken yet.
pub(crate) fn first_piece<S: Source>(
    src: &mut S,
    intake: &mut Intake,
    piece: &mut Vec<u8>,
) -> Result<(), InputErr>
    requires front { intake.old.ahead ≡ [] }
    requires empty { piece.old.items ≡ [] }
    ensures cuts { OnOk result (Cuts first_len (S.remaining src.old) (prepend_known intake.new.ahead (S.remaining src.new)) piece.new.items) }
    ensures counts { OnOk result (CountsBytes intake.old.allowed (S.remaining src.old) intake.new.allowed (S.remaining src.new)) }
    ensures large { IsErrOf result InputErr.TooLarge → PassesLimit intake.old.allowed (S.remaining src.old) }
    ensures fault { IsErrOf result InputErr.Fault → Rose (S.faults src.old) (S.faults src.new) }
    ensures never_falls { S.faults src.old ≤ S.faults src.new }
    ensures cause { IfErr result (λ e. IsOfRecord e → ⊥) }
{
    intake.fetch(src, 3)?;
    let len = mark_len(intake.as_slice());
    piece.extend_from_slice(&intake.as_slice()[..len])?;
    intake.pass(len);
    fill_piece(src, intake, piece)
}

// A byte order mark at the front of an input stands before the first field.
fn mark_len(bytes: &[u8]) -> usize
    ensures value { result ≡ mark_len bytes.now }
    ensures fits { result ≤ length bytes.now }
{
    match bytes {
        [0xef, 0xbb, 0xbf, ..] => 3,
        _ => 0,
    }
}

/// Moves bytes to the end of a piece, up to the first cut at which it is long enough. The scan
/// begins at its end, at the start of a field.
pub(crate) fn fill_piece<S: Source>(
    src: &mut S,
    intake: &mut Intake,
    piece: &mut Vec<u8>,
) -> Result<(), InputErr>
    ensures fills { OnOk result (Fills (prepend_known intake.old.ahead (S.remaining src.old)) (prepend_known intake.new.ahead (S.remaining src.new)) piece.old.items piece.new.items) }
    ensures moved { OnOk result (length piece.old.items + (intake.old.allowed + length intake.old.ahead) ≡ length piece.new.items + (intake.new.allowed + length intake.new.ahead)) }
    ensures end { OnOk result (piece.new.items ≡ [] → IsAtEnd (S.remaining src.new)) }
    ensures counts { OnOk result (CountsBytes intake.old.allowed (S.remaining src.old) intake.new.allowed (S.remaining src.new)) }
    ensures large { IsErrOf result InputErr.TooLarge → PassesLimit intake.old.allowed (S.remaining src.old) }
    ensures fault { IsErrOf result InputErr.Fault → Rose (S.faults src.old) (S.faults src.new) }
    ensures never_falls { S.faults src.old ≤ S.faults src.new }
    ensures cause { IfErr result (λ e. IsOfRecord e → ⊥) }
{
    let mut scan = Scan::Start;
    loop {
        intake.fetch(src, 1)?;
        let bytes = intake.as_slice();
        if bytes.is_empty() {
            return Ok(());
        }
        let least = PIECE_LEN.saturating_sub(piece.len());
        match front_of(scan, least, bytes) {
            Front::Cut(len) => {
                piece.extend_from_slice(&bytes[..len])?;
                intake.pass(len);
                return Ok(());
            }
            Front::All(after) => {
                let len = bytes.len();
                piece.extend_from_slice(bytes)?;
                intake.pass(len);
                scan = after;
            }
        }
    }
}
