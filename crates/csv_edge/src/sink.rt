// A piece that is written whole.

ghost use Rattle.std.specs.Prelude.{◌≡◌, ◌≤◌, OnOk, OnErr};
ghost use Rattle.std.specs.Io.KnownBytes.{Appends};
ghost use Rattle.outside.specs.Counts.{Rose};
ghost use Rattle.outside.specs.Sinks.{EndsAt};
ghost use Rattle.csv_edge.specs.Written.{AppendsFront};

use outside::{Failed, Sink};

/// Appends the whole piece, in one write or in several.
///
/// # Errors
///
/// [`Failed`]: a write failed, and the sink's count of faults rose. A front of the piece stands in the sink then, and nothing
/// behind the first failed write.
pub fn write_whole<K: Sink>(sink: &mut K, piece: &[u8]) -> Result<(), Failed>
    ensures ok { OnOk result (Appends (K.contents sink.old) (K.contents sink.new) piece.now) }
    ensures err { OnErr result (AppendsFront (K.contents sink.old) (K.contents sink.new) piece.now) }
    ensures unbroken { OnOk result (K.at_failure sink.new ≡ K.at_failure sink.old) }
    ensures stops { OnErr result (EndsAt (K.at_failure sink.old) (K.at_failure sink.new) (K.contents sink.new)) }
    ensures quiet { OnOk result (K.faults sink.new ≡ K.faults sink.old) }
    ensures failed { OnErr result (Rose (K.faults sink.old) (K.faults sink.new)) }
    ensures never_falls { K.faults sink.old ≤ K.faults sink.new }
{
    let mut at = 0;
    while at < piece.len() {
        at += sink.write(&piece[at..])?;
    }
    Ok(())
}
