// Writes whole texts.
ghost use Rattle.std.specs.List.{concat};
ghost use Rattle.pbs_io.specs.Outside.{Writes};
ghost use Rattle.pbs_io.specs.Written.{texts_of};

use crate::Sink;
use thiserror::Error;

/// Why a text was not written whole.
#[derive(Clone, Copy, Debug, PartialEq, Eq, Error)]
pub enum WriteFail {
    /// The sink failed.
    #[error("the sink failed")]
    Fault,
}

/// Writes the whole piece. After `Fault`, which comes only where the sink's faults rose, a prefix of it was written.
pub fn write_all<K: Sink>(sink: &mut K, piece: &[u8]) -> Result<(), WriteFail>
    ensures { Writes (K.state sink.old) (K.state sink.new) piece.now result }
{
    let mut rest = piece;
    while !rest.is_empty() {
        match sink.put(rest) {
            Ok(n) => rest = &rest[n..],
            Err(_) => return Err(WriteFail::Fault),
        }
    }
    Ok(())
}

/// Writes the pieces one after another, as one text.
pub fn write_pieces<K: Sink>(sink: &mut K, pieces: &[&[u8]]) -> Result<(), WriteFail>
    ensures { Writes (K.state sink.old) (K.state sink.new) (concat (texts_of pieces.now)) result }
{
    for piece in pieces {
        let Ok(()) = write_all(sink, piece) else {
            return Err(WriteFail::Fault);
        };
    }
    Ok(())
}
