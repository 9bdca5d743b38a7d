//! Bytes that are written.

ghost use Rattle.std.specs.Prelude.{◌≤◌, ℕ, List, Option, OnOk, OnErr};
ghost use Rattle.vlt_io.specs.Outside.{Rose, Grew, GrewByPart};

use thiserror::Error;

/// The sink did not take the whole piece.
#[derive(Clone, Copy, Debug, PartialEq, Eq, Error)]
#[error("the sink did not take the whole piece")]
pub struct SinkFailed;

/// Where bytes go, one piece after another.
pub trait Sink {
    /// How often writing has failed, up to 18446744073709551615.
    ghost faults: { Self → ℕ };

    /// The bytes that were written, where the sink tells them.
    ghost written: { Self → Option (List ℕ) };

    /// Writes the piece, or a part of its beginning and fails.
    fn write(&mut self, piece: &[u8]) -> Result<(), SinkFailed>
        ensures ok { OnOk result (Grew (written self.old) (written self.new) piece.now) }
        ensures part { OnErr result (GrewByPart (written self.old) (written self.new) piece.now) }
        ensures failed { OnErr result (Rose (faults self.old) (faults self.new)) }
        ensures counted { faults self.old ≤ faults self.new };
}
