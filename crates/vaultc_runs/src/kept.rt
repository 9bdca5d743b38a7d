//! A sink that keeps what is written to it.

ghost use Rattle.std.specs.Prelude.{◌≡◌, ◌≤◌, [], Some};

use std::alloc::Global;
use vlt_io::{Sink, SinkFailed};

/// All that was written. A write fails only where there is no memory for its piece.
#[derive(Drop)]
pub struct Kept {
    bytes: Vec<u8>,
    /// How many writes failed.
    faults: u64,
}

impl Kept {
    ghost use Rattle.vaultc_runs.specs.Loading.{kept_bytes};

    /// A sink to which nothing was written yet.
    pub fn new(alloc: Global) -> Kept
        ensures { kept_bytes result ≡ [] }
    {
        Kept {
            bytes: Vec::new(alloc),
            faults: 0,
        }
    }

    /// What was written.
    pub fn bytes(&self) -> &[u8]
        ensures { result.now ≡ kept_bytes self.now }
    {
        &self.bytes
    }
}

impl Sink for Kept {
    ghost use Rattle.vaultc_runs.specs.Loading.{kept_bytes, kept_faults};

    ghost faults = { kept_faults };

    ghost written = { λ kept. Some (kept_bytes kept) };

    fn write(&mut self, piece: &[u8]) -> Result<(), SinkFailed> {
        match self.bytes.extend_from_slice(piece) {
            Ok(()) => Ok(()),
            Err(_) => {
                self.faults = self.faults.saturating_add(1);
                Err(SinkFailed)
            }
        }
    }
}
