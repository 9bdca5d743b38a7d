//! What is written at the end of a command.

ghost use Rattle.std.specs.Prelude.{◌≢◌};
ghost use Rattle.vaultc_runs.specs.declared.status.TheConstants.{SINK_FAILED, NO_MEMORY};

use crate::status::{NO_MEMORY, SINK_FAILED};

/// A status with the text that is written. Neither a failed sink nor want of memory writes one.
#[derive(Drop)]
pub struct Reply {
    pub status: u8,
    pub text: Vec<u8>,
    pub ghost sink: { status ≢ SINK_FAILED },
    pub ghost memory: { status ≢ NO_MEMORY },
}
