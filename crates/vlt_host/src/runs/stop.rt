//! How a run for a host stops.

use vlt_steps::Stop;

/// How a run for a host stops.
#[derive(Clone, Copy, Debug, PartialEq, Eq)]
pub enum HostStop {
    /// All calls came back (`Done`), or the machine stopped so in one of them.
    Stopped(Stop),
    /// The call at this position, from 1, isn't permitted.
    BadCall(u32),
}
