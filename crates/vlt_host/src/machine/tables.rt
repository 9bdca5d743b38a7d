//! What a machine for a host keeps between calls.

use vlt_host_acts::Held;
use vlt_interp::Start;

/// The tables of a run, in which only objects stand between calls, what the host holds of these, and room for the line of a result.
#[derive(Drop)]
pub struct Tables<'a> {
    pub start: Start<'a>,
    pub held: Held,
    pub result_line: Vec<u8>,
}
