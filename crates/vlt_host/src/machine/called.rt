//! What a host gives a machine, and what it gets.

use vlt_host_acts::HostValue;
use vlt_numbers::Answers;
use vlt_steps::Stop;

/// What a host has left to give: the input, and of the answers all but those that were taken.
#[derive(Clone, Copy)]
pub struct Supply<'h> {
    pub input: &'h [i64],
    pub answers: &'h Answers,
    pub taken: u32,
}

/// What a call comes to.
#[derive(Clone, Copy, Debug, PartialEq, Eq)]
pub enum Called {
    /// The function came back, with this value if it gives one.
    Back(Option<HostValue>),
    /// The run ended in the call, or an earlier one ended it.
    Ended(Stop),
}
