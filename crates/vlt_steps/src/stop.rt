//! How a machine stops.

use vlt_ops::TrapKind;

/// How a machine stops.
#[derive(Clone, Copy, Debug, PartialEq, Eq)]
pub enum Stop {
    /// The run came to the end of its first function.
    Done,
    /// The run trapped.
    Trap(TrapKind),
    /// The fuel ended.
    FuelEnd,
    /// As many objects were live as the budget allows, or as many were made as a run makes at most.
    HeapEnd,
    /// As many functions were running as the budget allows.
    DepthEnd,
    /// The input ended.
    InputEnd,
    /// The answers ended.
    AnswersEnd,
    /// The answer at this position, from 1, isn't what was to be read.
    BadAnswer(u32),
    /// The sink did not take what was written.
    SinkFault,
}

/// How a run ended, and the fuel that was left.
#[derive(Clone, Copy)]
pub struct Ended<S> {
    pub stop: S,
    pub fuel: u64,
}
