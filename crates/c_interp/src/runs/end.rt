//! How a run ends.

use crate::CStop;
use c_reader::CError;
use vlt_steps::RunEnd;

/// How `crun` ends.
#[derive(Clone, Copy, Debug, PartialEq, Eq)]
pub enum CEnd {
    /// The text stands for no program, for this reason, which isn't want of memory.
    Unread(CError),
    /// The run of the program over its files of numbers ends so, or memory ran out for the program.
    Ended(RunEnd<CStop>),
}
