//! Why a statement ends the run.

use vlt_ops::TrapKind;

/// Why a statement ends the run.
#[derive(Clone, Copy, Debug, PartialEq, Eq)]
pub enum Halt {
    Trap(TrapKind),
    /// As many objects are live as the budget allows.
    HeapEnd,
}
