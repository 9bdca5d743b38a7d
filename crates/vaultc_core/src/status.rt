//! The statuses with which a command ends: those of `vaultc_runs`.

pub use vaultc_runs::{
    DONE, NO_COMMAND, NO_MEMORY, NO_PROGRAM, NO_TEXT, NOT_ACCEPTED, OUT_OF_BUDGET, OUT_OF_NUMBERS,
    OVER_LIMIT, REFUSED, SINK_FAILED, TRAPPED, UNDEFINED, UNREAD,
};
