//! Places of a view.

/// So much further on are a module's places in a view: those below it are the interface's.
pub const RAISE: u32 = 1_048_577;
