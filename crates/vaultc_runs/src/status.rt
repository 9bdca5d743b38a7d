//! The statuses with which a command ends.

/// Done.
pub const DONE: u8 = 0;

/// The words are no command.
pub const NO_COMMAND: u8 = 1;

/// A file wasn't read.
pub const UNREAD: u8 = 2;

/// The sink failed.
pub const SINK_FAILED: u8 = 3;

/// Memory ran out.
pub const NO_MEMORY: u8 = 4;

/// There is more of something than a limit allows.
pub const OVER_LIMIT: u8 = 5;

/// The bytes are no text of the language.
pub const NO_TEXT: u8 = 6;

/// The text has no program.
pub const NO_PROGRAM: u8 = 7;

/// The program breaks the rules on keys.
pub const NOT_ACCEPTED: u8 = 8;

/// The run ended in a trap.
pub const TRAPPED: u8 = 9;

/// The run used up a budget.
pub const OUT_OF_BUDGET: u8 = 10;

/// The run wanted a number or an answer that there was none of, or an answer was none that may be.
pub const OUT_OF_NUMBERS: u8 = 11;

/// A part of the verification of a C file fails.
pub const REFUSED: u8 = 12;

/// The run of a C text has no meaning from some statement on.
pub const UNDEFINED: u8 = 13;
