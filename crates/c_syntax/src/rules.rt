//! The rules that a run may break, by name: where C leaves undefined what happens, or the runtime does. Each has a number,
//! which is what a report of it shows.

/// A cell of null, or of a block that is dead, is read or written (C11 6.5.3.2, paragraph 4).
pub const DEAD_BLOCK: u8 = 1;

/// A cell is read or written that its block hasn't (C11 6.5.6, paragraph 8), or read that was never set (C11 3.19.2 and
/// 6.2.6.1, paragraph 5).
pub const NO_CELL: u8 = 2;

/// A result is outside of the 64 bits with a sign (C11 6.5, paragraph 5).
pub const OVERFLOW: u8 = 3;

/// A number is divided by 0 (C11 6.5.5, paragraph 5).
pub const ZERO_DIVISOR: u8 = 4;

/// A variable is read that was never set (C11 6.3.2.1, paragraph 2). A value of the other type breaks it too, which no program
/// of the subset comes to.
pub const UNSET: u8 = 5;

/// The end of a function that gives a value is reached (C11 6.9.1, paragraph 12). A call breaks it too whose function isn't
/// there or gives nothing to its target, which no program of the subset comes to.
pub const NO_VALUE: u8 = 6;

/// A register of the runtime is named that there isn't, or read that was never set.
pub const NO_REGISTER: u8 = 7;

/// A function of the runtime is called with what it doesn't take, or out of its order (C11 7.1.4, paragraph 1).
pub const MISUSED: u8 = 8;
