//! The limits that bodies can exceed, as refusals: their numbers are below those of the rules on bodies.

/// A function has more than 256 variables, hidden ones included.
pub const TOO_MANY_VARIABLES: u8 = 0;

/// A function has more than 256 keys, hidden ones included.
pub const TOO_MANY_KEYS: u8 = 1;
