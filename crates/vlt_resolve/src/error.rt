//! Why a tree isn't elaborated.

use thiserror::Error;

/// Why a tree isn't elaborated. A rule goes by its number, and its place is a byte of the source counted from 0.
#[derive(Clone, Copy, Debug, PartialEq, Eq, Error)]
pub enum ElabError {
    #[error("rule {rule} at byte {at}")]
    Rule { rule: u8, at: u32 },
    /// Of variables or of keys a function has more than 256: `VARIABLES` or `KEYS`.
    #[error("limit {0}")]
    Limit(u8),
    #[error("out of memory")]
    Memory,
}
