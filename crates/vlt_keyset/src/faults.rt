//! Why a row isn't passed, maps aren't joined, or a map isn't below another.

use thiserror::Error;
use vlt_core::{Status, Tok, Wanted};

/// A token that isn't as a row wants it.
#[derive(Clone, Copy, Debug, PartialEq, Eq, Error)]
#[error("a token isn't as a row wants it")]
pub struct TokenFault {
    pub tok: Tok,
    pub found: Status,
    pub wanted: Wanted,
}

/// A token whose statuses in two maps are of two kinds.
#[derive(Clone, Copy, Debug, PartialEq, Eq, Error)]
#[error("a token's statuses are of two kinds")]
pub struct JoinFault {
    pub tok: Tok,
    pub left: Status,
    pub right: Status,
}

/// A token whose status in a map isn't below the one that another map gives it.
#[derive(Clone, Copy, Debug, PartialEq, Eq, Error)]
#[error("a token's status isn't below another map's")]
pub struct Apart {
    pub tok: Tok,
    pub found: Status,
    pub wanted: Status,
}
