//! Ground: ids, spans, budgets, sets of states, limits, and places in a text; nothing goes in.
//! Read `specs/States.antt` first, then `Limits`, `Place` and `Parents`.
//! Used by: nearly every other crate.
#![tactic(auto)]

ghost use Rattle.std.specs.Prelude.{◌≡◌, ◌||◌};

mod ids;
mod limits;
mod places;
mod states;

pub use ids::{FnId, KeyId, SetId, StmtId, TypeId, VarId};
pub use limits::{
    C_BLOCK_DEPTH, C_BYTES, C_EXPRESSION_DEPTH, CASES, DECLARATIONS, DEPTH, FIELDS, KEYS,
    PARAMETERS, PAYLOADS, SOURCE_BYTES, STATES, TOKENS, VALUE_SLOTS, VARIABLES, limit,
};
pub use places::{Span, place};
pub use sqlite_items::{Boxed, Items};
pub use states::StateSet;
use std::alloc::{AllocError, AllocFailed};
use thiserror::Error;

/// There was no memory for what was asked.
#[derive(Clone, Copy, Debug, PartialEq, Eq, Error)]
#[error("there was no memory")]
pub struct Memory;

impl From<AllocError> for Memory {
    fn from(_: AllocError) -> Memory {
        Memory
    }
}

impl<T: Drop> From<AllocFailed<T>> for Memory {
    fn from(_: AllocFailed<T>) -> Memory {
        Memory
    }
}

/// A run has as many live objects as its budget allows.
#[derive(Clone, Copy, Debug, PartialEq, Eq, Error)]
#[error("as many objects are live as the budget allows")]
pub struct HeapEnd;

/// Whether one of two facts holds. Both are evaluated, so a proof goes on with one value and not along two paths.
pub fn either(a: bool, b: bool) -> bool
    ensures { result ≡ (a || b) }
{
    a || b
}

/// What a run may use.
#[derive(Clone, Copy, Debug, PartialEq, Eq)]
pub struct Budgets {
    /// How many turns of loops and calls together.
    pub fuel: u64,
    /// How many objects may be live at a time.
    pub heap: u32,
    /// How many calls may be under way at a time, that of `main` included.
    pub depth: u32,
}
