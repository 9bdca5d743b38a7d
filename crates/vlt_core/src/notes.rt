//! What the check finds: the maps that show that a function is accepted, or the paths that show a fault.

use crate::held::{FlowFault, Status, Tok};
use vlt_base::{Items, StmtId};

/// The maps of one function: a note for each loop, and for each `if` and `switch` that can be passed, in the order of
/// the statements.
#[derive(Drop)]
pub struct Annotation {
    pub maps: Items<Note>,
}

#[derive(Drop)]
pub enum Note {
    /// The map at the loop's head, and the one after it.
    Loop {
        /// The statement's number, counted from 0 in the function.
        stmt: StmtId,
        around: TokMap,
        exit: TokMap,
    },
    /// The map after an `if` or a `switch`.
    Join {
        /// The statement's number, counted from 0 in the function.
        stmt: StmtId,
        map: TokMap,
    },
}

/// The tokens that aren't absent with their statuses: keys first, each kind in ascending order.
#[derive(Drop)]
pub struct TokMap {
    pub pairs: Items<(Tok, Status)>,
}

/// One path to a faulty row, or two to a faulty join: the first without the token, the second with it.
#[derive(Drop)]
pub struct Witness {
    pub fault: FlowFault,
    pub first: Items<Choice>,
    pub second: Option<Items<Choice>>,
}

/// Which way a path takes at a statement.
#[derive(Clone, Copy, Debug, PartialEq, Eq)]
pub struct Choice {
    /// The statement's place, as a byte of the source counted from 0.
    pub at: u32,
    pub pick: Pick,
}

#[derive(Clone, Copy, Debug, PartialEq, Eq)]
pub enum Pick {
    Then,
    Else,
    /// Another turn of a loop.
    Turn,
    /// Out of a loop at its condition.
    Exit,
    /// The arm of this case.
    Case(u8),
}
