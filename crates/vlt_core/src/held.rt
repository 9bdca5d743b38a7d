//! Tokens, their statuses, and the rows of the step table.

ghost use Rattle.std.specs.Prelude.{◌≡◌};
ghost use Rattle.vlt_core.specs.Maps.{is_tok};
ghost use Rattle.vlt_core.specs.View.{tok_of};

use vlt_base::{FnId, KeyId, StateSet, VarId};

/// What a path through a function holds or doesn't: a key, or the value of an owning variable.
#[derive(Clone, Copy, Debug, PartialEq, Eq)]
pub enum Tok {
    Key(KeyId),
    Var(VarId),
}

impl Tok {
    /// Whether both are the same token.
    pub fn is_same(self, other: Tok) -> bool
        ensures { result ≡ is_tok (tok_of self) (tok_of other) }
    {
        match (self, other) {
            (Tok::Key(k), Tok::Key(j)) => k.0 == j.0,
            (Tok::Var(v), Tok::Var(w)) => v.0 == w.0,
            _ => false,
        }
    }
}

/// The status of a token at a point.
#[derive(Clone, Copy, Debug, PartialEq, Eq)]
pub enum Status {
    Absent,
    /// A key whose object is in one of these states.
    Held(StateSet),
    /// The same key, while a focus has it.
    Lent(StateSet),
    /// An owning variable with a value.
    Full,
}

/// What a row wants of its token.
#[derive(Clone, Copy, Debug, PartialEq, Eq)]
pub enum Wanted {
    Absent,
    /// Held, in any state.
    Any,
    /// Held, in a set within this one.
    In(StateSet),
    Lent,
    Full,
}

/// What a row leaves of its token.
#[derive(Clone, Copy, Debug, PartialEq, Eq)]
pub enum After {
    Absent,
    /// Held in these states.
    Set(StateSet),
    Same,
    Full,
    /// A held key becomes lent, its states being the same.
    Lend,
    /// A lent key becomes held, its states being the same.
    Unlend,
}

/// What a step wants of one token, and what it leaves.
#[derive(Clone, Copy, Debug, PartialEq, Eq)]
pub struct Row {
    pub tok: Tok,
    pub wanted: Wanted,
    pub after: After,
}

/// Where and how a function breaks the rules on keys.
#[derive(Clone, Copy, Debug, PartialEq, Eq)]
pub struct FlowFault {
    pub fn_id: FnId,
    /// The state that the bound entry's key has in the instance that breaks them; none for a function without such an entry.
    pub origin: Option<u8>,
    /// The place, as a byte of the source counted from 0.
    pub at: u32,
    pub tok: Tok,
    pub kind: FaultKind,
}

#[derive(Clone, Copy, Debug, PartialEq, Eq)]
pub enum FaultKind {
    /// Paths come to a row with a status that it doesn't want.
    Row { found: Status, wanted: Wanted },
    /// Some path comes to a join without the token, and some with this status.
    Join { present: Status },
}
