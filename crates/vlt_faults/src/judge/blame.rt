//! Faulty rows and joins, and which comes first.

ghost use Rattle.std.specs.Prelude.{◌≡◌, IsTrue, MatchBool};
ghost use Rattle.vlt_core.specs.View.{tok_of};
ghost use Rattle.vlt_core.specs.Faults.{IsNoLater, IsNoLaterTok};
ghost use Rattle.vlt_faults.specs.Judge.Blames.{class_of, spot_of, IsEarlier};

use vlt_core::{FaultKind, Tok};

/// What stands first at one place.
#[derive(Clone, Copy, Debug, PartialEq, Eq)]
pub enum Class {
    /// The head of a loop.
    Head,
    Row,
    /// Following a loop or a choice.
    Join,
}

impl Class {
    fn rank(self) -> u8
        ensures { result ≡ class_of self }
    {
        match self {
            Class::Head => 0,
            Class::Row => 1,
            Class::Join => 2,
        }
    }
}

/// A faulty row or join, with what is told of it.
#[derive(Clone, Copy, Debug, PartialEq, Eq)]
pub struct Blame {
    pub at: u32,
    pub class: Class,
    /// How many rows and joins stand before it in the function.
    pub number: usize,
    pub tok: Tok,
    pub kind: FaultKind,
}

fn is_no_later_tok(a: Tok, b: Tok) -> bool
    ensures order { MatchBool result (IsNoLaterTok (tok_of a) (tok_of b))
        (IsNoLaterTok (tok_of b) (tok_of a)) }
    ensures each { IsNoLaterTok (tok_of a) (tok_of b) → IsTrue result }
{
    match (a, b) {
        (Tok::Key(i), Tok::Key(j)) => i.0 <= j.0,
        (Tok::Key(_), Tok::Var(_)) => true,
        (Tok::Var(_), Tok::Key(_)) => false,
        (Tok::Var(i), Tok::Var(j)) => i.0 <= j.0,
    }
}

/// Whether the first comes before the second, or is at its spot.
pub fn is_no_later(a: Blame, b: Blame) -> bool
    ensures order { MatchBool result
        (IsNoLater (spot_of a) (tok_of a.tok) (spot_of b) (tok_of b.tok))
        (IsNoLater (spot_of b) (tok_of b.tok) (spot_of a) (tok_of a.tok)) }
    ensures each { IsNoLater (spot_of a) (tok_of a.tok) (spot_of b) (tok_of b.tok) →
        IsTrue result }
{
    if a.at != b.at {
        return a.at < b.at;
    }
    if a.class.rank() != b.class.rank() {
        return a.class.rank() < b.class.rank();
    }
    if a.number != b.number {
        return a.number < b.number;
    }
    is_no_later_tok(a.tok, b.tok)
}

/// The one that comes first, if there is any.
pub fn earlier(a: Option<Blame>, b: Option<Blame>) -> Option<Blame>
    ensures { IsEarlier a b result }
{
    match (a, b) {
        (None, _) => b,
        (_, None) => a,
        (Some(x), Some(y)) => if is_no_later(x, y) { a } else { b },
    }
}
