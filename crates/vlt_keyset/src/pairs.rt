//! Lists of pairs.

ghost use Rattle.std.specs.Prelude.{◌↔◌, IsTrue};
ghost use Rattle.vlt_core.specs.View.{tok_of};
ghost use Rattle.vlt_keyset.specs.Pairs.{IsBefore, IsPresent, AreInOrder};

use vlt_core::{Status, Tok};

fn is_before(t: Tok, u: Tok) -> bool
    ensures { IsTrue result ↔ IsBefore (tok_of t) (tok_of u) }
{
    match (t, u) {
        (Tok::Key(k), Tok::Key(j)) => k.0 < j.0,
        (Tok::Key(_), Tok::Var(_)) => true,
        (Tok::Var(_), Tok::Key(_)) => false,
        (Tok::Var(v), Tok::Var(w)) => v.0 < w.0,
    }
}

fn is_present(s: Status) -> bool
    ensures { IsTrue result ↔ IsPresent s }
{
    match s {
        Status::Absent => false,
        _ => true,
    }
}

/// Whether keys come first, each kind is in ascending order, and none is absent.
pub fn in_order(pairs: &[(Tok, Status)]) -> bool
    ensures { IsTrue result ↔ AreInOrder pairs.now }
{
    let count = pairs.len();
    for j in 0..count {
        let i = count - 1 - j;
        let pair = pairs[i];
        if !is_present(pair.1) {
            return false;
        }
        if j > 0 {
            let next = pairs[i + 1];
            if !is_before(pair.0, next.0) {
                return false;
            }
        }
    }
    true
}
