//! One status: whether a row wants it, what the row leaves, and the union of two.

ghost use Rattle.std.specs.Prelude.{◌≡◌, ◌↔◌, ◌<◌, IsTrue};
ghost use Rattle.vlt_core.specs.HeldView.{status_of, wanted_of, after_of};
ghost use Rattle.vlt_core.specs.Maps.{IsWanted, IsStatusBelow, kind_of};
ghost use Rattle.vlt_core.specs.Maps as maps;
ghost use Rattle.vlt_keyset.specs.Statuses.{IsUnion, IsUnited, IsNearer};

use vlt_base::StateSet;
use vlt_core::{After, Status, Wanted};

pub fn is_wanted(wanted: Wanted, s: Status) -> bool
    ensures { IsTrue result ↔ IsWanted (wanted_of wanted) (status_of s) }
{
    match (wanted, s) {
        (Wanted::Absent, Status::Absent) => true,
        (Wanted::Any, Status::Held(_)) => true,
        (Wanted::In(w), Status::Held(m)) => m.within(w),
        (Wanted::Lent, Status::Lent(_)) => true,
        (Wanted::Full, Status::Full) => true,
        _ => false,
    }
}

/// The status after a row.
pub fn changed(after: After, s: Status) -> Status
    ensures { status_of result ≡ maps.status_after (after_of after) (status_of s) }
{
    match (after, s) {
        (After::Absent, _) => Status::Absent,
        (After::Set(m), _) => Status::Held(m),
        (After::Full, _) => Status::Full,
        (After::Lend, Status::Held(m)) => Status::Lent(m),
        (After::Unlend, Status::Lent(m)) => Status::Held(m),
        _ => s,
    }
}

/// Whether both are of one kind, and each state of the first is one of the second.
pub fn is_below(a: Status, b: Status) -> bool
    ensures { IsTrue result ↔ IsStatusBelow (status_of a) (status_of b) }
{
    match (a, b) {
        (Status::Absent, Status::Absent) => true,
        (Status::Held(s), Status::Held(t)) => s.within(t),
        (Status::Lent(s), Status::Lent(t)) => s.within(t),
        (Status::Full, Status::Full) => true,
        _ => false,
    }
}

/// Whether both are of one kind.
pub fn is_alike(a: Status, b: Status) -> bool
    ensures { IsTrue result ↔ (kind_of (status_of a) ≡ kind_of (status_of b)) }
{
    match (a, b) {
        (Status::Absent, Status::Absent) => true,
        (Status::Held(_), Status::Held(_)) => true,
        (Status::Lent(_), Status::Lent(_)) => true,
        (Status::Full, Status::Full) => true,
        _ => false,
    }
}

/// The union of two sets.
fn unite(s: StateSet, t: StateSet) -> StateSet
    ensures value { IsUnited s t result }
{
    s.join(t)
}

/// The least status above both.
pub fn union(a: Status, b: Status) -> Status
    requires alike { kind_of (status_of a) ≡ kind_of (status_of b) }
    ensures union { IsUnion (status_of a) (status_of b) (status_of result) }
    ensures nearer { IsNearer a b result }
{
    match (a, b) {
        (Status::Held(s), Status::Held(t)) => Status::Held(unite(s, t)),
        (Status::Lent(s), Status::Lent(t)) => Status::Lent(unite(s, t)),
        _ => a,
    }
}

fn is_same_set(s: StateSet, t: StateSet) -> bool
    ensures { IsTrue result ↔ (s ≡ t) }
{
    s.mask() == t.mask()
}

pub fn is_same(a: Status, b: Status) -> bool
    ensures { IsTrue result ↔ (a ≡ b) }
{
    match (a, b) {
        (Status::Absent, Status::Absent) => true,
        (Status::Held(s), Status::Held(t)) => is_same_set(s, t),
        (Status::Lent(s), Status::Lent(t)) => is_same_set(s, t),
        (Status::Full, Status::Full) => true,
        _ => false,
    }
}
