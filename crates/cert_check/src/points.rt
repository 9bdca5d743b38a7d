//! A map that reaches a point is to lie below the one that the notes give there.

ghost use Rattle.std.specs.Prelude.{◌≡◌, ◌∷◌, []};
ghost use Rattle.vlt_core.specs.HeldView.{status_of, wanted_of};
ghost use Rattle.vlt_keyset.specs.Held.{map_of};
ghost use Rattle.cert_check.specs.Tests.{below_test, as_wanted};
ghost use Rattle.cert_check.specs.Notes.{IsOrdered, annotation_of, map_at};
ghost use Rattle.cert_check.specs.Outcomes.{AreTested};

use crate::dense::dense;
use crate::errors::{Refusal, Stop};
use crate::finding::pairs_of;
use crate::given::Given;
use crate::side::Side;
use vlt_core::{Status, Wanted};
use vlt_keyset::Held;

/// A map's status, as what is wanted.
fn as_wanted(status: Status) -> Wanted
    ensures { wanted_of result ≡ as_wanted (status_of status) }
{
    match status {
        Status::Absent => Wanted::Absent,
        Status::Held(states) => Wanted::In(states),
        Status::Lent(_) => Wanted::Lent,
        Status::Full => Wanted::Full,
    }
}

/// Tests that the map lies below that of the statement n. The test belongs to the statement `of`.
pub fn test_below(
    given: &Given<'_>,
    side: Side,
    n: usize,
    of: usize,
    held: &Held,
) -> Result<(), Stop>
    requires { IsOrdered given.now }
    ensures { AreTested result
        (below_test of (map_of held.now) (map_at side (annotation_of given.now) n) ∷ [])
        (λ u. Unit {0}) }
{
    match held.first_apart(pairs_of(given, side, n)) {
        None => Ok(()),
        Some(apart) => Err(Stop::Refused(Refusal {
            statement: of,
            tok: apart.tok,
            found: apart.found,
            wanted: as_wanted(apart.wanted),
        })),
    }
}

/// The map of the statement n, dense. It is made only where another was found below it, so it has no more tokens than that one.
pub fn map_of_note(given: &Given<'_>, side: Side, n: usize) -> Result<Held, Stop>
    requires { IsOrdered given.now }
    ensures { AreTested result [] (λ h. map_of h ≡ map_at side (annotation_of given.now) n) }
{
    let held = dense(given.alloc, pairs_of(given, side, n))?;
    Ok(held)
}
