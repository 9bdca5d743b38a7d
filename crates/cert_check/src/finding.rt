//! The note of a statement.

ghost use Rattle.std.specs.Prelude.{◌≡◌, ◌<◌, IfSome, IfNone};
ghost use Rattle.cert_check.specs.Notes.{pairs_at, pairs_of, number_of, IsOrdered};
ghost use Rattle.cert_check.specs.Finding.{IsFound, HasNoNote};

use crate::given::Given;
use crate::side::Side;
use cert_read_bodies::MapsNote;
use vlt_core::{Status, Tok, TokMap};

/// The number of the note's statement.
pub fn number(note: &MapsNote) -> usize
    ensures { result ≡ number_of note.now }
{
    match note {
        MapsNote::Loop { stmt, around, exit } => *stmt,
        MapsNote::Join { stmt, maps } => *stmt,
    }
}

/// The pairs of the instance's map; none where there are fewer maps.
pub fn pairs_at<'n>(maps: &'n [TokMap], instance: usize) -> &'n [(Tok, Status)]
    ensures { result.now ≡ pairs_at maps.now instance }
{
    match maps.get(instance) {
        Some(map) => map.pairs.as_slice(),
        None => &[],
    }
}

/// The place of the statement's note, by halving.
fn find(given: &Given<'_>, n: usize) -> Option<usize>
    requires { IsOrdered given.now }
    ensures some { IfSome result (λ i. IsFound given.now.notes.now i n) }
    ensures none { IfNone result (HasNoNote given.now.instance given.now.notes.now n) }
{
    let notes = given.notes;
    let mut low = 0;
    let mut high = notes.len();
    while low < high {
        let mid = low + (high - low) / 2;
        let at = number(&notes[mid]);
        if at == n {
            return Some(mid);
        }
        if at < n {
            low = mid + 1;
        } else {
            high = mid;
        }
    }
    None
}

/// The pairs of the statement's map; none where no note has it.
pub fn pairs_of<'n>(given: &Given<'n>, side: Side, n: usize) -> &'n [(Tok, Status)]
    requires { IsOrdered given.now }
    ensures { result.now ≡ pairs_of side given.now.instance given.now.notes.now n }
{
    let notes = given.notes;
    match find(given, n) {
        None => &[],
        Some(i) => match (&notes[i], side) {
            (MapsNote::Loop { stmt, around, exit }, Side::Around) => {
                pairs_at(around.as_slice(), given.instance)
            }
            (MapsNote::Loop { stmt, around, exit }, Side::Following) => {
                pairs_at(exit.as_slice(), given.instance)
            }
            (MapsNote::Join { stmt, maps }, Side::Around) => &[],
            (MapsNote::Join { stmt, maps }, Side::Following) => {
                pairs_at(maps.as_slice(), given.instance)
            }
        },
    }
}
