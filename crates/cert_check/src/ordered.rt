//! Whether notes are in order.

ghost use Rattle.std.specs.Prelude.{◌<◌, ◌↔◌, IsTrue};
ghost use Rattle.cert_check.specs.Notes.{number_of, IsOrderedNote, AreOrdered};

use crate::finding::{number, pairs_at};
use cert_read_bodies::MapsNote;
use vlt_keyset::in_order;

fn is_ordered(note: &MapsNote, instance: usize) -> bool
    ensures { IsTrue result ↔ IsOrderedNote instance note.now }
{
    match note {
        MapsNote::Loop { stmt, around, exit } => {
            in_order(pairs_at(around.as_slice(), instance))
                && in_order(pairs_at(exit.as_slice(), instance))
        }
        MapsNote::Join { stmt, maps } => in_order(pairs_at(maps.as_slice(), instance)),
    }
}

fn is_before(x: &MapsNote, y: &MapsNote) -> bool
    ensures { IsTrue result ↔ number_of x.now < number_of y.now }
{
    number(x) < number(y)
}

/// Whether the numbers of statements ascend, and each map of the instance is in order.
pub fn are_ordered(notes: &[MapsNote], instance: usize) -> bool
    ensures { IsTrue result ↔ AreOrdered instance notes.now }
{
    let count = notes.len();
    for j in 0..count {
        let i = count - 1 - j;
        let note = &notes[i];
        if !is_ordered(note, instance) {
            return false;
        }
        if j > 0 {
            if !is_before(note, &notes[i + 1]) {
                return false;
            }
        }
    }
    true
}
