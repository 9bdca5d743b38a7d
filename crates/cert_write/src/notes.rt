//! The note of a statement. Notes stand in the order of their statements, so the note at a walk's cursor is the one that
//! is wanted; where it isn't, all are looked through.

ghost use Rattle.std.specs.Prelude.{◌≡◌, ◌+◌, take, IsTrue, IfOk, OnSome};
ghost use Rattle.std.specs.Option.{option_copied};
ghost use Rattle.cert_write.specs.Notes.{number_of, note_at as note_of};
ghost use Rattle.cert_write.specs.Rows.{AreBefore, AreAllBefore, IsReady};

use crate::cursor::Cursor;
use std::alloc::AllocError;
use vlt_core::{Annotation, Note};

fn number(note: &Note) -> usize
    ensures { result ≡ number_of note.now }
{
    match note {
        Note::Loop { stmt, .. } => stmt.0 as usize,
        Note::Join { stmt, .. } => stmt.0 as usize,
    }
}

fn find(notes: &[Note], n: usize) -> Option<&Note>
    ensures { option_copied result ≡ note_of notes.now n }
{
    for note in notes {
        if number(note) == n {
            return Some(note);
        }
    }
    None
}

/// The note at the cursor, if it is the next statement's.
fn next_note(notes: &[Note], from: Cursor) -> Option<&Note>
    requires { AreBefore from.next (take from.at notes.now) }
    ensures value { OnSome result (option_copied result ≡ note_of notes.now from.next) }
    ensures before { OnSome result (AreBefore (from.next + 1) (take (from.at + 1) notes.now)) }
{
    let note = notes.get(from.at)?;
    if number(note) == from.next {
        Some(note)
    } else {
        None
    }
}

/// The first note of the next statement.
pub fn note_at(notes: &[Note], from: Cursor) -> Option<&Note>
    requires { AreBefore from.next (take from.at notes.now) }
    ensures { option_copied result ≡ note_of notes.now from.next }
{
    match next_note(notes, from) {
        Some(note) => Some(note),
        None => find(notes, from.next),
    }
}

/// Whether the note at the cursor is the next statement's, in each annotation.
fn are_next(annotations: &[Annotation], from: Cursor) -> bool
    requires { AreAllBefore annotations.now from }
    ensures { IsTrue result → AreAllBefore annotations.now
        (record { next = from.next + 1; at = from.at + 1 }) }
{
    for annotation in annotations {
        if next_note(annotation.maps.as_slice(), from).is_none() {
            return false;
        }
    }
    true
}

/// The cursor after a statement's own row. There is none after the last number of a `usize`, nor memory for so many statements.
pub fn after(annotations: &[Annotation], from: Cursor) -> Result<Cursor, AllocError>
    requires { IsReady annotations.now from }
    ensures next { IfOk result (λ to. to.next ≡ from.next + 1) }
    ensures ready { IfOk result (λ to. IsReady annotations.now to) }
{
    if from.next == usize::MAX {
        return Err(AllocError);
    }
    let at = if are_next(annotations, from) {
        from.at + 1
    } else {
        from.at
    };
    Ok(Cursor {
        next: from.next + 1,
        at,
    })
}
