//! The maps of a statement: one of each annotation.

ghost use Rattle.std.specs.Prelude.{◌≡◌, [], map, take, false, Some, OnOk};
ghost use Rattle.cert_rows.specs.Parts.{list};
ghost use Rattle.cert_rows.specs.Values.{map_part};
ghost use Rattle.cert_values.specs.Laid.{laid};
ghost use Rattle.cert_write.specs.Notes.{note_at as note_of, around_in, after_in, maps_in};
ghost use Rattle.cert_write.specs.Rows.{AreBefore, AreAllBefore, maps_data, join_data};

use crate::cursor::Cursor;
use crate::notes::note_at;
use cert_values::{CertText, put_map};
use std::alloc::AllocError;
use vlt_core::{Annotation, Note};

fn put_no_map(out: &mut CertText) -> Result<(), AllocError>
    ensures { OnOk result (out.new ≡ laid (map_part.data_of []) out.old) }
{
    out.begin()?;
    out.end()
}

fn put_note_around(out: &mut CertText, note: &Note) -> Result<(), AllocError>
    ensures { OnOk result (out.new
        ≡ laid (map_part.data_of (around_in (Some note.now))) out.old) }
{
    match note {
        Note::Loop { around, .. } => put_map(out, around),
        Note::Join { .. } => put_no_map(out),
    }
}

fn put_note_after(out: &mut CertText, note: &Note) -> Result<(), AllocError>
    ensures { OnOk result (out.new
        ≡ laid (map_part.data_of (after_in (Some note.now))) out.old) }
{
    match note {
        Note::Loop { exit, .. } => put_map(out, exit),
        Note::Join { map, .. } => put_map(out, map),
    }
}

fn put_around(out: &mut CertText, notes: &[Note], from: Cursor) -> Result<(), AllocError>
    requires { AreBefore from.next (take from.at notes.now) }
    ensures { OnOk result (out.new
        ≡ laid (map_part.data_of (around_in (note_of notes.now from.next))) out.old) }
{
    match note_at(notes, from) {
        Some(note) => put_note_around(out, note),
        None => put_no_map(out),
    }
}

fn put_after(out: &mut CertText, notes: &[Note], from: Cursor) -> Result<(), AllocError>
    requires { AreBefore from.next (take from.at notes.now) }
    ensures { OnOk result (out.new
        ≡ laid (map_part.data_of (after_in (note_of notes.now from.next))) out.old) }
{
    match note_at(notes, from) {
        Some(note) => put_note_after(out, note),
        None => put_no_map(out),
    }
}

fn put_each_around(
    out: &mut CertText,
    annotations: &[Annotation],
    from: Cursor,
) -> Result<(), AllocError>
    requires { AreAllBefore annotations.now from }
    ensures { OnOk result (out.new ≡ laid (list (map map_part.data_of
        ((maps_in annotations.now).around from.next))) out.old) }
{
    out.begin()?;
    for annotation in annotations {
        put_around(out, annotation.maps.as_slice(), from)?;
    }
    out.end()
}

fn put_each_after(
    out: &mut CertText,
    annotations: &[Annotation],
    from: Cursor,
) -> Result<(), AllocError>
    requires { AreAllBefore annotations.now from }
    ensures { OnOk result (out.new ≡ laid (list (map map_part.data_of
        ((maps_in annotations.now).following from.next))) out.old) }
{
    out.begin()?;
    for annotation in annotations {
        put_after(out, annotation.maps.as_slice(), from)?;
    }
    out.end()
}

fn put_first_around(
    out: &mut CertText,
    annotations: &[Annotation],
    from: Cursor,
) -> Result<(), AllocError>
    requires { AreAllBefore annotations.now from }
    ensures { OnOk result (out.new
        ≡ laid (maps_data false ((maps_in annotations.now).around from.next)) out.old) }
{
    match annotations.first() {
        Some(annotation) => put_around(out, annotation.maps.as_slice(), from),
        None => put_no_map(out),
    }
}

fn put_first_after(
    out: &mut CertText,
    annotations: &[Annotation],
    from: Cursor,
) -> Result<(), AllocError>
    requires { AreAllBefore annotations.now from }
    ensures { OnOk result (out.new
        ≡ laid (maps_data false ((maps_in annotations.now).following from.next)) out.old) }
{
    match annotations.first() {
        Some(annotation) => put_after(out, annotation.maps.as_slice(), from),
        None => put_no_map(out),
    }
}

/// Writes the maps at the head of the next statement, a loop. With a bound entry they stand in an array.
pub fn put_maps_around(
    out: &mut CertText,
    bound: bool,
    annotations: &[Annotation],
    from: Cursor,
) -> Result<(), AllocError>
    requires { AreAllBefore annotations.now from }
    ensures { OnOk result (out.new
        ≡ laid (maps_data bound ((maps_in annotations.now).around from.next)) out.old) }
{
    if bound {
        put_each_around(out, annotations, from)
    } else {
        put_first_around(out, annotations, from)
    }
}

/// Writes the maps after the next statement, a loop or a choice.
pub fn put_maps_after(
    out: &mut CertText,
    bound: bool,
    annotations: &[Annotation],
    from: Cursor,
) -> Result<(), AllocError>
    requires { AreAllBefore annotations.now from }
    ensures { OnOk result (out.new
        ≡ laid (maps_data bound ((maps_in annotations.now).following from.next)) out.old) }
{
    if bound {
        put_each_after(out, annotations, from)
    } else {
        put_first_after(out, annotations, from)
    }
}

/// Writes what stands in place of the maps after the next statement, a choice: 0 where it ends.
pub fn put_join(
    out: &mut CertText,
    bound: bool,
    annotations: &[Annotation],
    from: Cursor,
    ends: bool,
) -> Result<(), AllocError>
    requires { AreAllBefore annotations.now from }
    ensures { OnOk result (out.new
        ≡ laid (join_data bound (maps_in annotations.now) from.next ends) out.old) }
{
    if ends {
        out.number(0)
    } else {
        put_maps_after(out, bound, annotations, from)
    }
}
