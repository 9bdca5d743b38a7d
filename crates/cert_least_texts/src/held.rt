//! Notes that hold, the least ones or others.

ghost use Rattle.cert_least_texts.specs.Held.{HeldNotesAreLocal, HeldAnnotationsAreLocal};

use cert_text_laws::texts_are_limited;
use cert_write::notes_are_kept;
use vlt_resolve_laws::elaborated_programs_are_kinded;

/// Notes whose maps hold in each instance of each body are local as those of a certificate.
pub fn held_notes_are_local()
    ensures { HeldNotesAreLocal }
{}

/// Annotations that hold in each instance of each body are local as they are written.
pub fn held_annotations_are_local()
    ensures { HeldAnnotationsAreLocal }
{
    texts_are_limited();
    elaborated_programs_are_kinded();
    notes_are_kept();
}
