//! Annotations of the code that make the least certificate.

ghost use Rattle.cert_least_texts.specs.Texts.{AnnotationsAreLeast};

use cert_text_laws::texts_are_limited;
use cert_write::notes_are_kept;
use vlt_resolve_laws::elaborated_programs_are_kinded;

/// The notes that are written of the least annotations of a program's bodies are its least certificate.
pub fn annotations_are_least()
    ensures { AnnotationsAreLeast }
{
    texts_are_limited();
    elaborated_programs_are_kinded();
    notes_are_kept();
}
