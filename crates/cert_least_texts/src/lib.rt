//! Laws on the least certificates of the programs of texts: nothing goes in and nothing comes out.
//! Read `specs/Annotated.antt` first, then `Texts` and `Held`.
//! Used by: the emitted text of a program, which has one certificate.
#![tactic(auto)]

mod annotations;
mod held;
mod texts;

pub use annotations::annotations_are_least;
pub use held::{held_annotations_are_local, held_notes_are_local};
pub use texts::{
    accepted_texts_have_one, elaborated_programs_verify, least_certificates_are_read_back,
    least_certificates_verify,
};
