//! A core program and the notes of its functions in, the text of its certificate out.
//! Read `cert_format/specs/Certificate.antt` first, then `specs/Notes.antt`.
//! Used by: `cert_emit`.
//! Its part `json_laws` has the laws on the compact text.
#![tactic(auto)]

mod cursor;
mod ends;
mod json_laws;
mod laws;
mod maps;
mod notes;
mod ordered;
mod own;
mod program;
mod walk;

pub use cert_values::Unwritten;
pub use json_laws::{compact_texts_are_read_back, names_stay_without_places};
pub use laws::notes_are_kept;
pub use program::to_text;
