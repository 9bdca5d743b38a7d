//! Laws that join certificates with the programs of texts: nothing goes in and nothing comes out.
//! Read `specs/Texts.antt` first, then `Fit`.
//! Used by: `c_lower_printed`, and the laws on certificates that `emit` writes and `verify` tests.
//! Its parts: `linked` is about modules that link, `json_names` about names in certificates.
#![tactic(auto)]

mod fit;
mod json_names;
mod linked;
mod texts;

pub use fit::{certificates_are_fit, verified_are_accepted_programs, verified_programs_run_alike};
pub use json_names::texts_have_text_names;
pub use linked::joined_programs_are_of_texts;
pub use texts::{texts_are_light, texts_are_limited, texts_have_few_statements};
