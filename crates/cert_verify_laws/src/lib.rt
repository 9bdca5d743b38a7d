//! Laws on C files that verify: nothing goes in and nothing comes out.
//! Read `specs/Promises.antt` first, then `specs/Emitted.antt`, `specs/CodePrograms.antt` and `specs/Causes.antt`.
//! Used by: the commands `emit` and `verify`, which promise them.
#![tactic(auto)]

mod causes;
mod codes;
mod emitted;
mod outcomes;
mod promises;

pub use causes::{
    accepted_texts_can_be_certified, texts_are_judged, texts_can_be_searched, texts_have_flows,
    texts_have_numbers,
};
pub use codes::{certificates_are_of_code, texts_are_of_code};
pub use emitted::{emitted_files_verify, least_certificates_fit, places_keep_counts};
pub use outcomes::c_files_verify_in_some_way;
pub use promises::{verified_files_keep_their_promise, verified_programs_go_right};
