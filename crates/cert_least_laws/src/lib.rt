//! Laws on the least certificate of a program: nothing goes in and nothing comes out.
//! Read `specs/LeastNotes.antt` first, then `Laws`.
//! Used by: `cert_least_texts`, whose laws are on texts.
//! Its part `bodies` has the law that accepted programs have least certificates.
#![tactic(auto)]

mod bodies;
mod notes;

pub use bodies::{accepted_bodies_have_notes, accepted_programs_have_one};
pub use notes::{
    least_certificates_are_complete, least_certificates_are_local, least_certificates_are_one,
    least_certificates_have_no_places,
};
