//! Laws that join certificates with core programs: nothing goes in and nothing comes out.
//! Read `specs/Formed.antt` first, then `Annotation` and `Programs`; of which programs have certificates, `Limits` and `Complete`.
//! Used by: `cert_text_laws`, whose laws are on texts.
#![tactic(auto)]

mod limits;
mod programs;

pub use limits::limited_programs_fit;
pub use programs::{
    certificates_are_accepted, certificates_are_formed, certificates_are_proper,
    certificates_have_arms, certificates_have_states, first_version_has_no_bounds,
};
