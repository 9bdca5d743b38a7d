//! A core program in; the first row that breaks a rule on names and types out, with the least rule that it breaks, or none.
//! Read of `vlt_core` `specs/Kinded.antt` first, then `specs/Outcomes.antt`.
//! Used by: `cert_verify`.
#![tactic(auto)]

mod declarations;
mod functions;
mod starts;
mod walking;
mod whole;

pub use whole::{KindedError, kinded};
