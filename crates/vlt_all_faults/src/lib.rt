//! All faults of a function: a function goes in, and the first fault of each key and of each variable that has one comes out.
//! Read `vlt_all_faults_laws/specs/Each.antt` first.
//! Used by: the replies of `faults` and `paths`.
#![tactic(auto)]

mod list;
mod token;

pub use list::faults_in;
