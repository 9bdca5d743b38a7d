//! Declared types in, their states and whether they may be dropped out.
//! Read `vlt_core/specs/Types.antt` first, then `specs/Types.antt`.
//! Used by: the rules on bodies.
#![tactic(auto)]

mod declared;
mod queries;

pub use declared::Declared;
pub use queries::{is_marked, is_plain, lies_within};
