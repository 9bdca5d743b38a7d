//! Laws of statements, and of what they make, open and end: nothing goes in and nothing comes out.
//! Read `specs/Makings.antt` first, then `specs/Kinded.antt`.
//! Used by: `vlt_sound`. No run of an accepted program goes wrong.
#![tactic(auto)]

mod blocks;
mod ends;
mod focus_steps;
mod made;
mod opens;
mod simple;
mod statements;
mod switch;

pub use blocks::{blocks_are_safe, branches_are_safe, lists_are_safe};
pub use ends::ending_steps_are_safe;
pub use focus_steps::focuses_are_safe;
pub use made::making_is_safe;
pub use opens::opening_is_safe;
pub use simple::simple_statements_are_safe;
pub use statements::{bodies_are_safe, statements_are_safe};
pub use switch::switches_are_safe;
