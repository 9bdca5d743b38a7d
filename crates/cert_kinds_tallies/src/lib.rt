//! The least rule that a row breaks in, row after row; which number comes next and the first row that is broken out.
//! Read `specs/Tallies.antt` first.
//! Used by: `cert_kinds`, which walks the rows of a whole program.
#![tactic(auto)]

mod tallies;

pub use tallies::{Broken, Tally, Walked};
