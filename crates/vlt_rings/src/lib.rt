//! Numbered things that hang on one another in; a place for each out, used again once its thing is gone.
//! Read `specs/Things.antt` (Holds) first: the things that the places hold, by number.
//! Used by: `Places::release`, which lets go of a thing and of all below it, without recursion and without memory.
#![tactic(auto)]

mod places;
mod rings;

pub use places::Places;
