//! Externals of a core program in; the functions of C that stand for them, out.
//! Read `c_lower/specs/Glue.antt` first, then `specs/Glue/Picks.antt` and `specs/Glue/Parts.antt`.
//! Used by: `c_lower_program::lower`.

mod calls;
mod cases;
mod externals;
mod keys;
mod masks;
mod payloads;
mod results;
mod states;

pub use externals::{gives_many_cases, lower_externals};
