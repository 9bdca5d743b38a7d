//! The steps of a traced run that go on to the next statement: a statement, the frame and the world go in, and what the step leaves of them comes out.
//! Read `vlt_meaning/specs/Run.antt` (does_simple) first, then `specs/Does.antt`.
//! Used by: the moves of `vaultq trace`, which carries out a run with all its tests.
#![tactic(auto)]

mod cases;
mod focus;
mod objects;
mod owned;
mod plain;
mod simple;
mod values;
mod variants;

pub use cases::{CaseKey, case_keys, open_case, pack_case};
pub use focus::end_focus;
pub use simple::do_simple;
pub use values::{all_objects_in, fill_all, objects_in, operand, operands};
