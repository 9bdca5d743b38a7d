//! Rows of JSON in; the statements that they say out, as far as they go, and of those a body of the core with its maps.
//! Read `specs/Reads.antt` first, then `specs/Bodies.antt` and `specs/Notes.antt`.
//! Used by: `cert_read`, which reads a whole certificate.
#![tactic(auto)]

ghost use Rattle.cert_read_bodies.specs.Bodies.{StatementsAreRows, BodiesAreRead};

mod forms;
mod notes;
mod plain;
mod read;
mod tree;

pub use forms::stmts;
pub use notes::{MapsNote, Notes};
pub use read::{ReadBlock, read_block};
pub use tree::{Arm, Block, Draft};

/// A value is read as a statement's row where it is read as a row and that is a statement's.
pub fn statements_are_rows()
    ensures { StatementsAreRows }
{}

/// What is read of a body by its statements' rows alone is what all rows say.
pub fn bodies_are_read()
    ensures { BodiesAreRead }
{}
