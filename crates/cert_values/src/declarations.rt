//! Declarations of a core program in, the text that a certificate has of their rows out.
//! Read `cert_rows/specs/Rows.antt` first, then `specs/Declarations/Names.antt`.
//! Used by: `cert_write`.

mod functions;
mod heads;
mod names;
mod sets;
mod types;

pub use functions::put_fn;
pub use names::Unwritten;
pub use sets::put_set;
pub use types::put_type;
