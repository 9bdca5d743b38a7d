//! A value of JSON in; the row of a declaration of a certificate out, or none.
//! Read `specs/Rows.antt` first, then of `cert_rows` `specs/Rows.antt`.
//! Used by: `cert_read`, which reads a whole certificate.
#![tactic(auto)]

ghost use Rattle.cert_read_decls.specs.Rows.{DeclarationsAreRows};

mod fn_rows;
mod lists;
mod names;
mod rows;
mod sets;
mod type_rows;
mod types;
mod values;

pub use fn_rows::{FnLists, FnRow};
pub use rows::{DeclRow, decl_row};
pub use type_rows::{AbstractRow, StructRow, VariantRow};

/// A value is read as a declaration's row where it is read as a row and that is a declaration's.
pub fn declarations_are_rows()
    ensures { DeclarationsAreRows }
{}
