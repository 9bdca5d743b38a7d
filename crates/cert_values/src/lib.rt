//! Statements, maps, types and expressions of the core in, the text that a certificate has of them out.
//! Read `cert_rows/specs/Rows.antt` first, then `specs/Laid.antt` and `Heads`.
//! Used by: `cert_values::declarations` and `cert_write`.
//! Its part `declarations` has sets, types and heads of functions.
#![tactic(auto)]

mod blocks;
mod declarations;
mod exprs;
mod maps;
mod parts;
mod plain;
mod text;
mod types;

pub use blocks::{put_arms, put_focus, put_head, put_scope};
pub use declarations::{Unwritten, put_fn, put_set, put_type};
pub use exprs::put_expr;
pub use maps::put_map;
pub use parts::{put_mask, put_number_or_minus};
pub use plain::{is_plain, put_plain};
pub use text::CertText;
pub use types::{put_bare, put_ty};
