//! Right sides, declarations, assignments, returns and jumps: one of the tree and the names in scope in, the least refusal and the
//! core forms out. Read `Statements` of `vlt_elaboration` first, then its `Declarations` and `Rights`.
//! Used by: `vlt_resolve`.
#![tactic(auto)]

mod around;
mod declarations;
mod jumps;
mod returns;
mod rights;

pub use around::Around;
pub use declarations::{assign, declare, next_var};
pub use jumps::jump;
pub use returns::return_stmt;
