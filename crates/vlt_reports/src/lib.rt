//! The lines of the check: a refused rule, a fault, a path or an accepted program goes in, a line comes out.
//! Read `specs/Reports.antt` first.
//! Used by: the replies of `check` and `explain`, and those of `vaultq`; `bodies` also by that of `load`.
#![tactic(auto)]

mod lines;
mod names;
mod paths;
mod places;
mod statuses;
mod ticks;

pub use lines::{accepted, bodies, fault, fault_at, kind};
pub use names::{state_names, token_name};
pub use paths::{instance, path_lines};
pub use places::{Place, place_from, text_start};
pub use statuses::add_set;
