//! A core program and budgets in; tables that suffice for a whole run of it out.
//! Read `vlt_core/specs/Widths.antt` first, then `specs/Rooms/Rooms.antt` and `specs/Rooms/Start.antt`.
//! Used by: the machine, which takes all its memory before a run begins.

mod parts;
mod rooms;
mod slots;
mod start;
mod tasks;

pub use slots::{is_too_wide, is_too_wide_for_host};
pub use start::{Start, prepare};
