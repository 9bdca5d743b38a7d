//! A C program in; the run of a machine on plain data, and how large its tables have to be, out.
//! Read `specs/Machine.antt` (move_of) first, then `specs/Bounds.antt` and `specs/Laws.antt`: they serve `c_interp` alone.
//! Used by: `c_interp::CMachine::go`.
#![tactic(auto)]

mod counts;
mod laws;
mod sizes;

pub use counts::{list_count, longest_name, stmt_count};
pub use laws::{machine_is_the_run, tables_suffice};
pub use sizes::{block_cells, is_too_wide, tall, value_slots};
