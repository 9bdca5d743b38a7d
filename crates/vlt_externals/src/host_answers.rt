//! The numbers of an answer in; whether it fits the external's clause and result, and what it says, out.
//! Read `vlt_meaning/specs/HostAnswers.antt` first, then `specs/HostAnswers/Read.antt` and `specs/HostAnswers/Whole.antt`.
//! Used by: the machine of runs, `vlt_interp`.

mod numbers;
mod pieces;
mod whole;

pub use numbers::{below, number, state};
pub use pieces::{Piece, after_entries, entry_state, following_keys, is_held_after, read_piece};
pub use whole::{CaseRead, fitting, read_case};
