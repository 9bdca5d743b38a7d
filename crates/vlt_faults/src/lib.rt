//! The first fault of a refused body: from its flow to the earliest faulty row or join, over all tokens.
//! Read `vlt_core/specs/Faults.antt` first, then `specs/Judge/Blames.antt`; `finding` has what paths find of one token.
//! Used by: the check, which reports this fault with a refusal, and refuses no body without one; and by what lists all
//! faults of a program, and what paths find at each point.
#![tactic(auto)]

mod finding;
mod judge;

pub use finding::{
    Ones, Tables, find_statuses, is_empty, made, nothing, pass_gone, pass_row, pass_rows,
};
pub use judge::{
    Blame, Class, InstanceBlame, TokenBounds, blame_of, fault_in, first_blame, is_no_later,
    start_ones, statement_count, token_bounds_in,
};
