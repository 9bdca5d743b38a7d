//! Laws of calls, on the way in, back, and of the host: nothing goes in and nothing comes out.
//! Read `specs/Calls.antt` first, then `specs/Callee.antt`, `specs/Returned.antt` and `specs/HostAnswers.antt`.
//! Used by: `vlt_sound`. No run of an accepted program goes wrong.
#![tactic(auto)]

mod answers;
mod bodies;
mod calls;
mod delivered;
mod entering;
mod given;
mod hosts;
mod leaving;
mod pieces;
mod results;
mod returns;
mod told;

pub use answers::answers_are_safe;
pub use bodies::calls_are_safe;
pub use calls::{foci_change_no_head, no_focus_is_open_at_a_return};
pub use delivered::results_are_delivered;
pub use entering::callees_begin;
pub use given::given_keys_have_what_they_name;
pub use hosts::externals_are_safe;
pub use leaving::callers_go_on;
pub use pieces::pieces_are_given;
pub use results::{cases_are_given, references_are_given};
pub use returns::returns_are_safe;
pub use told::answered_states_are_told;
