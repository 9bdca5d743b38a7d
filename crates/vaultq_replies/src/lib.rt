//! A verdict on a text goes in; the answer to a question about its program comes out.
//! Read `specs/Replies.antt` (IsAnswerTo) first.
//! Used by: `vaultq_core::vaultq`, whose clauses say of every question that it is answered so.
#![tactic(auto)]

mod keys;
mod names;
mod paths;
mod replies;

pub use replies::{USAGE, answer_to_verdict};
