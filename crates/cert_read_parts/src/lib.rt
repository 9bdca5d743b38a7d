//! A value of JSON in; a part of a certificate's row out, or none: a number, a text, a set of states, a token, a list of those.
//! And whether a statement ends, with maps after it, or 0 in their place, against that.
//! Read of `cert_rows` `specs/Parts.antt` and `specs/Values.antt` first, then of `cert_format` `specs/Endings.antt`.
//! Used by: `cert_read_rows` and `cert_read_decls`, which read rows, `cert_read_bodies`, which reads bodies, and `cert_read`.
#![tactic(auto)]

mod endings;
mod parts;

pub use endings::{Ending, at_odds, both, cut_ending, or_else};
pub use parts::{
    array, flag, four, id, id_or_none, key_list, mask, number, number_u8, number_u32, one, text,
    three, token, token_list, two, var_list, var_or_none,
};
