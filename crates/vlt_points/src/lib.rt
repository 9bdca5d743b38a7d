//! What paths find of each token at each point of a program: a core program goes in, the lines of `keys` come out.
//! Read `vlt_points_laws/specs/Points.antt` first, then `specs/Lines.antt`.
//! Used by: the reply of `keys`.
#![tactic(auto)]

mod found;
mod kept;
mod lines;
mod page;
mod points;
mod sweep;
mod words;

pub use lines::keys_lines;
