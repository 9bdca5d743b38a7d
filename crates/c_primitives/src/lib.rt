//! A primitive or an assignment of a C program, the variables of a frame and a run's world in; the world after it, out.
//! Read `c_meaning/specs/Primitives.antt` first, then `c_values/specs/Shown.antt` and `specs/Shown.antt`.
//! Used by: `c_interp::CMachine::go`.
#![tactic(auto)]

mod args;
mod blocks;
mod cells;
mod halt;
mod host;
mod primitive;
mod registers;
mod tell;
mod world;

pub use halt::Halt;
pub use world::{Tables, World};
