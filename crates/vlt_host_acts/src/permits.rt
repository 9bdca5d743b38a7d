//! What a host holds and which calls it may make: a program, its objects and those of the host in, yes or no out.
//! Read `vlt_host_meaning/specs/Permitted.antt` first, then `specs/Permits/Held.antt` and `specs/Permits/Hosted.antt`.
//! Used by: the acts of a host's call, and `vlt_host::machine`.

mod arguments;
mod entries;
mod held;
mod hosted;
mod permitted;

pub use arguments::{object_of_key, position};
pub use entries::parameters;
pub use held::Held;
pub use hosted::Hosted;
