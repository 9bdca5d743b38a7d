//! The values of a run: expressions and operands, the variables of a frame and the objects in; values or a trap out.
//! Read `vlt_meaning/specs/Values.antt` first, then `specs/Values/Parts.antt` and `specs/Values/Shown.antt`: the slots that values take.
//! Used by: the machine of runs, `vlt_interp`.

mod exprs;
mod operands;
mod values;
mod writes;

pub use exprs::number;
pub use operands::{push_operand, push_operands};
pub use values::Values;
pub use writes::write;
