//! Expressions and operands of a core program in; C statements, and atoms that have the values, out.
//! Read `c_lower/specs/Slots.antt`, `Guards` and `Expressions` first, then `specs/Coded.antt`.
//! Used by: `c_lower_stmts`, which lowers statements.
#![tactic(auto)]

mod atom;
mod exprs;
mod fields;
mod frame;
mod guards;
mod names;
mod nodes;
mod numbers;
mod operands;
mod overflows;
mod payloads;
mod reads;
mod scope;
mod sorts;
mod tables;
mod temps;
mod variants;

pub use atom::Atom;
pub use exprs::lower_value;
pub use fields::past_all;
pub use frame::{FrameSlots, Slot, frame_slots, slots_at};
pub use names::{Names, name_of};
pub use nodes::{Node, with_number};
pub use numbers::{Numbers, Temp, successor};
pub use operands::{Atoms, OperandAtoms, lower_expr, lower_operand, lower_operands};
pub use scope::{NO_SLOT, Scope};
pub use sorts::{Sort, sorts_of};
pub use tables::{ProgramTables, program_tables};
pub use temps::{Value, set_atom, set_temp};
