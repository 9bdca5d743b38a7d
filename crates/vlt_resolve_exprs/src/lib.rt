//! Expressions: an expression of the tree and the names in scope in, its type, the least refusal and the core expression out.
//! Read `specs/Scopes.antt` first, then `Exprs`, `Operands`, `Bindings` and `Targets`.
//! Used by: the elaboration of right sides and statements.
#![tactic(auto)]

mod bindings;
mod exprs;
mod forms;
pub mod limits;
mod operands;
mod scope;
mod targets;
mod types;

pub use bindings::{
    add_several, check_new_key, check_new_var, check_too_many_keys, check_too_many_vars,
};
pub use exprs::{
    Object, check_any, check_field, check_known, check_wanted, copied, core_expr, field_at,
    field_named, fields_of, known_or_first, object_in, place, type_of, var_number,
};
pub use forms::Forms;
pub use operands::{check_operand, check_operands, core_operand, core_operands, core_variable};
pub use scope::{Outer, Scope};
pub use targets::Target;
pub use types::{
    copy_ty, is_owning, is_struct, is_variant, lies_within, same_keys, same_object, same_ty, takes,
    ty_under, unpacks,
};
