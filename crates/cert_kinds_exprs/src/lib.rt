//! Expressions, operands and bindings of a core program in; the least rule on names and types that one breaks out, or none.
//! Read of `vlt_core` `specs/KindedScopes.antt` and `specs/KindedOperands.antt` first, then `specs/Seen.antt`.
//! Used by: the rules on statements, on calls and on bodies.
#![tactic(auto)]

mod exprs;
mod operands;
mod scopes;
mod seen;
mod wanted;

pub use exprs::{
    expr_broken, field_at, field_type, misfit, not_owning_broken, touch_broken, type_of_expr,
    unless_owning, value_broken, var_type,
};
pub use operands::{is_owning_some, operand_broken, operands_broken};
pub use scopes::{Ids, binding_broken, own_key, target_broken, use_broken};
pub use seen::{Keys, Seen, below, is_owning, plain, plain_keys, same_keys, same_object, same_ty};
pub use wanted::Wanted;
