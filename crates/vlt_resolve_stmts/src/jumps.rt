//! `break` and `continue`.

ghost use Rattle.std.specs.Prelude.{◌≡◌, ◌∷◌, [], IfOk, OnOk};
ghost use Rattle.vlt_core.specs.Core as core;
ghost use Rattle.vlt_kinds_types.specs.Names.Refusals.{least_from};
ghost use Rattle.vlt_resolve_exprs.specs.Seen.{forms_of};
ghost use Rattle.vlt_resolve_stmts.specs.Seen.{around_seen};
ghost use Rattle.vlt_elaboration.specs.Statements as s;

use crate::around::Around;
use std::alloc::{AllocError, Global};
use vlt_core::Form;
use vlt_core::rules::WRONG_JUMP;
use vlt_kinds_types::LeastRefusal;
use vlt_resolve_exprs::Forms;

#[tactic(auto, unfolding(vlt_elaboration::specs::Statements::jump_refused))]
fn check_jump(around: Around<'_>, at: u32, found: &mut LeastRefusal)
    ensures { found.new.least ≡ least_from found.old.least
        (s.jump_refused (around_seen around.entry) at) }
{
    found.add_if(!around.in_loop, WRONG_JUMP, at);
}

/// A jump out of the innermost loop, or to its head.
pub fn jump(
    alloc: Global,
    around: Around<'_>,
    continues: bool,
    at: u32,
    found: &mut LeastRefusal,
) -> Result<Forms, AllocError>
    ensures refused { OnOk result (found.new.least ≡ least_from found.old.least
        (s.jump_refused (around_seen around.entry) at)) }
    ensures forms { IfOk result (λ fs. forms_of fs ≡ core.jump continues ∷ []) }
{
    check_jump(around, at, found);
    Forms::one(alloc, Form::Jump { continues })
}
