//! The rows of each statement: from the core program to rows, taken one after another.
//! Read `specs/Taking.antt` first.
//! Used by: the check, the witness and the certificate's check.
#![tactic(auto)]

ghost use Rattle.std.specs.Prelude.{◌≡◌, MatchResult};
ghost use Rattle.vlt_core.specs.Bodies as s;
ghost use Rattle.vlt_core.specs.Instances.{instance};
ghost use Rattle.vlt_core.specs.View.{program_of, func_of};
ghost use Rattle.vlt_rows.specs.FlowView.{block_view};
ghost use Rattle.vlt_rows.specs.Unfit.{UnfitBy, HasNoFlow};

mod body;
mod calls;
mod expr;
mod held;
mod instances;
mod list;
mod pieces;
mod sink;
mod statements;
mod states;
mod steps;
mod tree;

use crate::body::{all_tokens, flow_stmts};
use crate::instances::Instance;
pub use calls::{give_call, give_handed_back, give_return};
pub use expr::{give_expr, give_operand, give_operands};
pub use instances::{has_instance, origins};
pub use pieces::give_gone;
pub use sink::{RowError, RowSink, WideRow};
pub use statements::{
    give_adopt, give_arm, give_build, give_focus, give_focus_end, give_form, give_switch,
};
pub use states::{States, states_before};
use std::alloc::Global;
pub use steps::{adopt, apply_call, focus_in, focus_out, open_case, pack_case};
pub use tree::{Flow, FlowArm, FlowBlock, FlowStmt};
use vlt_base::Items;
use vlt_core::{Func, Program};

/// The flow of a function's whole body in the instance of this origin. `Unfit` where one of its rows names states that no set
/// has, or where the function has more keys or variables than there are numbers.
pub fn body_flow(
    alloc: Global,
    p: &Program,
    f: &Func,
    origin: Option<u8>,
) -> Result<FlowBlock, RowError>
    ensures { MatchResult result
        (λ x. block_view x ≡ s.body_flow (program_of p.now)
        (instance (program_of p.now) (func_of f.now) origin))
        (UnfitBy (HasNoFlow (program_of p.now)
        (instance (program_of p.now) (func_of f.now) origin))) }
{
    let tokens = all_tokens(alloc, f)?;
    let i = Instance {
        program: p,
        func: f,
        origin,
    };
    Ok(FlowBlock {
        stmts: flow_stmts(alloc, &i, tokens.as_slice(), &[], f.body.as_slice())?,
        bound: Items::new(alloc),
        end: f.end,
    })
}
