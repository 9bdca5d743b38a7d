//! A list that takes rows, and the lists of each statement's rows in an instance.

ghost use Rattle.std.specs.Prelude.{◌≡◌, []};
ghost use Rattle.std.specs.Option.{option_map};
ghost use Rattle.vlt_core.specs.View.{form_of, expr_of, operand_of, vars_of};
ghost use Rattle.vlt_core.specs.HeldView.{toks_of};
ghost use Rattle.vlt_core.specs.Rows.{expr_rows, arm_rows, return_rows, focus_end_rows, tokens_of};
ghost use Rattle.vlt_rows.specs.Instances.{program_in, func_in};
ghost use Rattle.vlt_rows.specs.Pieces.{own_rows, switch_rows, focus_rows};
ghost use Rattle.vlt_rows.specs.Unfit.{Lists};

use crate::calls::give_return;
use crate::expr::give_expr;
use crate::instances::Instance;
use crate::sink::{RowError, RowSink, WideRow};
use crate::statements::{give_arm, give_focus, give_focus_end, give_form, give_switch};
use std::alloc::Global;
use vlt_base::{Items, VarId};
use vlt_core::{Expr, Form, Operand, Row, Tok};

/// Keeps the rows that it takes.
#[derive(Drop)]
pub struct RowList {
    rows: Items<Row>,
}

impl RowList {
    pub fn new(alloc: Global) -> RowList
        ensures { result.rows ≡ [] }
    {
        RowList {
            rows: Items::new(alloc),
        }
    }
}

impl RowSink for RowList {
    ghost use Rattle.std.specs.Prelude.{◌≡◌, ◌++◌, ◌∷◌, []};
    ghost use Rattle.vlt_rows.specs.FlowView.{rows_view};
    ghost use Rattle.vlt_rows.specs.Unfit.{UnfitBy, IsWide};

    ghost takes = { λ r v w. rows_view w.rows ≡ rows_view v.rows ++ r ∷ [] };

    ghost stops = { λ r v e. UnfitBy (IsWide r) e };

    fn take(&mut self, row: Row) -> Result<(), RowError> {
        self.rows.push(row)?;
        Ok(())
    }

    fn take_wide(&mut self, row: WideRow) -> Result<(), RowError> {
        match row.with_set() {
            Some(row) => self.take(row),
            None => Err(RowError::Unfit),
        }
    }
}

/// The rows of an expression.
pub fn expr_list(alloc: Global, i: &Instance<'_>, e: &Expr) -> Result<Items<Row>, RowError>
    ensures { Lists (expr_rows (program_in i.now) (func_in i.now) (expr_of e.now)) result }
{
    let mut list = RowList::new(alloc);
    give_expr(i.program, i.func, e, &mut list)?;
    Ok(list.rows)
}

/// The rows of a statement without blocks that goes on to the next one.
pub fn form_list(alloc: Global, i: &Instance<'_>, form: &Form) -> Result<Items<Row>, RowError>
    ensures { Lists (own_rows (program_in i.now) (func_in i.now) (form_of form.now)) result }
{
    let mut list = RowList::new(alloc);
    give_form(i.program, i.func, form, &mut list)?;
    Ok(list.rows)
}

pub fn switch_list(alloc: Global, i: &Instance<'_>, v: VarId) -> Result<Items<Row>, RowError>
    ensures { Lists (switch_rows (func_in i.now) v.0) result }
{
    let mut list = RowList::new(alloc);
    give_switch(i.func, v, &mut list)?;
    Ok(list.rows)
}

/// The rows of an arm, before its block.
pub fn arm_list(
    alloc: Global,
    i: &Instance<'_>,
    v: VarId,
    case: u8,
    vs: &[VarId],
) -> Result<Items<Row>, RowError>
    ensures { Lists
        (arm_rows (program_in i.now) (func_in i.now) v.0 case (vars_of vs.now)) result }
{
    let mut list = RowList::new(alloc);
    give_arm(i.program, i.func, v, case, vs, &mut list)?;
    Ok(list.rows)
}

/// The rows of a focus, before its block.
pub fn focus_list(
    alloc: Global,
    i: &Instance<'_>,
    y: VarId,
    z: VarId,
) -> Result<Items<Row>, RowError>
    ensures { Lists (focus_rows (program_in i.now) (func_in i.now) y.0 z.0) result }
{
    let mut list = RowList::new(alloc);
    give_focus(i.program, i.func, y, z, &mut list)?;
    Ok(list.rows)
}

/// The rows of a focus's end.
pub fn focus_end_list(
    alloc: Global,
    i: &Instance<'_>,
    y: VarId,
    z: VarId,
) -> Result<Items<Row>, RowError>
    ensures { Lists (focus_end_rows (program_in i.now) (func_in i.now) y.0 z.0) result }
{
    let mut list = RowList::new(alloc);
    give_focus_end(i.program, i.func, y, z, &mut list)?;
    Ok(list.rows)
}

/// The rows of a return; `tokens` has the tokens of the function.
pub fn return_list(
    alloc: Global,
    i: &Instance<'_>,
    tokens: &[Tok],
    value: &Option<Operand>,
) -> Result<Items<Row>, RowError>
    requires { toks_of tokens.now ≡ tokens_of (func_in i.now) }
    ensures { Lists
        (return_rows (program_in i.now) (func_in i.now) (option_map operand_of value.now)) result }
{
    let mut list = RowList::new(alloc);
    give_return(i.program, i.func, i.origin, tokens, value, &mut list)?;
    Ok(list.rows)
}
