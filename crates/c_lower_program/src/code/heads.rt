//! Heads of functions, and what they declare.

ghost use Rattle.std.specs.Prelude.{◌≡◌, ◌++◌, map, take, option_map, IfOk, OnOk};
ghost use Rattle.vlt_core.specs.View.{ty_of};
ghost use Rattle.c_lower.specs.Slots.{first_numbers, param_slots};
ghost use Rattle.c_lower.specs.Lowering.{param_numbers, result_of, vars_between};
ghost use Rattle.c_lower_exprs.specs.Tables.{numbers_of, slot_view};
ghost use Rattle.c_lower_exprs.specs.Scopes.{IsScope, func_in, program_in};
ghost use Rattle.c_lower_program.specs.Code.Heads.{past_lists, past_slots, slots_between, vars_in};

use c_lower_exprs::{Numbers, Scope, Slot};
use c_syntax::{CResult, CVar};
use std::alloc::Global;
use vlt_base::{Items, Memory};
use vlt_core::Ty;

/// What a function gives in C.
pub fn result_of(ty: &Option<Ty>) -> CResult
    ensures { result ≡ result_of (option_map ty_of ty.now) }
{
    match ty {
        None => CResult::Nothing,
        Some(Ty::Key(..)) => CResult::Reference,
        Some(Ty::Own(..)) => CResult::Reference,
        Some(Ty::Guard(..)) => CResult::Reference,
        Some(_) => CResult::Number,
    }
}

/// The first so many, or all.
fn first(table: &[Items<Slot>], count: usize) -> &[Items<Slot>]
    ensures { result.now ≡ take count table.now }
{
    if count <= table.len() {
        &table[..count]
    } else {
        table
    }
}

/// The slots of the parameters, and the numbers after them.
#[derive(Drop)]
pub struct Params {
    pub vars: Items<CVar>,
    pub next: Numbers,
}

/// The numbers after slots that begin at some.
fn past_slots(start: Numbers, slots: &[Slot]) -> Result<Numbers, Memory>
    ensures { IfOk result (λ t. numbers_of t
        ≡ past_slots (numbers_of start) (map slot_view slots.now)) }
{
    let mut next = start;
    for slot in slots {
        next = next.past(slot.sort)?;
    }
    Ok(next)
}

/// Adds the variables of slots.
fn push_vars(vars: &mut Items<CVar>, slots: &[Slot]) -> Result<(), Memory>
    ensures { OnOk result (vars.new
        ≡ vars.old ++ map (λ x. x.var) (map slot_view slots.now)) }
{
    for slot in slots {
        vars.push(slot.var)?;
    }
    Ok(())
}

/// The variables of several lists of slots.
fn all_vars(alloc: Global, table: &[Items<Slot>]) -> Result<Items<CVar>, Memory>
    ensures { IfOk result (λ vars. vars ≡ vars_in (map (map slot_view) table.now)) }
{
    let mut vars = Items::new(alloc);
    for slots in table {
        push_vars(&mut vars, slots.as_slice())?;
    }
    Ok(vars)
}

/// The numbers after several lists of slots.
fn past_table(table: &[Items<Slot>]) -> Result<Numbers, Memory>
    ensures { IfOk result (λ t. numbers_of t
        ≡ past_lists first_numbers (map (map slot_view) table.now)) }
{
    let mut next = Numbers::FIRST;
    for slots in table {
        next = past_slots(next, slots.as_slice())?;
    }
    Ok(next)
}

/// The parameters of a function.
pub fn params_of(alloc: Global, scope: &Scope<'_>) -> Result<Params, Memory>
    requires { IsScope scope.now }
    ensures vars { IfOk result (λ x.
        x.vars ≡ param_slots (program_in scope.now) (func_in scope.now)) }
    ensures next { IfOk result (λ x. numbers_of x.next
        ≡ param_numbers (program_in scope.now) (func_in scope.now)) }
{
    let table = first(scope.frame.vars.as_slice(), scope.func.params as usize);
    let vars = all_vars(alloc, table)?;
    let next = past_table(table)?;
    Ok(Params { vars, next })
}

/// Adds the variables of one kind from one number up to another.
fn push_between(vars: &mut Items<CVar>, reference: bool, first: u64, end: u64) -> Result<(), Memory>
    ensures { OnOk result (vars.new ≡ vars.old ++ slots_between reference first end) }
{
    for number in first..end {
        vars.push(CVar { reference, number })?;
    }
    Ok(())
}

/// The variables from some numbers up to others, those of numbers first.
pub fn vars_between(alloc: Global, first: Numbers, end: Numbers) -> Result<Items<CVar>, Memory>
    ensures { IfOk result (λ vars. vars ≡ vars_between (numbers_of first) (numbers_of end)) }
{
    let mut vars = Items::new(alloc);
    push_between(&mut vars, false, first.n, end.n)?;
    push_between(&mut vars, true, first.p, end.p)?;
    Ok(vars)
}
