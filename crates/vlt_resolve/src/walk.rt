//! The walk over a body: its statements and the names in scope in, the core statements out, or the first refusal.

ghost use Rattle.std.specs.Prelude.{◌≡◌, false, map, option_map, Ok, Err, IfOk};
ghost use Rattle.vlt_syntax.specs.View as tree;
ghost use Rattle.vlt_core.specs.View as core_view;
ghost use Rattle.vlt_core.specs.View.{ty_of};
ghost use Rattle.vlt_kinds_types.specs.Seen.{kinds_seen};
ghost use Rattle.vlt_resolve_exprs.specs.Seen.{scope_seen, forms_of};
ghost use Rattle.vlt_resolve_parts.specs.Refusals.{OnRefused};
ghost use Rattle.vlt_resolve_stmts.specs.Seen.{around_seen};
ghost use Rattle.vlt_elaboration.specs.Walk as w;

use crate::statements::simple;
use std::alloc::Global;
use vlt_base::Items;
use vlt_core::{Form, Ty};
use vlt_kinds_types::{Kinds, LeastRefusal};
use vlt_resolve_bodies::{closing, else_closing, ends, late, stmt_place};
use vlt_resolve_exprs::{Forms, Scope, var_number};
use vlt_resolve_parts::{
    Stop, add_placed, close_block, focused, known_ty, one_stmt, opened_arm, passed, passed_with,
    switched, tested,
};
use vlt_resolve_stmts::{Around, next_var};
use vlt_syntax::{Arm, Block, Else, If, Name, Stmt};

/// A statement without blocks, where something may have been found before.
fn walk_simple<'a>(
    alloc: Global,
    kinds: &Kinds<'_>,
    around: Around<'_>,
    scope: &mut Scope<'a>,
    found: LeastRefusal,
    stmt: &'a Stmt,
) -> Result<Forms, Stop>
    ensures ok { IfOk result (λ fs. w.walk_simple (kinds_seen kinds.now)
        (around_seen around.entry) (scope_seen scope.old) found.least (tree.stmt_of stmt.now)
        ≡ Ok (forms_of fs, scope_seen scope.new)) }
    ensures refused { OnRefused result (λ r.
        w.walk_simple (kinds_seen kinds.now) (around_seen around.entry)
        (scope_seen scope.old) found.least (tree.stmt_of stmt.now) ≡ Err r) }
{
    let mut found = found;
    let forms = simple(alloc, kinds, around, scope, stmt, &mut found)?;
    passed_with(found, forms)
}

/// Statements one after another.
#[cycle(walk)]
pub fn walk_stmts<'a>(
    alloc: Global,
    kinds: &Kinds<'_>,
    around: Around<'_>,
    scope: &mut Scope<'a>,
    stmts: &'a [Stmt],
) -> Result<Items<vlt_core::Stmt>, Stop>
    ensures ok { IfOk result (λ r. w.walk_stmts (kinds_seen kinds.now)
        (around_seen around.entry) (scope_seen scope.old) false (tree.stmts_of stmts.now)
        ≡ Ok (map core_view.stmt_of r, scope_seen scope.new)) }
    ensures refused { OnRefused result (λ r.
        w.walk_stmts (kinds_seen kinds.now) (around_seen around.entry)
        (scope_seen scope.old) false (tree.stmts_of stmts.now) ≡ Err r) }
{
    let mut made = Items::new(alloc);
    let mut ended = false;
    for stmt in stmts {
        let forms = walk_stmt(alloc, kinds, around, scope, late(ended, stmt), stmt)?;
        add_placed(stmt_place(stmt), forms, &mut made)?;
        ended = ends(stmt);
    }
    Ok(made)
}

/// A statement, where something may have been found before.
#[cycle(walk)]
fn walk_stmt<'a>(
    alloc: Global,
    kinds: &Kinds<'_>,
    around: Around<'_>,
    scope: &mut Scope<'a>,
    found: LeastRefusal,
    stmt: &'a Stmt,
) -> Result<Forms, Stop>
    ensures ok { IfOk result (λ fs. w.walk_stmt (kinds_seen kinds.now)
        (around_seen around.entry) (scope_seen scope.old) found.least (tree.stmt_of stmt.now)
        ≡ Ok (forms_of fs, scope_seen scope.new)) }
    ensures refused { OnRefused result (λ r.
        w.walk_stmt (kinds_seen kinds.now) (around_seen around.entry)
        (scope_seen scope.old) found.least (tree.stmt_of stmt.now) ≡ Err r) }
{
    match stmt {
        Stmt::Block(block) => {
            passed(found)?;
            let body = walk_block(alloc, kinds, around, scope, block)?;
            let forms = Forms::one(alloc, Form::Scope { body })?;
            Ok(forms)
        }
        Stmt::If(choice) => walk_if(alloc, kinds, around, scope, found, choice),
        Stmt::While {
            condition,
            body,
            ..
        } => {
            let cond = tested(alloc, kinds, scope, found, condition)?;
            let body = walk_block(alloc, kinds, around.inside_loop(), scope, body)?;
            let forms = Forms::one(alloc, Form::While { cond, body })?;
            Ok(forms)
        }
        Stmt::Switch { variable, arms, at } => {
            let ty = switched(
                alloc,
                kinds,
                scope,
                found,
                variable,
                arms.as_slice(),
                at.from,
            )?;
            let v = var_number(scope, variable);
            let arms = walk_arms(alloc, kinds, around, scope, &ty, arms.as_slice())?;
            let end = at.to.saturating_sub(1);
            let forms = Forms::one(alloc, Form::Switch { v, arms, end })?;
            Ok(forms)
        }
        Stmt::Focus {
            variable,
            key,
            alias,
            body,
            ..
        } => walk_focus(
            alloc, kinds, around, scope, found, variable, key, alias, body,
        ),
        _ => walk_simple(alloc, kinds, around, scope, found, stmt),
    }
}

#[cycle(walk)]
fn walk_focus<'a>(
    alloc: Global,
    kinds: &Kinds<'_>,
    around: Around<'_>,
    scope: &mut Scope<'a>,
    found: LeastRefusal,
    variable: &Name,
    key: &'a Name,
    alias: &'a Name,
    body: &'a Block,
) -> Result<Forms, Stop>
    ensures ok { IfOk result (λ fs. w.walk_focus (kinds_seen kinds.now)
        (around_seen around.entry) (scope_seen scope.old) found.least
        (tree.name_of variable.now) (tree.name_of key.now) (tree.name_of alias.now)
        (tree.block_of body.now) ≡ Ok (forms_of fs, scope_seen scope.new)) }
    ensures refused { OnRefused result (λ r.
        w.walk_focus (kinds_seen kinds.now) (around_seen around.entry)
        (scope_seen scope.old) found.least (tree.name_of variable.now) (tree.name_of key.now)
        (tree.name_of alias.now) (tree.block_of body.now) ≡ Err r) }
{
    let ty = known_ty(alloc, scope, variable)?;
    let y = var_number(scope, variable);
    let z = next_var(scope)?;
    let outer = scope.enter(alloc);
    focused(alloc, kinds, scope, found, &ty, variable, key, alias)?;
    let stmts = walk_stmts(
        alloc,
        kinds,
        around.inside_focus(),
        scope,
        body.stmts.as_slice(),
    )?;
    let body = close_block(alloc, scope, outer, stmts, closing(body))?;
    let forms = Forms::one(alloc, Form::Focus { y, z, body })?;
    Ok(forms)
}

#[cycle(walk)]
fn walk_block<'a>(
    alloc: Global,
    kinds: &Kinds<'_>,
    around: Around<'_>,
    scope: &mut Scope<'a>,
    block: &'a Block,
) -> Result<vlt_core::Block, Stop>
    ensures ok { IfOk result (λ b. w.walk_block (kinds_seen kinds.now)
        (around_seen around.entry) (scope_seen scope.old) (tree.block_of block.now)
        ≡ Ok (core_view.block_of b, scope_seen scope.new)) }
    ensures refused { OnRefused result (λ r.
        w.walk_block (kinds_seen kinds.now) (around_seen around.entry) (scope_seen scope.old)
        (tree.block_of block.now) ≡ Err r) }
{
    let outer = scope.enter(alloc);
    let stmts = walk_stmts(alloc, kinds, around, scope, block.stmts.as_slice())?;
    let made = close_block(alloc, scope, outer, stmts, closing(block))?;
    Ok(made)
}

#[cycle(walk)]
fn walk_if<'a>(
    alloc: Global,
    kinds: &Kinds<'_>,
    around: Around<'_>,
    scope: &mut Scope<'a>,
    found: LeastRefusal,
    choice: &'a If,
) -> Result<Forms, Stop>
    ensures ok { IfOk result (λ fs. w.walk_if (kinds_seen kinds.now) (around_seen around.entry)
        (scope_seen scope.old) found.least (tree.if_of choice.now)
        ≡ Ok (forms_of fs, scope_seen scope.new)) }
    ensures refused { OnRefused result (λ r.
        w.walk_if (kinds_seen kinds.now) (around_seen around.entry)
        (scope_seen scope.old) found.least (tree.if_of choice.now) ≡ Err r) }
{
    let cond = tested(alloc, kinds, scope, found, &choice.condition)?;
    let then_block = walk_block(alloc, kinds, around, scope, &choice.then_block)?;
    let end = else_closing(closing(&choice.then_block), &choice.otherwise);
    let else_block = walk_else(alloc, kinds, around, scope, end, &choice.otherwise)?;
    let forms = Forms::one(
        alloc,
        Form::If {
            cond,
            then_block,
            else_block,
        },
    )?;
    Ok(forms)
}

#[cycle(walk)]
fn walk_else<'a>(
    alloc: Global,
    kinds: &Kinds<'_>,
    around: Around<'_>,
    scope: &mut Scope<'a>,
    end: u32,
    other: &'a Else,
) -> Result<vlt_core::Block, Stop>
    ensures ok { IfOk result (λ b. w.walk_else (kinds_seen kinds.now) (around_seen around.entry)
        (scope_seen scope.old) end (tree.else_of other.now)
        ≡ Ok (core_view.block_of b, scope_seen scope.new)) }
    ensures refused { OnRefused result (λ r.
        w.walk_else (kinds_seen kinds.now) (around_seen around.entry) (scope_seen scope.old) end
        (tree.else_of other.now) ≡ Err r) }
{
    match other {
        Else::Nothing => Ok(vlt_core::Block {
            stmts: Items::new(alloc),
            bound: Items::new(alloc),
            end,
        }),
        Else::Last(block) => walk_block(alloc, kinds, around, scope, block),
        Else::Chained(choice) => walk_chained(alloc, kinds, around, scope, end, choice.get()),
    }
}

/// An `if` after an `else`, in a block of its own that binds nothing.
#[cycle(walk)]
fn walk_chained<'a>(
    alloc: Global,
    kinds: &Kinds<'_>,
    around: Around<'_>,
    scope: &mut Scope<'a>,
    end: u32,
    choice: &'a If,
) -> Result<vlt_core::Block, Stop>
    ensures ok { IfOk result (λ b. w.walk_chained (kinds_seen kinds.now)
        (around_seen around.entry) (scope_seen scope.old) end (tree.if_of choice.now)
        ≡ Ok (core_view.block_of b, scope_seen scope.new)) }
    ensures refused { OnRefused result (λ r.
        w.walk_chained (kinds_seen kinds.now) (around_seen around.entry)
        (scope_seen scope.old) end (tree.if_of choice.now) ≡ Err r) }
{
    let cond = tested(
        alloc,
        kinds,
        scope,
        LeastRefusal { least: None },
        &choice.condition,
    )?;
    let then_block = walk_block(alloc, kinds, around, scope, &choice.then_block)?;
    let else_block = walk_else(alloc, kinds, around, scope, end, &choice.otherwise)?;
    let block = one_stmt(
        alloc,
        choice.at.from,
        Form::If {
            cond,
            then_block,
            else_block,
        },
        end,
    )?;
    Ok(block)
}

#[cycle(walk)]
fn walk_arms<'a>(
    alloc: Global,
    kinds: &Kinds<'_>,
    around: Around<'_>,
    scope: &mut Scope<'a>,
    ty: &Option<Ty>,
    arms: &'a [Arm],
) -> Result<Items<vlt_core::Arm>, Stop>
    ensures ok { IfOk result (λ r. w.walk_arms (kinds_seen kinds.now) (around_seen around.entry)
        (scope_seen scope.old) (option_map ty_of ty.now) (tree.arms_of arms.now)
        ≡ Ok (map core_view.arm_of r, scope_seen scope.new)) }
    ensures refused { OnRefused result (λ r.
        w.walk_arms (kinds_seen kinds.now) (around_seen around.entry) (scope_seen scope.old)
        (option_map ty_of ty.now) (tree.arms_of arms.now) ≡ Err r) }
{
    let mut made = Items::new(alloc);
    for arm in arms {
        let one = walk_arm(alloc, kinds, around, scope, ty, arm)?;
        made.push(one)?;
    }
    Ok(made)
}

#[cycle(walk)]
fn walk_arm<'a>(
    alloc: Global,
    kinds: &Kinds<'_>,
    around: Around<'_>,
    scope: &mut Scope<'a>,
    ty: &Option<Ty>,
    arm: &'a Arm,
) -> Result<vlt_core::Arm, Stop>
    ensures ok { IfOk result (λ r. w.walk_one_arm (kinds_seen kinds.now)
        (around_seen around.entry) (scope_seen scope.old) (option_map ty_of ty.now)
        (tree.arm_of arm.now) ≡ Ok (core_view.arm_of r, scope_seen scope.new)) }
    ensures refused { OnRefused result (λ r.
        w.walk_one_arm (kinds_seen kinds.now) (around_seen around.entry) (scope_seen scope.old)
        (option_map ty_of ty.now) (tree.arm_of arm.now) ≡ Err r) }
{
    let outer = scope.enter(alloc);
    let names = arm.variables.as_slice();
    let (case, vars) = opened_arm(alloc, kinds, scope, ty, &arm.case, names)?;
    let stmts = walk_stmts(alloc, kinds, around, scope, arm.body.stmts.as_slice())?;
    let body = close_block(alloc, scope, outer, stmts, closing(&arm.body))?;
    Ok(vlt_core::Arm { case, vars, body })
}
