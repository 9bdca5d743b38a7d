//! Calls: what is refused in them, and what they become.

ghost use Rattle.std.specs.Prelude.{◌≡◌, not, [], ◌∷◌, ◌++◌, map, option_map, length, IfOk, OnOk};
ghost use Rattle.vlt_core.specs.declared.rules.TheConstants as rule;
ghost use Rattle.vlt_syntax.specs.View as tree;
ghost use Rattle.vlt_core.specs.Core as core;
ghost use Rattle.vlt_core.specs.Lookups.{owns};
ghost use Rattle.vlt_core.specs.Types as types;
ghost use Rattle.vlt_core.specs.View.{ty_of, entry_of, func_of, form_of};
ghost use Rattle.vlt_kinds_types.specs.Names.Refusals.{least_from, refusal, refuse_if};
ghost use Rattle.vlt_kinds_types.specs.Seen.{kinds_seen};
ghost use Rattle.vlt_resolve_exprs.specs.Exprs.{number_of};
ghost use Rattle.vlt_resolve_exprs.specs.Seen.{scope_seen, target_seen};
ghost use Rattle.vlt_resolve_calls.specs.Calls as c;
ghost use Rattle.vlt_resolve_calls.specs.Least.{arguments_found};
ghost use Rattle.vlt_resolve_calls.specs.Seen.{pairs_of, use_seen};

use crate::matching::{
    Pair, add_paired, call_pairs, check_matching, keys_fit, keys_given, keys_of_ty, same_shape,
    takes_shape,
};
use std::alloc::{AllocError, Global};
use vlt_base::{FnId, Items, KeyId, VarId};
use vlt_core::rules::{DROPPED_RESULT, UNKNOWN_NAME, WRONG_COUNT, WRONG_TYPE};
use vlt_core::{Entry, Form, Func, Mode, Ty};
use vlt_kinds_types::{Kinds, LeastRefusal};
use vlt_resolve_exprs::{Scope, Target, check_any, copy_ty, core_operands, is_owning, place};
use vlt_syntax::{Call, Expr};

/// What is done with the result of a call.
#[derive(Clone, Copy)]
pub enum Use<'t> {
    /// Nothing, by a statement at this place.
    Dropped(u32),
    /// A target takes it.
    Given(&'t Target),
}

// ---- arguments

#[tactic(auto, unfolding(crate::specs::Calls::argument_misfit))]
fn check_argument_fit(wanted: &Ty, given: &Option<Ty>, at: u32, found: &mut LeastRefusal)
    ensures { found.new.least ≡ least_from found.old.least
        (c.argument_misfit (ty_of wanted.now) (option_map ty_of given.now) at) }
{
    match given {
        Some(ty) => found.add_if(!takes_shape(wanted, ty), WRONG_TYPE, at),
        None => {}
    }
}

#[tactic(auto, using(vlt_kinds_types::proofs::OfNames::Least::least_of_both), unfolding(crate::specs::Calls::argument_refused))]
fn check_argument(
    alloc: Global,
    kinds: &Kinds<'_>,
    scope: &Scope<'_>,
    wanted: &Ty,
    expr: &Expr,
    found: &mut LeastRefusal,
) -> Result<(), AllocError>
    ensures { OnOk result (found.new.least ≡ least_from found.old.least
        (c.argument_refused (kinds_seen kinds.now) (scope_seen scope.now) (ty_of wanted.now)
        (tree.expr_of expr.now))) }
{
    let given = check_any(alloc, kinds, scope, expr, found)?;
    check_argument_fit(wanted, &given, place(expr), found);
    Ok(())
}

fn check_each_argument(
    alloc: Global,
    kinds: &Kinds<'_>,
    scope: &Scope<'_>,
    params: &[Ty],
    args: &[Expr],
    found: &mut LeastRefusal,
) -> Result<(), AllocError>
    requires { length params.now ≡ length args.now }
    ensures { OnOk result (found.new.least ≡ arguments_found (kinds_seen kinds.now)
        (scope_seen scope.now) (map ty_of params.now)
        (map tree.expr_of args.now) found.old.least) }
{
    for (i, arg) in args.iter().enumerate() {
        check_argument(alloc, kinds, scope, &params[i], arg, found)?;
    }
    Ok(())
}

#[tactic(auto, using(crate::proofs::Arguments::found_all))]
fn check_arguments(
    alloc: Global,
    kinds: &Kinds<'_>,
    scope: &Scope<'_>,
    params: &[Ty],
    args: &[Expr],
    found: &mut LeastRefusal,
) -> Result<(), AllocError>
    requires { length params.now ≡ length args.now }
    ensures { OnOk result (found.new.least ≡ least_from found.old.least
        (c.arguments_refused (kinds_seen kinds.now) (scope_seen scope.now)
        (map ty_of params.now) (map tree.expr_of args.now))) }
{
    check_each_argument(alloc, kinds, scope, params, args, found)
}

// ---- what a call gives

/// Whether a clause has a `new` key.
pub fn has_fresh(clause: &[Entry]) -> bool
    ensures { result ≡ c.has_fresh (map entry_of clause.now) }
{
    for entry in clause {
        if matches!(entry.mode, Mode::New) {
            return true;
        }
    }
    false
}

fn owns(ty: &Option<Ty>) -> bool
    ensures { result ≡ owns (option_map ty_of ty.now) }
{
    match ty {
        Some(ty) => is_owning(ty),
        None => false,
    }
}

#[tactic(auto, unfolding(crate::specs::Calls::dropped_refused))]
fn check_dropped(head: &Func, at: u32, found: &mut LeastRefusal)
    ensures { found.new.least ≡ least_from found.old.least
        (c.dropped_refused (func_of head.now) at) }
{
    found.add_if(
        owns(&head.result) || has_fresh(head.clause.as_slice()),
        DROPPED_RESULT,
        at,
    );
}

fn result_keys_fit(alloc: Global, pairs: &[Pair], gives: &Ty, ty: &Ty) -> Result<bool, AllocError>
    ensures { IfOk result (λ b. b ≡ c.keys_fit (pairs_of pairs.now)
        (c.key_pairs (types.keys_of_ty (ty_of gives.now)) (types.keys_of_ty (ty_of ty.now)))) }
{
    let callee = keys_of_ty(alloc, gives)?;
    let caller = keys_of_ty(alloc, ty)?;
    let mut keys = Items::new(alloc);
    add_paired(callee.as_slice(), caller.as_slice(), &mut keys)?;
    Ok(keys_fit(pairs, keys.as_slice()))
}

fn result_fits(
    alloc: Global,
    pairs: &[Pair],
    gives: &Option<Ty>,
    ty: &Ty,
) -> Result<bool, AllocError>
    ensures { IfOk result (λ b. b ≡ c.result_fits (pairs_of pairs.now)
        (option_map ty_of gives.now) (ty_of ty.now)) }
{
    match gives {
        None => Ok(false),
        Some(gives) => {
            if same_shape(gives, ty) {
                result_keys_fit(alloc, pairs, gives, ty)
            } else {
                Ok(false)
            }
        }
    }
}

#[tactic(auto, unfolding(crate::specs::Calls::target_fits))]
fn target_fits(
    alloc: Global,
    head: &Func,
    pairs: &[Pair],
    target: &Target,
) -> Result<bool, AllocError>
    ensures { IfOk result (λ b. b ≡ c.target_fits (func_of head.now) (pairs_of pairs.now)
        (target_seen target.now)) }
{
    if has_fresh(head.clause.as_slice()) == target.binds {
        result_fits(alloc, pairs, &head.result, &target.ty)
    } else {
        Ok(false)
    }
}

#[tactic(auto, unfolding(crate::specs::Calls::use_refused))]
fn check_use(
    alloc: Global,
    head: &Func,
    pairs: &[Pair],
    used: Use<'_>,
    name: u32,
    found: &mut LeastRefusal,
) -> Result<(), AllocError>
    ensures { OnOk result (found.new.least ≡ least_from found.old.least
        (c.use_refused (func_of head.now) (pairs_of pairs.now) (use_seen used.entry) name)) }
{
    match used {
        Use::Dropped(at) => check_dropped(head, at, found),
        Use::Given(target) => {
            let fits = target_fits(alloc, head, pairs, target)?;
            found.add_if(!fits, WRONG_TYPE, name);
        }
    }
    Ok(())
}

#[tactic(auto, using(vlt_kinds_types::proofs::OfNames::Least::least_of_both))]
fn check_given_count(
    alloc: Global,
    head: &Func,
    target: &Target,
    name: u32,
    found: &mut LeastRefusal,
) -> Result<(), AllocError>
    ensures { OnOk result (found.new.least ≡ least_from found.old.least
        (refuse_if (not (c.target_fits (func_of head.now) []
        (target_seen target.now))) rule.WRONG_TYPE name
        ++ refusal rule.WRONG_COUNT name ∷ [])) }
{
    let fits = target_fits(alloc, head, &[], target)?;
    found.add_if(!fits, WRONG_TYPE, name);
    found.add(WRONG_COUNT, name);
    Ok(())
}

#[tactic(auto, unfolding(crate::specs::Calls::count_refused))]
fn check_count(
    alloc: Global,
    head: &Func,
    used: Use<'_>,
    name: u32,
    found: &mut LeastRefusal,
) -> Result<(), AllocError>
    ensures { OnOk result (found.new.least ≡ least_from found.old.least
        (c.count_refused (func_of head.now) (use_seen used.entry) name)) }
{
    match used {
        Use::Dropped(_) => {
            found.add(WRONG_COUNT, name);
            Ok(())
        }
        Use::Given(target) => check_given_count(alloc, head, target, name, found),
    }
}

// ---- calls

fn param_types(alloc: Global, head: &Func) -> Result<Items<Ty>, AllocError>
    ensures { IfOk result (λ ts. map ty_of ts ≡ c.param_types (func_of head.now)) }
{
    let mut types = Items::new(alloc);
    for decl in head.vars.as_slice() {
        types.push(copy_ty(alloc, &decl.ty)?)?;
    }
    Ok(types)
}

#[tactic(auto, using(vlt_kinds_types::proofs::OfNames::Least::least_of_both), unfolding(crate::specs::Calls::paired_refused))]
fn check_paired(
    alloc: Global,
    head: &Func,
    pairs: &[Pair],
    used: Use<'_>,
    name: u32,
    found: &mut LeastRefusal,
) -> Result<(), AllocError>
    ensures { OnOk result (found.new.least ≡ least_from found.old.least
        (c.paired_refused (func_of head.now) (pairs_of pairs.now) (use_seen used.entry) name)) }
{
    check_matching(alloc, pairs, head.clause.as_slice(), name, found)?;
    check_use(alloc, head, pairs, used, name, found)
}

#[tactic(auto, using(vlt_kinds_types::proofs::OfNames::Least::least_of_both), unfolding(crate::specs::Calls::full_call_refused))]
fn check_full_call(
    alloc: Global,
    kinds: &Kinds<'_>,
    scope: &Scope<'_>,
    head: &Func,
    params: &[Ty],
    pairs: &[Pair],
    used: Use<'_>,
    call: &Call,
    found: &mut LeastRefusal,
) -> Result<(), AllocError>
    requires params { map ty_of params.now ≡ c.param_types (func_of head.now) }
    requires pairs { pairs_of pairs.now ≡ c.call_pairs (kinds_seen kinds.now)
        (scope_seen scope.now) (tree.call_of call.now).arguments
        (c.param_types (func_of head.now)) }
    requires all { length params.now ≡ length call.now.arguments }
    ensures { OnOk result (found.new.least ≡ least_from found.old.least
        (c.full_call_refused (kinds_seen kinds.now) (scope_seen scope.now) (func_of head.now)
        (use_seen used.entry) (tree.call_of call.now))) }
{
    check_paired(alloc, head, pairs, used, call.function.at.from, found)?;
    let args = call.arguments.as_slice();
    check_arguments(alloc, kinds, scope, params, args, found)
}

#[tactic(auto, unfolding(crate::specs::Calls::head_refused))]
fn check_head(
    alloc: Global,
    kinds: &Kinds<'_>,
    scope: &Scope<'_>,
    head: &Func,
    params: &[Ty],
    pairs: &[Pair],
    used: Use<'_>,
    call: &Call,
    found: &mut LeastRefusal,
) -> Result<(), AllocError>
    requires params { map ty_of params.now ≡ c.param_types (func_of head.now) }
    requires pairs { pairs_of pairs.now ≡ c.call_pairs (kinds_seen kinds.now)
        (scope_seen scope.now) (tree.call_of call.now).arguments
        (c.param_types (func_of head.now)) }
    ensures { OnOk result (found.new.least ≡ least_from found.old.least
        (c.head_refused (kinds_seen kinds.now) (scope_seen scope.now) (func_of head.now)
        (use_seen used.entry) (tree.call_of call.now))) }
{
    if params.len() == call.arguments.len() {
        check_full_call(alloc, kinds, scope, head, params, pairs, used, call, found)
    } else {
        check_count(alloc, head, used, call.function.at.from, found)
    }
}

fn own_key(ty: &Ty) -> KeyId
    ensures { result.0 ≡ c.own_key (ty_of ty.now) }
{
    match ty {
        Ty::Key(key, ..) => *key,
        _ => KeyId(0),
    }
}

fn fresh_key(used: Use<'_>) -> KeyId
    ensures { result.0 ≡ c.fresh_key (use_seen used.entry) }
{
    match used {
        Use::Dropped(_) => KeyId(0),
        Use::Given(target) => own_key(&target.ty),
    }
}

#[tactic(auto, unfolding(crate::specs::Calls::head_form))]
fn head_form(
    alloc: Global,
    kinds: &Kinds<'_>,
    scope: &Scope<'_>,
    head: &Func,
    params: &[Ty],
    pairs: &[Pair],
    f: FnId,
    used: Use<'_>,
    target: Option<VarId>,
    call: &Call,
) -> Result<Form, AllocError>
    requires params { map ty_of params.now ≡ c.param_types (func_of head.now) }
    requires pairs { pairs_of pairs.now ≡ c.call_pairs (kinds_seen kinds.now)
        (scope_seen scope.now) (tree.call_of call.now).arguments
        (c.param_types (func_of head.now)) }
    ensures { IfOk result (λ form. form_of form
        ≡ c.head_form (kinds_seen kinds.now) (scope_seen scope.now) (func_of head.now) f.0
        (use_seen used.entry) (option_map (λ v. v.0) target) (tree.call_of call.now)) }
{
    let keys = keys_given(alloc, pairs, fresh_key(used), head.keys.as_slice())?;
    let args = core_operands(alloc, kinds, scope, call.arguments.as_slice(), params)?;
    Ok(Form::Call {
        f,
        target,
        keys,
        args,
    })
}

/// A call of a known function. Its parameters are read once, and so is what they pair with the arguments.
fn call_head(
    alloc: Global,
    kinds: &Kinds<'_>,
    scope: &Scope<'_>,
    head: &Func,
    f: FnId,
    used: Use<'_>,
    target: Option<VarId>,
    call: &Call,
    found: &mut LeastRefusal,
) -> Result<Form, AllocError>
    ensures refused { OnOk result (found.new.least ≡ least_from found.old.least
        (c.head_refused (kinds_seen kinds.now) (scope_seen scope.now) (func_of head.now)
        (use_seen used.entry) (tree.call_of call.now))) }
    ensures form { IfOk result (λ form. form_of form
        ≡ c.head_form (kinds_seen kinds.now) (scope_seen scope.now) (func_of head.now) f.0
        (use_seen used.entry) (option_map (λ v. v.0) target) (tree.call_of call.now)) }
{
    let types = param_types(alloc, head)?;
    let params = types.as_slice();
    let pairs = call_pairs(alloc, kinds, scope, call.arguments.as_slice(), params)?;
    let pairs = pairs.as_slice();
    check_head(alloc, kinds, scope, head, params, pairs, used, call, found)?;
    head_form(
        alloc, kinds, scope, head, params, pairs, f, used, target, call,
    )
}

fn call_callee(
    alloc: Global,
    kinds: &Kinds<'_>,
    scope: &Scope<'_>,
    head: Option<&Func>,
    f: FnId,
    used: Use<'_>,
    target: Option<VarId>,
    call: &Call,
    found: &mut LeastRefusal,
) -> Result<Form, AllocError>
    ensures refused { OnOk result (found.new.least ≡ least_from found.old.least
        (c.callee_refused (kinds_seen kinds.now) (scope_seen scope.now)
        (option_map (λ f. func_of f.now) head.entry) (use_seen used.entry)
        (tree.call_of call.now))) }
    ensures form { IfOk result (λ form. form_of form
        ≡ c.callee_form (kinds_seen kinds.now) (scope_seen scope.now)
        (option_map (λ f. func_of f.now) head.entry) f.0 (use_seen used.entry)
        (option_map (λ v. v.0) target) (tree.call_of call.now)) }
{
    match head {
        None => {
            found.add(UNKNOWN_NAME, call.function.at.from);
            Ok(Form::Call {
                f,
                target,
                keys: Items::new(alloc),
                args: Items::new(alloc),
            })
        }
        Some(head) => call_head(alloc, kinds, scope, head, f, used, target, call, found),
    }
}

fn function_number(f: Option<FnId>) -> FnId
    ensures { result.0 ≡ number_of (option_map (λ f. f.0) f) }
{
    match f {
        Some(f) => f,
        None => FnId(0),
    }
}

/// Tests a call, and gives what it becomes. That counts only where nothing is refused.
#[tactic(auto, unfolding(crate::specs::Calls::call_refused, crate::specs::Calls::core_call))]
pub fn call(
    alloc: Global,
    kinds: &Kinds<'_>,
    scope: &Scope<'_>,
    used: Use<'_>,
    target: Option<VarId>,
    call: &Call,
    found: &mut LeastRefusal,
) -> Result<Form, AllocError>
    ensures refused { OnOk result (found.new.least ≡ least_from found.old.least
        (c.call_refused (kinds_seen kinds.now) (scope_seen scope.now) (use_seen used.entry)
        (tree.call_of call.now))) }
    ensures form { IfOk result (λ form. form_of form
        ≡ c.core_call (kinds_seen kinds.now) (scope_seen scope.now) (use_seen used.entry)
        (option_map (λ v. v.0) target) (tree.call_of call.now)) }
{
    let head = kinds.head_named(&call.function);
    let f = function_number(kinds.function_named(&call.function));
    call_callee(alloc, kinds, scope, head, f, used, target, call, found)
}
