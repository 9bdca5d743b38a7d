//! Statements without blocks: what they break, and what they bind.

ghost use Rattle.std.specs.Prelude.{◌≡◌, true, slice_get, IfOk, OnOk};
ghost use Rattle.std.specs.Option.{option_map, option_copied};
ghost use Rattle.vlt_core.specs.View.{program_of, func_of, form_of};
ghost use Rattle.vlt_core.specs.KindedScopes as scopes;
ghost use Rattle.vlt_core.specs.KindedBodies as s;
ghost use Rattle.cert_kinds_types.specs.Least.{least};
ghost use Rattle.cert_kinds_exprs.specs.Scopes.{ids_of};
ghost use Rattle.cert_kinds_blocks.specs.Scoped.{HasMarks, program_in, func_in};
ghost use Rattle.cert_kinds_blocks.specs.Flat as z;

use crate::scope::Scope;
use cert_kinds_calls::{bind_call_target, call_broken};
use cert_kinds_exprs::{Ids, own_key};
use cert_kinds_stmts::{
    adopt_broken, become_broken, build_broken, dropped_broken, input_broken, make_broken,
    open_broken, own_broken, print_broken, put_broken, release_broken, return_broken, set_broken,
    swap_broken, unpack_broken,
};
use cert_kinds_types::{lesser, unless};
use std::alloc::AllocError;
use vlt_base::{FnId, KeyId, VarId};
use vlt_core::{Form, Func, Operand, Program, rules};

/// What may stand at a point: a jump, and a return.
#[derive(Clone, Copy)]
pub struct Around {
    pub jumps: bool,
    pub returns: bool,
}

impl Around {
    /// In a focus neither may stand.
    pub fn in_focus() -> Around
        ensures { z.around_of result ≡ s.in_focus }
    {
        Around {
            jumps: false,
            returns: false,
        }
    }

    /// In a loop a jump may stand too.
    pub fn in_loop(self) -> Around
        ensures { z.around_of result ≡ s.in_loop (z.around_of self) }
    {
        Around {
            jumps: true,
            returns: self.returns,
        }
    }
}

/// What is broken, and the target is bound where it isn't in scope.
fn with_target(
    found: Option<u8>,
    f: &Func,
    ids: &mut Ids,
    v: VarId,
) -> Result<Option<u8>, AllocError>
    ensures broken { IfOk result (λ x. x ≡ found) }
    ensures ids { OnOk result (ids_of ids.new ≡ scopes.with_target (func_of f.now) v.0
        (ids_of ids.old)) }
{
    ids.bind_target(f, v)?;
    Ok(found)
}

/// What is broken, and the variable is bound with its key.
fn with_binding(
    found: Option<u8>,
    f: &Func,
    ids: &mut Ids,
    x: VarId,
) -> Result<Option<u8>, AllocError>
    ensures broken { IfOk result (λ y. y ≡ found) }
    ensures ids { OnOk result (ids_of ids.new ≡ scopes.with_binding (func_of f.now)
        (scopes.own_key (func_of f.now) x.0) x.0 (ids_of ids.old)) }
{
    ids.bind(f, own_key(f, x), x)?;
    Ok(found)
}

fn callee(p: &Program, g: FnId) -> Option<&Func>
    ensures { option_map func_of (option_copied result) ≡ slice_get (program_of p.now).fns g.0 }
{
    p.fns.get(g.0 as usize)
}

fn call(
    scope: &Scope<'_>,
    ids: &mut Ids,
    g: FnId,
    target: Option<VarId>,
    keys: &[KeyId],
    args: &[Operand],
) -> Result<Option<u8>, AllocError>
    ensures broken { IfOk result (λ found. found ≡ least (z.call_row (program_in scope.now)
        (func_in scope.now) (ids_of ids.old) g.0 (option_map (λ v. v.0) target) keys.now
        args.now)) }
    ensures ids { OnOk result (ids_of ids.new ≡ z.after_call (program_in scope.now)
        (func_in scope.now) g.0 (option_map (λ v. v.0) target) (ids_of ids.old)) }
{
    let p = scope.program;
    let f = scope.func;
    let found = call_broken(p, f, ids, callee(p, g), target, keys, args);
    bind_call_target(f, callee(p, g), ids, target)?;
    Ok(found)
}

/// What a return breaks at a point.
#[tactic(auto, using(cert_kinds_types::proofs::Smallest::joined))]
fn returned(scope: &Scope<'_>, ids: &Ids, around: Around, value: &Option<Operand>) -> Option<u8>
    ensures { result ≡ least (z.return_row (program_in scope.now) (func_in scope.now)
        around.returns (ids_of ids.now) value.now) }
{
    lesser(
        unless(around.returns, rules::WRONG_JUMP),
        return_broken(scope.program, scope.func, ids, value),
    )
}

/// What the own row of a statement without blocks breaks, and what it binds. An error is a refused
/// allocation.
pub fn flat_broken(
    scope: &Scope<'_>,
    form: &Form,
    ids: &mut Ids,
    around: Around,
) -> Result<Option<u8>, AllocError>
    requires marks { HasMarks scope.now }
    requires flat { z.is_flat (form_of form.now) ≡ true }
    ensures broken { IfOk result (λ found. found ≡ least (s.row_broken (program_in scope.now)
        (func_in scope.now) (z.around_of around) (ids_of ids.old) (form_of form.now))) }
    ensures ids { OnOk result (ids_of ids.new ≡ s.ids_following (program_in scope.now)
        (func_in scope.now) (form_of form.now) (ids_of ids.old)) }
{
    let p = scope.program;
    let f = scope.func;
    match form {
        Form::Set { v, e } => with_target(set_broken(p, f, ids, *v, e), f, ids, *v),
        Form::Input { v, more } => with_target(input_broken(p, f, ids, *v, *more), f, ids, *v),
        Form::Print { e } => Ok(print_broken(p, f, ids, e)),
        Form::Put { x, field, e } => Ok(put_broken(p, f, ids, *x, *field, e)),
        Form::New { x, args } => {
            with_binding(make_broken(p, f, ids, *x, args.as_slice()), f, ids, *x)
        }
        Form::Become { x, state } => Ok(become_broken(p, f, ids, *x, *state)),
        Form::Release { x } => Ok(release_broken(p, scope.marks, f, ids, *x)),
        Form::Drop { v } => Ok(dropped_broken(p, scope.marks, f, ids, *v)),
        Form::Own { v, value } => with_target(own_broken(p, f, ids, *v, value), f, ids, *v),
        Form::Unpack { x, v } => with_binding(unpack_broken(p, f, ids, *x, *v), f, ids, *x),
        Form::Build { v, case, args } => {
            with_target(
                build_broken(p, f, ids, *v, *case, args.as_slice()),
                f,
                ids,
                *v,
            )
        }
        Form::Call {
            f: g,
            target,
            keys,
            args,
        } => call(scope, ids, *g, *target, keys.as_slice(), args.as_slice()),
        Form::Swap { x, field, v } => Ok(swap_broken(p, f, ids, *x, *field, *v)),
        Form::Open { x, into } => open_broken(p, f, ids, *x, into.as_slice()),
        Form::Adopt { y, x, r } => {
            with_target(adopt_broken(p, scope.marks, f, ids, *y, *x, *r), f, ids, *y)
        }
        Form::Return { value } => Ok(returned(scope, ids, around, value)),
        Form::Jump { .. } => Ok(unless(around.jumps, rules::WRONG_JUMP)),
        _ => unreachable!(),
    }
}
