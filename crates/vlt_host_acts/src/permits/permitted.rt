//! Which calls a host may make.

ghost use Rattle.std.specs.Prelude.{◌≡◌, ◌&&◌, List, map, filter, true};
ghost use Rattle.std.specs.List.{list_all, list_any};
ghost use Rattle.vlt_core.specs.Core.{States};
ghost use Rattle.vlt_core.specs.View.{program_of, func_of, ty_of, entry_of};
ghost use Rattle.vlt_core.specs.HeldView.{IsSetOrNone};
ghost use Rattle.vlt_core.specs.Lookups.{states_of_key, is_held_before};
ghost use Rattle.vlt_meaning.specs.World.{Object};
ghost use Rattle.vlt_host_meaning.specs.Tables.{argument_of};
ghost use Rattle.vlt_host_meaning.specs.Permitted.{argument_fits, arguments_fit, permitted_states, object_of_key, entries_before, is_permitted};
ghost use Rattle.vlt_host_acts.specs.Permits.Arguments.{types_in, bindings_in, named_in, is_same, names_apart, call_fits, HasClauseKeys};
ghost use Rattle.vlt_host_acts.specs.Permits.Hosted.{ShowsHosted, IsHosted};

use crate::permits::arguments::{give_those, object_of_key, position};
use crate::permits::entries::{is_before, is_entry_function, parameters};
use crate::permits::hosted::Hosted;
use vlt_base::{FnId, KeyId, StateSet};
use vlt_core::{Entry, Func, Mode, Program, Ty, VarDecl};
use vlt_host_meaning::HostArg;

// ---- states

/// Whether the state is in the set, if there is one.
fn is_in_set(set: Option<StateSet>, state: u8) -> bool
    ensures { (states : States) → IsSetOrNone states set → result ≡ states state }
{
    match set {
        Some(s) => s.has(state),
        None => false,
    }
}

/// Whether an object of the key can be in the state.
fn is_state_of_key(p: &Program, f: &Func, k: KeyId, state: u8) -> bool
    ensures { result ≡ states_of_key (program_of p.now) (func_of f.now) k.0 state }
{
    match f.key_type(k) {
        Some(t) => (state as usize) < p.state_count(t),
        None => state < 32,
    }
}

/// Whether an entry that is held before a call permits the state.
pub fn permits(p: &Program, f: &Func, e: Entry, state: u8) -> bool
    ensures { result ≡ permitted_states (program_of p.now) (func_of f.now) (entry_of e)
        (entry_of e).mode state }
{
    if let Mode::Bound(bound) = e.mode {
        return is_in_set(p.key_states_up_to(f, e.key, bound), state);
    }
    match e.before {
        Some(states) => states.has(state),
        None => is_state_of_key(p, f, e.key, state),
    }
}

// ---- arguments

/// Whether an argument fits its parameter's type.
fn argument_fits(h: &Hosted, ty: &Ty, a: HostArg) -> bool
    requires hosted { IsHosted h.now }
    ensures { (objects : List Object) → ShowsHosted h.now objects →
        result ≡ argument_fits objects (ty_of ty.now) (argument_of a) }
{
    match a {
        HostArg::Number(z) => match ty {
            Ty::Int => true,
            Ty::Bool => z == 0 || z == 1,
            Ty::Key(_, _, _) | Ty::Own(_, _, _) | Ty::Guard(_, _, _) => false,
            Ty::Var(_, _) | Ty::OwnVar(_, _) => false,
        },
        HostArg::Object(n) => match ty {
            Ty::Key(_, t, _) => h.is_of_type(position(n), *t),
            Ty::Int | Ty::Bool | Ty::Own(_, _, _) | Ty::Guard(_, _, _) => false,
            Ty::Var(_, _) | Ty::OwnVar(_, _) => false,
        },
    }
}

/// Whether there are as many arguments as parameters, and each fits.
fn arguments_fit(h: &Hosted, params: &[VarDecl], args: &[HostArg]) -> bool
    requires hosted { IsHosted h.now }
    ensures { (objects : List Object) → ShowsHosted h.now objects →
        result ≡ arguments_fit objects (types_in params.now) (map argument_of args.now) }
{
    match params {
        [] => args.is_empty(),
        [d, ds @ ..] => match args {
            [] => false,
            [a, rest @ ..] => argument_fits(h, &d.ty, *a) && arguments_fit(h, ds, rest),
        },
    }
}

// ---- the clause

/// Whether the entry's object is given, and in a state that the entry permits.
fn is_named_in(h: &Hosted, f: &Func, params: &[VarDecl], args: &[HostArg], e: Entry) -> bool
    requires hosted { IsHosted h.now }
    ensures { (objects : List Object) → ShowsHosted h.now objects →
        result ≡ named_in (program_of h.now.program.now) (func_of f.now)
        (bindings_in params.now args.now) objects (entry_of e) }
{
    match object_of_key(params, args, e.key) {
        Some(n) => h.is_in(n, f, e),
        None => false,
    }
}

/// The same of all entries that are held before.
fn are_named_in(
    h: &Hosted,
    f: &Func,
    params: &[VarDecl],
    args: &[HostArg],
    clause: &[Entry],
) -> bool
    requires hosted { IsHosted h.now }
    ensures { (objects : List Object) → ShowsHosted h.now objects →
        result ≡ list_all (named_in (program_of h.now.program.now) (func_of f.now)
        (bindings_in params.now args.now) objects)
        (filter is_held_before (map entry_of clause.now)) }
{
    match clause {
        [] => true,
        [e, rest @ ..] => {
            if is_before(*e) {
                is_named_in(h, f, params, args, *e) && are_named_in(h, f, params, args, rest)
            } else {
                are_named_in(h, f, params, args, rest)
            }
        }
    }
}

/// Whether the entry is held before a call and is given the object that this name is.
fn meets(params: &[VarDecl], args: &[HostArg], name: Option<u64>, clause: &[Entry]) -> bool
    ensures { result ≡ list_any (λ p. is_same p name)
        (map (λ e. object_of_key (bindings_in params.now args.now) e.key)
        (filter is_held_before (map entry_of clause.now))) }
{
    match clause {
        [] => false,
        [e, rest @ ..] => {
            if is_before(*e) {
                same(object_of_key(params, args, e.key), name) || meets(params, args, name, rest)
            } else {
                meets(params, args, name, rest)
            }
        }
    }
}

fn same(a: Option<u64>, b: Option<u64>) -> bool
    ensures { result ≡ is_same a b }
{
    match a {
        Some(m) => match b {
            Some(n) => m == n,
            None => false,
        },
        None => false,
    }
}

/// Whether no two entries that are held before are given one object.
fn are_apart(params: &[VarDecl], args: &[HostArg], clause: &[Entry]) -> bool
    ensures { result ≡ names_apart
        (map (λ e. object_of_key (bindings_in params.now args.now) e.key)
        (filter is_held_before (map entry_of clause.now))) }
{
    match clause {
        [] => true,
        [e, rest @ ..] => {
            if is_before(*e) {
                let name = object_of_key(params, args, e.key);
                !meets(params, args, name, rest) && are_apart(params, args, rest)
            } else {
                are_apart(params, args, rest)
            }
        }
    }
}

/// Whether the clause permits these arguments.
fn clause_fits(h: &Hosted, f: &Func, params: &[VarDecl], args: &[HostArg]) -> bool
    requires hosted { IsHosted h.now }
    ensures { (objects : List Object) → ShowsHosted h.now objects →
        result ≡ (list_all (named_in (program_of h.now.program.now) (func_of f.now)
        (bindings_in params.now args.now) objects) (entries_before (func_of f.now)) &&
        names_apart (map (λ e. object_of_key (bindings_in params.now args.now) e.key)
        (entries_before (func_of f.now)))) }
{
    let clause = f.clause.as_slice();
    are_named_in(h, f, params, args, clause) && are_apart(params, args, clause)
}

// ---- calls

/// Whether these arguments fit the function's parameters and its clause.
fn call_fits(h: &Hosted, f: &Func, params: &[VarDecl], args: &[HostArg]) -> bool
    requires hosted { IsHosted h.now }
    ensures { (objects : List Object) → ShowsHosted h.now objects →
        result ≡ call_fits (program_of h.now.program.now) (func_of f.now) (types_in params.now)
        (map argument_of args.now) objects }
{
    arguments_fit(h, params, args)
        && give_those(params, args, params, args)
        && clause_fits(h, f, params, args)
}

impl<'a> Hosted<'a> {
    /// Whether a host may call the function of this number with these arguments now.
    pub fn permits_call(&self, i: FnId, f: &Func, args: &[HostArg]) -> bool
        requires hosted { IsHosted self.now }
        requires keys { HasClauseKeys (func_of f.now) }
        ensures { (objects : List Object) → ShowsHosted self.now objects →
            result ≡ is_permitted (program_of self.now.program.now) i.0 (func_of f.now)
            (map argument_of args.now) objects }
    {
        is_entry_function(self.program, i, f) && call_fits(self, f, parameters(f), args)
    }
}
