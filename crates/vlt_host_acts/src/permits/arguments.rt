//! The objects that arguments give for keys.

ghost use Rattle.std.specs.Prelude.{◌≡◌, ◌-◌};
ghost use Rattle.std.specs.List.{list_all};
ghost use Rattle.vlt_core.specs.View.{ty_of};
ghost use Rattle.vlt_host_meaning.specs.Tables.{argument_of};
ghost use Rattle.vlt_host_meaning.specs.Permitted.{argument_binding, object_of_key, is_that_object};
ghost use Rattle.vlt_host_acts.specs.Permits.Arguments.{bindings_in};

use vlt_base::KeyId;
use vlt_core::{Ty, VarDecl};
use vlt_host_meaning::HostArg;

/// The position of the object of a number from 1.
pub fn position(number: u64) -> u64
    ensures { result ≡ number - 1 }
{
    number.saturating_sub(1)
}

/// The object that an argument gives for a key.
fn object_at(ty: &Ty, a: HostArg, k: KeyId) -> Option<u64>
    ensures { result ≡ object_of_key (argument_binding (ty_of ty.now) (argument_of a)) k.0 }
{
    match ty {
        Ty::Key(j, _, _) => match a {
            HostArg::Object(n) => { if j.0 == k.0 { Some(position(n)) } else { None } }
            HostArg::Number(_) => None,
        },
        Ty::Int | Ty::Bool => None,
        Ty::Own(_, _, _) | Ty::Guard(_, _, _) => None,
        Ty::Var(_, _) | Ty::OwnVar(_, _) => None,
    }
}

/// The first object that arguments give for a key.
pub fn object_of_key(params: &[VarDecl], args: &[HostArg], k: KeyId) -> Option<u64>
    ensures { result ≡ object_of_key (bindings_in params.now args.now) k.0 }
{
    match params {
        [] => None,
        [d, ds @ ..] => match args {
            [] => None,
            [a, rest @ ..] => match object_at(&d.ty, *a, k) {
                Some(n) => Some(n),
                None => object_of_key(ds, rest, k),
            },
        },
    }
}

/// Whether the object that an argument gives for its parameter's key is the one that all of them give for it.
fn gives_that(all: &[VarDecl], args: &[HostArg], ty: &Ty, a: HostArg) -> bool
    ensures { result ≡ list_all
        (λ b. is_that_object b.number (object_of_key (bindings_in all.now args.now) b.key))
        (argument_binding (ty_of ty.now) (argument_of a)) }
{
    match ty {
        Ty::Key(k, _, _) => match a {
            HostArg::Object(n) => match object_of_key(all, args, *k) {
                Some(m) => m == position(n),
                None => false,
            },
            HostArg::Number(_) => true,
        },
        Ty::Int | Ty::Bool => true,
        Ty::Own(_, _, _) | Ty::Guard(_, _, _) => true,
        Ty::Var(_, _) | Ty::OwnVar(_, _) => true,
    }
}

/// The same of all of these arguments.
pub fn give_those(all: &[VarDecl], args: &[HostArg], params: &[VarDecl], some: &[HostArg]) -> bool
    ensures { result ≡ list_all
        (λ b. is_that_object b.number (object_of_key (bindings_in all.now args.now) b.key))
        (bindings_in params.now some.now) }
{
    match params {
        [] => true,
        [d, ds @ ..] => match some {
            [] => true,
            [a, rest @ ..] => gives_that(all, args, &d.ty, *a) && give_those(all, args, ds, rest),
        },
    }
}
