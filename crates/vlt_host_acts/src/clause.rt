//! What a host holds no longer after a call.

ghost use Rattle.std.specs.Prelude.{◌≡◌, ◌≤◌, ℕ, ◌&&◌, not, map};
ghost use Rattle.std.specs.List.{list_any};
ghost use Rattle.vlt_core.specs.KindedHeads.{has};
ghost use Rattle.vlt_core.specs.View.{entry_of};
ghost use Rattle.vlt_meaning.specs.Externals.{is_taken};
ghost use Rattle.vlt_host_acts.specs.Permits.Arguments.{bindings_in};
ghost use Rattle.vlt_host_acts.specs.Permits.Held.{IsSound, numbers_in, room_in};
ghost use Rattle.vlt_host_acts.specs.Clause.{takes_object};

use crate::permits::{Held, object_of_key};
use vlt_core::{Entry, Mode, VarDecl};
use vlt_host_meaning::HostArg;

/// Whether the entry's object stays with the function.
fn is_taken(e: Entry) -> bool
    ensures { result ≡ is_taken (entry_of e) }
{
    matches!(e.mode, Mode::Taken)
}

/// The host holds the object of the entry no longer, if the function takes it.
fn remove_its(held: &mut Held, params: &[VarDecl], args: &[HostArg], e: Entry)
    requires sound { IsSound held.old }
    ensures sound { IsSound held.new }
    ensures room { room_in held.old ≤ room_in held.new }
    ensures numbers { (m : ℕ) → has (numbers_in held.new) m ≡
        (has (numbers_in held.old) m && not (takes_object (bindings_in params.now args.now) m
        (entry_of e))) }
{
    if is_taken(e) {
        if let Some(n) = object_of_key(params, args, e.key) {
            held.remove(n);
        }
    }
}

/// The host holds the objects of these entries no longer that the function takes.
pub fn remove_taken(held: &mut Held, params: &[VarDecl], args: &[HostArg], clause: &[Entry])
    requires sound { IsSound held.old }
    ensures sound { IsSound held.new }
    ensures room { room_in held.old ≤ room_in held.new }
    ensures numbers { (m : ℕ) → has (numbers_in held.new) m ≡
        (has (numbers_in held.old) m && not (list_any
        (takes_object (bindings_in params.now args.now) m) (map entry_of clause.now))) }
{
    match clause.split_first() {
        None => {}
        Some((e, rest)) => {
            remove_its(held, params, args, *e);
            remove_taken(held, params, args, rest);
        }
    }
}
