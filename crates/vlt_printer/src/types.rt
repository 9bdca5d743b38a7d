//! Names, states and types.

ghost use Rattle.std.specs.Prelude.{◌≡◌, OnOk, option_map};
ghost use Rattle.vlt_syntax.specs.Tree.{Name as SeenName, KeyStates as SeenKeyStates, Ty as SeenTy};
ghost use Rattle.vlt_syntax.specs.View.{name_of, states_of, key_states_of, named_of, ty_of};
ghost use Rattle.vlt_printer.specs.Layout.{name_after, at_name_after, states_after, at_states_after, key_states_after, named_after, ty_after};

use crate::lists::{Part, write_braced, write_enclosed, write_text};
use vlt_base::Memory;
use vlt_syntax::{KeyStates, Name, Named, States, Ty};

impl Part for Name {
    ghost Seen = { SeenName };

    ghost view = { name_of };

    ghost after = { name_after };

    fn write(&self, out: &mut Vec<u8>) -> Result<(), Memory> {
        write_name(out, self)
    }
}

impl Part for KeyStates {
    ghost Seen = { SeenKeyStates };

    ghost view = { key_states_of };

    ghost after = { key_states_after };

    fn write(&self, out: &mut Vec<u8>) -> Result<(), Memory> {
        write_name(out, &self.key)?;
        write_at_states(out, &self.states)
    }
}

impl Part for Ty {
    ghost Seen = { SeenTy };

    ghost view = { ty_of };

    ghost after = { ty_after };

    fn write(&self, out: &mut Vec<u8>) -> Result<(), Memory> {
        write_ty(out, self)
    }
}

pub fn write_name(out: &mut Vec<u8>, name: &Name) -> Result<(), Memory>
    ensures { OnOk result (out.new.items ≡ name_after (name_of name.now) out.old.items) }
{
    write_text(out, name.text.as_slice())
}

/// Writes `@` and a name, or nothing.
pub fn write_at_name(out: &mut Vec<u8>, name: &Option<Name>) -> Result<(), Memory>
    ensures { OnOk result (out.new.items ≡ at_name_after (option_map name_of name.now)
        out.old.items) }
{
    match name {
        Some(name) => {
            write_text(out, b"@")?;
            write_name(out, name)
        }
        None => Ok(()),
    }
}

pub fn write_states(out: &mut Vec<u8>, states: &States) -> Result<(), Memory>
    ensures { OnOk result (out.new.items ≡ states_after (states_of states.now) out.old.items) }
{
    match states {
        States::One(name) => write_name(out, name),
        States::Several(names, _) => write_braced(out, names.as_slice()),
    }
}

/// Writes `@` and states, or nothing.
pub fn write_at_states(out: &mut Vec<u8>, states: &Option<States>) -> Result<(), Memory>
    ensures { OnOk result (out.new.items ≡ at_states_after (option_map states_of states.now)
        out.old.items) }
{
    match states {
        Some(states) => {
            write_text(out, b"@")?;
            write_states(out, states)
        }
        None => Ok(()),
    }
}

pub fn write_named(out: &mut Vec<u8>, named: &Named) -> Result<(), Memory>
    ensures { OnOk result (out.new.items ≡ named_after (named_of named.now) out.old.items) }
{
    write_name(out, &named.name)?;
    write_enclosed(out, b"<", b">", named.keys.as_slice())
}

pub fn write_ty(out: &mut Vec<u8>, ty: &Ty) -> Result<(), Memory>
    ensures { OnOk result (out.new.items ≡ ty_after (ty_of ty.now) out.old.items) }
{
    match ty {
        Ty::Int(_) => write_text(out, b"int"),
        Ty::Bool(_) => write_text(out, b"bool"),
        Ty::Tracked { key, named, .. } => {
            write_text(out, b"tracked(")?;
            write_name(out, key)?;
            write_text(out, b") ")?;
            write_named(out, named)
        }
        Ty::Owning { states, named, .. } => {
            write_text(out, b"tracked")?;
            write_at_states(out, states)?;
            write_text(out, b" ")?;
            write_named(out, named)
        }
        Ty::Guarded { key, named } => {
            write_name(out, key)?;
            write_text(out, b":")?;
            write_named(out, named)
        }
        Ty::Plain(named) => write_named(out, named),
    }
}
