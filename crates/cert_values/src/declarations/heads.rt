//! Results, entries of clauses, keys and variables of functions.

ghost use Rattle.std.specs.Prelude.{◌≡◌, map, option_map, true, OnOk};
ghost use Rattle.std.specs.Str.{IsUtf8};
ghost use Rattle.vlt_core.specs.View.{ty_of, mode_of, states_of, entry_of, key_of, var_of};
ghost use Rattle.cert_rows.specs.Parts.{list, nat, minus_data, All};
ghost use Rattle.cert_rows.specs.Values.{entry as entry_part, key_decl, var_decl, mode_number, before_number, after_number, held_number};
ghost use Rattle.cert_rows.specs.Rows.{result_data};
ghost use Rattle.cert_values.specs.Laid.{laid};
ghost use Rattle.cert_values.specs.Declarations.Names.{IsNamed};

use crate::declarations::names::{Unwritten, put_name};
use crate::declarations::types::type_number;
use crate::{CertText, put_bare, put_mask, put_number_or_minus, put_ty};
use std::alloc::AllocError;
use vlt_base::StateSet;
use vlt_core::{Entry, KeyDecl, Mode, Ty, VarDecl};

/// Writes a result's type, or that there is none.
pub fn put_result(out: &mut CertText, ty: &Option<Ty>) -> Result<(), AllocError>
    ensures { OnOk result (out.new ≡ laid (result_data (option_map ty_of ty.now)) out.old) }
{
    match ty {
        None => put_bare(out, "void"),
        Some(ty) => put_ty(out, ty),
    }
}

fn put_mode(out: &mut CertText, mode: Mode) -> Result<(), AllocError>
    ensures { OnOk result (out.new ≡ laid (nat (mode_number (mode_of mode))) out.old) }
{
    match mode {
        Mode::Kept => out.number(0),
        Mode::Taken => out.number(1),
        Mode::Given => out.number(2),
        Mode::New => out.number(3),
        Mode::Bound(_) => out.number(4),
    }
}

/// Writes a side on which the key is held: -1 where it names no states.
fn put_held(out: &mut CertText, states: Option<StateSet>) -> Result<(), AllocError>
    ensures { OnOk result (out.new
        ≡ laid (minus_data nat (held_number (states_of states))) out.old) }
{
    match states {
        None => out.minus_one(),
        Some(states) => put_mask(out, states),
    }
}

/// Writes the first side; of a bound entry it is the state that bounds it.
fn put_before(out: &mut CertText, mode: Mode, states: Option<StateSet>) -> Result<(), AllocError>
    ensures { OnOk result (out.new
        ≡ laid (minus_data nat (before_number (mode_of mode) (states_of states))) out.old) }
{
    match mode {
        Mode::Kept => put_held(out, states),
        Mode::Taken => put_held(out, states),
        Mode::Given => out.number(0),
        Mode::New => out.number(0),
        Mode::Bound(state) => out.number(state as u64),
    }
}

fn put_after(out: &mut CertText, mode: Mode, states: Option<StateSet>) -> Result<(), AllocError>
    ensures { OnOk result (out.new
        ≡ laid (minus_data nat (after_number (mode_of mode) (states_of states))) out.old) }
{
    match mode {
        Mode::Kept => put_held(out, states),
        Mode::Taken => out.number(0),
        Mode::Given => put_held(out, states),
        Mode::New => put_held(out, states),
        Mode::Bound(_) => out.minus_one(),
    }
}

fn put_entry(out: &mut CertText, entry: &Entry) -> Result<(), AllocError>
    ensures { OnOk result (out.new
        ≡ laid ((entry_part true).data_of (entry_of entry.now)) out.old) }
{
    out.begin()?;
    put_mode(out, entry.mode)?;
    out.number(entry.key.0 as u64)?;
    put_before(out, entry.mode, entry.before)?;
    put_after(out, entry.mode, entry.after)?;
    out.end()
}

/// Writes a clause, entry by entry.
pub fn put_clause(out: &mut CertText, clause: &[Entry]) -> Result<(), AllocError>
    ensures { OnOk result (out.new ≡ laid (list (map (entry_part true).data_of
        (map entry_of clause.now))) out.old) }
{
    out.begin()?;
    for entry in clause {
        put_entry(out, entry)?;
    }
    out.end()
}

fn put_key(out: &mut CertText, key: &KeyDecl) -> Result<(), Unwritten>
    ensures value { OnOk result (out.new ≡ laid (key_decl.data_of (key_of key.now)) out.old) }
    ensures named { IsUtf8 key.now.name → IsNamed result }
{
    out.begin()?;
    put_name(out, key.name.as_slice())?;
    put_number_or_minus(out, type_number(key.key_type))?;
    out.end()?;
    Ok(())
}

/// Writes the keys of a function with their types.
pub fn put_keys(out: &mut CertText, keys: &[KeyDecl]) -> Result<(), Unwritten>
    ensures value { OnOk result (out.new ≡ laid (list (map key_decl.data_of
        (map key_of keys.now))) out.old) }
    ensures named { All (λ k. IsUtf8 k.name) (map key_of keys.now) → IsNamed result }
{
    out.begin()?;
    for key in keys {
        put_key(out, key)?;
    }
    out.end()?;
    Ok(())
}

fn put_var(out: &mut CertText, var: &VarDecl) -> Result<(), Unwritten>
    ensures value { OnOk result (out.new ≡ laid (var_decl.data_of (var_of var.now)) out.old) }
    ensures named { IsUtf8 var.now.name → IsNamed result }
{
    out.begin()?;
    put_name(out, var.name.as_slice())?;
    put_ty(out, &var.ty)?;
    out.end()?;
    Ok(())
}

/// Writes the variables of a function with their types.
pub fn put_vars(out: &mut CertText, vars: &[VarDecl]) -> Result<(), Unwritten>
    ensures value { OnOk result (out.new ≡ laid (list (map var_decl.data_of
        (map var_of vars.now))) out.old) }
    ensures named { All (λ x. IsUtf8 x.name) (map var_of vars.now) → IsNamed result }
{
    out.begin()?;
    for var in vars {
        put_var(out, var)?;
    }
    out.end()?;
    Ok(())
}
