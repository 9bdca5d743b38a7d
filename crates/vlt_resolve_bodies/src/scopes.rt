//! The scope that a body begins with.

ghost use Rattle.std.specs.Prelude.{◌≡◌, map, IfOk, OnOk};
ghost use Rattle.vlt_core.specs.View.{func_of, key_of, var_of, entry_of};
ghost use Rattle.vlt_resolve_exprs.specs.Seen.{scope_seen};
ghost use Rattle.vlt_elaboration.specs.Elaboration as e;

use crate::copies::{copy_keys, copy_vars};
use indexmap::IndexMap;
use std::alloc::{AllocError, Global};
use vlt_base::{Items, KeyId, VarId};
use vlt_core::{Entry, Func, KeyDecl, Mode, Tok, VarDecl};
use vlt_resolve_exprs::Scope;

fn is_fresh_key(clause: &[Entry], key: u32) -> bool
    ensures { result ≡ e.is_fresh_key (map entry_of clause.now) key }
{
    for entry in clause {
        if entry.key.0 == key && matches!(entry.mode, Mode::New) {
            return true;
        }
    }
    false
}

fn add_key_names<'k>(
    scope: &mut Scope<'k>,
    clause: &[Entry],
    keys: &'k [KeyDecl],
) -> Result<(), AllocError>
    ensures { OnOk result (scope_seen scope.new
        ≡ e.with_key_names (map entry_of clause.now) (scope_seen scope.old) 0
        (map key_of keys.now)) }
{
    for (i, key) in keys.iter().enumerate() {
        let Ok(number) = u32::try_from(i) else {
            return Err(AllocError);
        };
        if !is_fresh_key(clause, number) {
            scope.name_tok(key.name.as_slice(), Tok::Key(KeyId(number)))?;
        }
    }
    Ok(())
}

fn add_var_names<'k>(scope: &mut Scope<'k>, vars: &'k [VarDecl]) -> Result<(), AllocError>
    ensures { OnOk result (scope_seen scope.new
        ≡ e.with_var_names (scope_seen scope.old) 0 (map var_of vars.now)) }
{
    for (i, var) in vars.iter().enumerate() {
        let Ok(number) = u32::try_from(i) else {
            return Err(AllocError);
        };
        scope.name_tok(var.name.as_slice(), Tok::Var(VarId(number)))?;
    }
    Ok(())
}

/// As many names of a body's own as a scope has room for without growing.
const LOCAL_NAMES: usize = 4;

fn nameless_scope<'k>(alloc: Global, head: &Func) -> Result<Scope<'k>, AllocError>
    ensures { IfOk result (λ x. scope_seen x ≡ e.nameless_scope (func_of head.now)) }
{
    let names = head.keys.len().saturating_add(head.vars.len());
    Ok(Scope {
        names: IndexMap::with_capacity(alloc, names.saturating_add(LOCAL_NAMES))?,
        keys: copy_keys(alloc, head.keys.as_slice())?,
        vars: copy_vars(alloc, head.vars.as_slice())?,
        block_keys: Items::new(alloc),
        block_vars: Items::new(alloc),
    })
}

/// The scope that a body begins with.
pub fn body_scope<'k>(alloc: Global, head: &'k Func) -> Result<Scope<'k>, AllocError>
    ensures { IfOk result (λ x. scope_seen x ≡ e.body_scope (func_of head.now)) }
{
    let mut scope = nameless_scope(alloc, head)?;
    add_key_names(&mut scope, head.clause.as_slice(), head.keys.as_slice())?;
    add_var_names(&mut scope, head.vars.as_slice())?;
    Ok(scope)
}
