//! What is refused where a key or a variable is bound.

ghost use Rattle.std.specs.Prelude.{◌≡◌, map, length, IfOk, OnOk};
ghost use Rattle.vlt_syntax.specs.View as tree;
ghost use Rattle.vlt_kinds_types.specs.Names.Refusals.{least_from};
ghost use Rattle.vlt_core.specs.View.{ty_of, vars_of};
ghost use Rattle.vlt_kinds_types.specs.Seen.{kinds_seen};
ghost use Rattle.vlt_resolve_exprs.specs.Bindings as b;
ghost use Rattle.vlt_resolve_exprs.specs.Least.{new_vars_found};
ghost use Rattle.vlt_resolve_exprs.specs.Seen.{scope_seen};

use crate::limits::{TOO_MANY_KEYS, TOO_MANY_VARIABLES};
use crate::scope::Scope;
use crate::types::copy_ty;
use std::alloc::{AllocError, Global};
use vlt_base::{Items, VarId};
use vlt_core::Ty;
use vlt_core::rules::{NAME_TAKEN, WRONG_COUNT};
use vlt_kinds_types::{Kinds, LeastRefusal};
use vlt_syntax::Name;

#[tactic(auto, unfolding(crate::specs::Bindings::too_many_vars))]
pub fn check_too_many_vars(scope: &Scope<'_>, at: u32, found: &mut LeastRefusal)
    ensures { found.new.least ≡ least_from found.old.least
        (b.too_many_vars (scope_seen scope.now) at) }
{
    found.add_if(scope.vars.len() > 255, TOO_MANY_VARIABLES, at);
}

#[tactic(auto, unfolding(crate::specs::Bindings::too_many_keys))]
pub fn check_too_many_keys(scope: &Scope<'_>, at: u32, found: &mut LeastRefusal)
    ensures { found.new.least ≡ least_from found.old.least
        (b.too_many_keys (scope_seen scope.now) at) }
{
    found.add_if(scope.keys.len() > 255, TOO_MANY_KEYS, at);
}

#[tactic(auto, unfolding(crate::specs::Bindings::not_free))]
fn check_free(kinds: &Kinds<'_>, scope: &Scope<'_>, name: &Name, found: &mut LeastRefusal)
    ensures { found.new.least ≡ least_from found.old.least
        (b.not_free (kinds_seen kinds.now) (scope_seen scope.now) (tree.name_of name.now)) }
{
    found.add_if(
        scope.is_taken(kinds, name.text.as_slice()),
        NAME_TAKEN,
        name.at.from,
    );
}

/// What is refused where a variable of this name is bound.
#[tactic(auto, using(vlt_kinds_types::proofs::OfNames::Least::least_of_both), unfolding(crate::specs::Bindings::new_var_refused))]
pub fn check_new_var(kinds: &Kinds<'_>, scope: &Scope<'_>, name: &Name, found: &mut LeastRefusal)
    ensures { found.new.least ≡ least_from found.old.least
        (b.new_var_refused (kinds_seen kinds.now) (scope_seen scope.now) (tree.name_of name.now)) }
{
    check_too_many_vars(scope, name.at.from, found);
    check_free(kinds, scope, name, found);
}

/// What is refused where a key of this name is bound.
#[tactic(auto, using(vlt_kinds_types::proofs::OfNames::Least::least_of_both), unfolding(crate::specs::Bindings::new_key_refused))]
pub fn check_new_key(kinds: &Kinds<'_>, scope: &Scope<'_>, name: &Name, found: &mut LeastRefusal)
    ensures { found.new.least ≡ least_from found.old.least
        (b.new_key_refused (kinds_seen kinds.now) (scope_seen scope.now) (tree.name_of name.now)) }
{
    check_too_many_keys(scope, name.at.from, found);
    check_free(kinds, scope, name, found);
}

// ---- several variables, one after another

fn add_new_vars<'a>(
    alloc: Global,
    kinds: &Kinds<'_>,
    scope: &mut Scope<'a>,
    names: &'a [Name],
    types: &[Ty],
    found: &mut LeastRefusal,
) -> Result<Items<VarId>, AllocError>
    ensures refused { OnOk result (found.new.least
        ≡ new_vars_found (kinds_seen kinds.now) (scope_seen scope.old) (tree.names_of names.now)
        (map ty_of types.now) found.old.least) }
    ensures scope { OnOk result (scope_seen scope.new
        ≡ b.with_vars (scope_seen scope.old) (tree.names_of names.now) (map ty_of types.now)) }
    ensures numbers { IfOk result (λ vs. vars_of vs
        ≡ b.numbers_from (length scope.old.vars) (tree.names_of names.now) (map ty_of types.now)) }
{
    let mut vars = Items::new(alloc);
    for (i, name) in names.iter().enumerate() {
        match types.get(i) {
            Some(ty) => {
                check_new_var(kinds, scope, name, found);
                let v = scope.add_var(alloc, name.text.as_slice(), copy_ty(alloc, ty)?)?;
                vars.push(v)?;
            }
            None => return Ok(vars),
        }
    }
    Ok(vars)
}

#[tactic(auto, using(crate::proofs::Operators::new_vars_are))]
fn add_each<'a>(
    alloc: Global,
    kinds: &Kinds<'_>,
    scope: &mut Scope<'a>,
    names: &'a [Name],
    types: &[Ty],
    found: &mut LeastRefusal,
) -> Result<Items<VarId>, AllocError>
    ensures refused { OnOk result (found.new.least
        ≡ least_from found.old.least (b.new_vars_refused (kinds_seen kinds.now)
        (scope_seen scope.old) (tree.names_of names.now) (map ty_of types.now))) }
    ensures scope { OnOk result (scope_seen scope.new
        ≡ b.with_vars (scope_seen scope.old) (tree.names_of names.now) (map ty_of types.now)) }
    ensures numbers { IfOk result (λ vs. vars_of vs
        ≡ b.numbers_from (length scope.old.vars) (tree.names_of names.now) (map ty_of types.now)) }
{
    add_new_vars(alloc, kinds, scope, names, types, found)
}

/// Binds variables of these types, where there are as many; else the place is refused.
#[tactic(auto, unfolding(crate::specs::Bindings::several_refused, crate::specs::Bindings::with_several, crate::specs::Bindings::several_numbers))]
pub fn add_several<'a>(
    alloc: Global,
    kinds: &Kinds<'_>,
    scope: &mut Scope<'a>,
    names: &'a [Name],
    types: &[Ty],
    at: u32,
    found: &mut LeastRefusal,
) -> Result<Items<VarId>, AllocError>
    ensures refused { OnOk result (found.new.least
        ≡ least_from found.old.least (b.several_refused (kinds_seen kinds.now)
        (scope_seen scope.old) (tree.names_of names.now) (map ty_of types.now) at)) }
    ensures scope { OnOk result (scope_seen scope.new
        ≡ b.with_several (scope_seen scope.old) (tree.names_of names.now) (map ty_of types.now)) }
    ensures numbers { IfOk result (λ vs. vars_of vs
        ≡ b.several_numbers (scope_seen scope.old) (tree.names_of names.now)
        (map ty_of types.now)) }
{
    if types.len() == names.len() {
        add_each(alloc, kinds, scope, names, types, found)
    } else {
        found.add(WRONG_COUNT, at);
        Ok(Items::new(alloc))
    }
}
