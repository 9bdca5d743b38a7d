//! `open x into (v, w);`

ghost use Rattle.std.specs.Prelude.{◌≡◌, map, option_map, IfOk, OnOk};
ghost use Rattle.vlt_syntax.specs.View as tree;
ghost use Rattle.vlt_core.specs.View.{ty_of, field_of, keys_of};
ghost use Rattle.vlt_kinds_types.specs.Names.Refusals.{least_from};
ghost use Rattle.vlt_kinds_types.specs.Seen.{kinds_seen};
ghost use Rattle.vlt_resolve_exprs.specs.Scopes.{var_ty};
ghost use Rattle.vlt_resolve_exprs.specs.Seen.{scope_seen, forms_of};
ghost use Rattle.vlt_elaboration.specs.Statements as s;

use std::alloc::{AllocError, Global};
use vlt_base::{Items, KeyId, TypeId};
use vlt_core::rules::{UNKNOWN_NAME, WRONG_RELEASE};
use vlt_core::{FieldDecl, Form, Ty};
use vlt_kinds_types::{Kinds, LeastRefusal};
use vlt_resolve_exprs::{
    Forms, Scope, add_several, fields_of, is_owning, is_struct, ty_under, var_number,
};
use vlt_syntax::Name;

fn owning_types(
    alloc: Global,
    args: &[KeyId],
    fields: &[FieldDecl],
) -> Result<Items<Ty>, AllocError>
    ensures { IfOk result (λ ts. map ty_of ts
        ≡ s.owning_types (keys_of args.now) (map field_of fields.now)) }
{
    let mut types = Items::new(alloc);
    for field in fields {
        if is_owning(&field.ty) {
            types.push(ty_under(alloc, args, &field.ty)?)?;
        }
    }
    Ok(types)
}

fn parts_of(
    alloc: Global,
    kinds: &Kinds<'_>,
    t: TypeId,
    args: &[KeyId],
) -> Result<Option<Items<Ty>>, AllocError>
    ensures { IfOk result (λ ts. option_map (map ty_of) ts
        ≡ s.parts_of (kinds_seen kinds.now) t.0 (keys_of args.now)) }
{
    if is_struct(kinds.types.get(t.0 as usize)) {
        Ok(Some(owning_types(alloc, args, fields_of(kinds, t))?))
    } else {
        Ok(None)
    }
}

/// The types of the parts of an object that can be opened.
#[tactic(auto, unfolding(vlt_elaboration::specs::Statements::opened_parts))]
fn opened_parts(
    alloc: Global,
    kinds: &Kinds<'_>,
    ty: Option<&Ty>,
) -> Result<Option<Items<Ty>>, AllocError>
    ensures { IfOk result (λ ts. option_map (map ty_of) ts
        ≡ s.opened_parts (kinds_seen kinds.now) (option_map (λ t. ty_of t.now) ty.entry)) }
{
    match ty {
        Some(Ty::Key(_, t, args)) => parts_of(alloc, kinds, *t, args.as_slice()),
        _ => Ok(None),
    }
}

#[tactic(auto, unfolding(vlt_elaboration::specs::Statements::unopened_refused))]
fn check_unopened(ty: Option<&Ty>, name: &Name, found: &mut LeastRefusal)
    ensures { found.new.least ≡ least_from found.old.least
        (s.unopened_refused (option_map (λ t. ty_of t.now) ty.entry) (tree.name_of name.now)) }
{
    match ty {
        None => found.add(UNKNOWN_NAME, name.at.from),
        Some(_) => found.add(WRONG_RELEASE, name.at.from),
    }
}

fn open_parts<'a>(
    alloc: Global,
    kinds: &Kinds<'_>,
    scope: &mut Scope<'a>,
    types: &Option<Items<Ty>>,
    name: &Name,
    parts: &'a [Name],
    at: u32,
    found: &mut LeastRefusal,
) -> Result<Forms, AllocError>
    ensures refused { OnOk result (found.new.least
        ≡ least_from found.old.least (s.opened_refused (kinds_seen kinds.now)
        (scope_seen scope.old) (option_map (map ty_of) types.now)
        (var_ty (scope_seen scope.old) (tree.name_of name.now).text) (tree.name_of name.now)
        (tree.names_of parts.now) at)) }
    ensures became { IfOk result (λ fs. s.opened_became (scope_seen scope.old)
        (option_map (map ty_of) types.now) (tree.name_of name.now) (tree.names_of parts.now)
        ≡ (forms_of fs, scope_seen scope.new)) }
{
    match types {
        None => {
            check_unopened(scope.var_ty(name.text.as_slice()), name, found);
            Ok(Forms::Nothing)
        }
        Some(types) => {
            let x = var_number(scope, name);
            let into = add_several(alloc, kinds, scope, parts, types.as_slice(), at, found)?;
            Forms::one(alloc, Form::Open { x, into })
        }
    }
}

/// Tests an `open`, and makes it. What it makes counts only where nothing is refused.
#[tactic(auto, unfolding(vlt_elaboration::specs::Statements::open_refused, vlt_elaboration::specs::Statements::open_became))]
pub fn open<'a>(
    alloc: Global,
    kinds: &Kinds<'_>,
    scope: &mut Scope<'a>,
    name: &Name,
    parts: &'a [Name],
    at: u32,
    found: &mut LeastRefusal,
) -> Result<Forms, AllocError>
    ensures refused { OnOk result (found.new.least
        ≡ least_from found.old.least (s.open_refused (kinds_seen kinds.now)
        (scope_seen scope.old) (tree.name_of name.now) (tree.names_of parts.now) at)) }
    ensures became { IfOk result (λ fs. s.open_became (kinds_seen kinds.now) (scope_seen scope.old)
        (tree.name_of name.now) (tree.names_of parts.now) ≡ (forms_of fs, scope_seen scope.new)) }
{
    let types = opened_parts(alloc, kinds, scope.var_ty(name.text.as_slice()))?;
    open_parts(alloc, kinds, scope, &types, name, parts, at, found)
}
