//! What a new object's type says: its keys, and the fields that are given values.

ghost use Rattle.std.specs.Prelude.{◌≡◌, map, option_map, length, Some, IfOk, OnOk};
ghost use Rattle.vlt_syntax.specs.View as tree;
ghost use Rattle.vlt_core.specs.View.{ty_of, keys_of, field_of, operand_of};
ghost use Rattle.vlt_kinds_types.specs.Names.Refusals.{least_from};
ghost use Rattle.vlt_kinds_types.specs.Seen.{kinds_seen};
ghost use Rattle.vlt_resolve_exprs.specs.Seen.{scope_seen};
ghost use Rattle.vlt_resolve_rights.specs.Least.{inits_found};
ghost use Rattle.vlt_resolve_rights.specs.News as n;

use std::alloc::{AllocError, Global};
use vlt_base::{Items, KeyId, TypeId};
use vlt_core::{FieldDecl, Operand, Ty};
use vlt_kinds_types::{Kinds, LeastRefusal, Shape};
use vlt_resolve_exprs::{Scope, check_operand, core_operand, same_keys, ty_under};
use vlt_syntax::{Init, Name, Named};

// ---- the keys of a new object's type

fn known_keys(
    alloc: Global,
    scope: &Scope<'_>,
    names: &[Name],
) -> Result<Option<Items<KeyId>>, AllocError>
    ensures { IfOk result (λ ks. option_map keys_of ks
        ≡ n.known_keys (scope_seen scope.now) (tree.names_of names.now)) }
{
    let mut keys = Items::new(alloc);
    for name in names {
        match scope.key_named(name.text.as_slice()) {
            None => return Ok(None),
            Some(key) => keys.push(key)?,
        }
    }
    Ok(Some(keys))
}

fn keys_of_shape(
    alloc: Global,
    shape: Option<&Shape>,
    scope: &Scope<'_>,
    names: &[Name],
) -> Result<Option<Items<KeyId>>, AllocError>
    ensures { IfOk result (λ ks. option_map keys_of ks
        ≡ n.keys_of_shape (option_map (λ s. s.now) shape.entry) (scope_seen scope.now)
        (tree.names_of names.now)) }
{
    match shape {
        None => Ok(None),
        Some(shape) => {
            if shape.header.len() == names.len() {
                known_keys(alloc, scope, names)
            } else {
                Ok(None)
            }
        }
    }
}

/// The keys that stand for the header's, where they are known and as many.
#[tactic(auto, unfolding(crate::specs::News::known_args))]
pub fn known_args(
    alloc: Global,
    kinds: &Kinds<'_>,
    scope: &Scope<'_>,
    named: &Named,
) -> Result<Option<Items<KeyId>>, AllocError>
    ensures { IfOk result (λ ks. option_map keys_of ks
        ≡ n.known_args (kinds_seen kinds.now) (scope_seen scope.now) (tree.named_of named.now)) }
{
    let shape = kinds.file.shape_named(&named.name);
    keys_of_shape(alloc, shape, scope, named.keys.as_slice())
}

/// Whether the target has the guard of this recipient.
pub fn guards(recipient: &Ty, ty: &Ty) -> bool
    ensures { result ≡ n.guards (Some (ty_of recipient.now)) (ty_of ty.now) }
{
    match (recipient, ty) {
        (Ty::Key(k, ..), Ty::Guard(l, ..)) => k.0 == l.0,
        _ => false,
    }
}

fn args_fit(args: &Option<Items<KeyId>>, others: &[KeyId]) -> bool
    ensures { result ≡ n.args_fit (option_map keys_of args.now) (keys_of others.now) }
{
    match args {
        None => true,
        Some(args) => same_keys(args.as_slice(), others),
    }
}

/// Whether an object of this type is of the other, as far as its keys are known.
pub fn object_fits(t: TypeId, args: &Option<Items<KeyId>>, u: TypeId, others: &[KeyId]) -> bool
    ensures { result ≡ n.object_fits t.0 (option_map keys_of args.now) u.0 (keys_of others.now) }
{
    t.0 == u.0 && args_fit(args, others)
}

// ---- the values of fields

fn agree_each(fields: &[FieldDecl], inits: &[Init]) -> bool
    requires { length fields.now ≡ length inits.now }
    ensures { result ≡ n.agree (map field_of fields.now) (map tree.init_of inits.now) }
{
    for (i, init) in inits.iter().enumerate() {
        if fields[i].name.as_slice() != init.field.text.as_slice() {
            return false;
        }
    }
    true
}

/// Whether values are given to these fields, in their order.
#[tactic(auto, unfolding(crate::specs::News::fields_agree))]
pub fn fields_agree(fields: &[FieldDecl], inits: &[Init]) -> bool
    ensures { result ≡ n.fields_agree (map field_of fields.now) (map tree.init_of inits.now) }
{
    if fields.len() == inits.len() {
        agree_each(fields, inits)
    } else {
        false
    }
}

/// The types of fields, where these keys stand for the header's.
pub fn field_types(
    alloc: Global,
    fields: &[FieldDecl],
    args: &[KeyId],
) -> Result<Items<Ty>, AllocError>
    ensures { IfOk result (λ ts. map ty_of ts
        ≡ n.field_types (map field_of fields.now) (keys_of args.now)) }
{
    let mut types = Items::new(alloc);
    for field in fields {
        types.push(ty_under(alloc, args, &field.ty)?)?;
    }
    Ok(types)
}

fn check_each_init(
    alloc: Global,
    kinds: &Kinds<'_>,
    scope: &Scope<'_>,
    inits: &[Init],
    types: &[Ty],
    found: &mut LeastRefusal,
) -> Result<(), AllocError>
    ensures { OnOk result (found.new.least ≡ inits_found (kinds_seen kinds.now)
        (scope_seen scope.now) (map tree.init_of inits.now)
        (map ty_of types.now) found.old.least) }
{
    for (i, init) in inits.iter().enumerate() {
        match types.get(i) {
            Some(ty) => check_operand(alloc, kinds, scope, ty, &init.value, found)?,
            None => return Ok(()),
        }
    }
    Ok(())
}

/// What is refused in the values of fields of these types.
#[tactic(auto, using(crate::proofs::Arguments::inits_all))]
pub fn check_inits(
    alloc: Global,
    kinds: &Kinds<'_>,
    scope: &Scope<'_>,
    inits: &[Init],
    types: &[Ty],
    found: &mut LeastRefusal,
) -> Result<(), AllocError>
    ensures { OnOk result (found.new.least ≡ least_from found.old.least
        (n.inits_refused (kinds_seen kinds.now) (scope_seen scope.now)
        (map tree.init_of inits.now) (map ty_of types.now))) }
{
    check_each_init(alloc, kinds, scope, inits, types, found)
}

/// What the values of fields of these types become.
pub fn init_operands(
    alloc: Global,
    kinds: &Kinds<'_>,
    scope: &Scope<'_>,
    inits: &[Init],
    types: &[Ty],
) -> Result<Items<Operand>, AllocError>
    ensures { IfOk result (λ os. map operand_of os
        ≡ n.init_operands (kinds_seen kinds.now) (scope_seen scope.now)
        (map tree.init_of inits.now) (map ty_of types.now)) }
{
    let mut made = Items::new(alloc);
    for (i, init) in inits.iter().enumerate() {
        match types.get(i) {
            Some(ty) => made.push(core_operand(alloc, kinds, scope, ty, &init.value)?)?,
            None => return Ok(made),
        }
    }
    Ok(made)
}
