//! New objects: for a tracked target whose key is bound here, for an owning one, and adopted at once.

ghost use Rattle.std.specs.Prelude.{◌≡◌, true, [], ◌++◌, ◌∷◌, map, option_map, IfOk, OnOk};
ghost use Rattle.vlt_syntax.specs.View as tree;
ghost use Rattle.vlt_core.specs.Core as core;
ghost use Rattle.vlt_core.specs.View.{ty_of, keys_of, field_of, operand_of, type_of};
ghost use Rattle.vlt_kinds_types.specs.Names.Refusals.{least_from};
ghost use Rattle.vlt_kinds_types.specs.Files.{type_named};
ghost use Rattle.vlt_kinds_types.specs.Seen.{kinds_seen};
ghost use Rattle.vlt_resolve_exprs.specs.Exprs.{number_of};
ghost use Rattle.vlt_resolve_exprs.specs.Seen.{scope_seen, forms_of, target_seen};
ghost use Rattle.vlt_resolve_rights.specs.News as n;

use crate::droppable::may_drop_struct;
use crate::objects::{
    check_inits, field_types, fields_agree, guards, init_operands, known_args, object_fits,
};
use crate::uses::check_named;
use std::alloc::{AllocError, Global};
use vlt_base::{Boxed, Items, KeyId, TypeId, VarId};
use vlt_core::rules::{WRONG_COUNT, WRONG_NEW, WRONG_RELEASE, WRONG_TYPE};
use vlt_core::{FieldDecl, Form, Operand, Ty, TypeDecl};
use vlt_kinds_types::{Kinds, LeastRefusal};
use vlt_resolve_exprs::{
    Forms, Scope, Target, check_known, check_too_many_keys, check_too_many_vars, fields_of,
    is_struct, var_number,
};
use vlt_syntax::{Init, Name, Named, Right};

// ---- what is refused

#[tactic(auto, unfolding(crate::specs::News::target_fits))]
fn target_fits(adopted: bool, target: &Target, t: TypeId, args: &Option<Items<KeyId>>) -> bool
    ensures { result ≡ n.target_fits adopted (target_seen target.now) t.0
        (option_map keys_of args.now) }
{
    match (adopted, &target.ty) {
        (true, Ty::Guard(_, u, others)) => object_fits(t, args, *u, others.as_slice()),
        (false, Ty::Key(_, u, others)) => target.binds
            && object_fits(t, args, *u, others.as_slice()),
        (false, Ty::Own(_, u, others)) => object_fits(t, args, *u, others.as_slice()),
        _ => false,
    }
}

#[tactic(auto, unfolding(crate::specs::News::target_refused))]
fn check_target(
    adopted: bool,
    target: &Target,
    t: Option<TypeId>,
    args: &Option<Items<KeyId>>,
    at: u32,
    found: &mut LeastRefusal,
)
    ensures { found.new.least ≡ least_from found.old.least
        (n.target_refused adopted (target_seen target.now) (option_map (λ t. t.0) t)
        (option_map keys_of args.now) at) }
{
    match t {
        None => {}
        Some(t) => found.add_if(!target_fits(adopted, target, t, args), WRONG_TYPE, at),
    }
}

fn check_recipient_fit(recipient: Option<&Ty>, ty: &Ty, at: u32, found: &mut LeastRefusal)
    ensures { found.new.least ≡ least_from found.old.least
        (n.recipient_unfit (option_map (λ t. ty_of t.now) recipient.entry) (ty_of ty.now) at) }
{
    match recipient {
        None => {}
        Some(recipient) => found.add_if(!guards(recipient, ty), WRONG_TYPE, at),
    }
}

#[tactic(auto, using(vlt_kinds_types::proofs::OfNames::Least::least_of_both), unfolding(crate::specs::News::recipient_refused))]
fn check_recipient(
    scope: &Scope<'_>,
    target: &Target,
    recipient: &Name,
    at: u32,
    found: &mut LeastRefusal,
)
    ensures { found.new.least ≡ least_from found.old.least
        (n.recipient_refused (scope_seen scope.now) (target_seen target.now)
        (tree.name_of recipient.now) at) }
{
    check_known(scope, recipient, found);
    check_recipient_fit(
        scope.var_ty(recipient.text.as_slice()),
        &target.ty,
        at,
        found,
    );
}

#[tactic(auto, unfolding(crate::specs::News::adopter_refused))]
fn check_adopter(
    scope: &Scope<'_>,
    target: &Target,
    recipient: &Option<Name>,
    at: u32,
    found: &mut LeastRefusal,
)
    ensures { found.new.least ≡ least_from found.old.least
        (n.adopter_refused (scope_seen scope.now) (target_seen target.now)
        (option_map tree.name_of recipient.now) at) }
{
    match recipient {
        None => {}
        Some(recipient) => check_recipient(scope, target, recipient, at, found),
    }
}

fn releases_first(decl: Option<&TypeDecl>) -> bool
    ensures { result ≡ n.releases_first (option_map (λ d. type_of d.now) decl.entry) }
{
    match decl {
        Some(TypeDecl::Struct { release, .. }) => release.has(0),
        _ => true,
    }
}

fn takes_first(ty: &Ty) -> bool
    ensures { result ≡ n.takes_first (ty_of ty.now) }
{
    match ty {
        Ty::Own(states, ..) => states.has(0),
        _ => true,
    }
}

#[tactic(auto, using(vlt_kinds_types::proofs::OfNames::Least::least_of_both), unfolding(crate::specs::News::adopted_refused))]
fn check_adopted(kinds: &Kinds<'_>, t: TypeId, at: u32, found: &mut LeastRefusal)
    ensures { found.new.least ≡ least_from found.old.least
        (n.adopted_refused (kinds_seen kinds.now) t.0 at) }
{
    found.add_if(!may_drop_struct(kinds, t), WRONG_RELEASE, at);
    found.add_if(
        !releases_first(kinds.types.get(t.0 as usize)),
        WRONG_NEW,
        at,
    );
}

#[tactic(auto, unfolding(crate::specs::News::start_refused))]
fn check_start(
    kinds: &Kinds<'_>,
    adopted: bool,
    ty: &Ty,
    t: TypeId,
    at: u32,
    found: &mut LeastRefusal,
)
    ensures { found.new.least ≡ least_from found.old.least
        (n.start_refused (kinds_seen kinds.now) adopted (ty_of ty.now) t.0 at) }
{
    if adopted {
        check_adopted(kinds, t, at, found);
    } else {
        found.add_if(!takes_first(ty), WRONG_NEW, at);
    }
}

fn check_values(
    alloc: Global,
    kinds: &Kinds<'_>,
    scope: &Scope<'_>,
    fields: &[FieldDecl],
    args: &Option<Items<KeyId>>,
    inits: &[Init],
    found: &mut LeastRefusal,
) -> Result<(), AllocError>
    ensures { OnOk result (found.new.least ≡ least_from found.old.least
        (n.values_refused (kinds_seen kinds.now) (scope_seen scope.now)
        (map field_of fields.now) (option_map keys_of args.now) (map tree.init_of inits.now))) }
{
    match args {
        None => Ok(()),
        Some(args) => {
            let types = field_types(alloc, fields, args.as_slice())?;
            check_inits(alloc, kinds, scope, inits, types.as_slice(), found)
        }
    }
}

#[tactic(auto, unfolding(crate::specs::News::struct_refused))]
fn check_struct(
    alloc: Global,
    kinds: &Kinds<'_>,
    scope: &Scope<'_>,
    fields: &[FieldDecl],
    args: &Option<Items<KeyId>>,
    inits: &[Init],
    at: u32,
    found: &mut LeastRefusal,
) -> Result<(), AllocError>
    ensures { OnOk result (found.new.least ≡ least_from found.old.least
        (n.struct_refused (kinds_seen kinds.now) (scope_seen scope.now)
        (map field_of fields.now) (option_map keys_of args.now)
        (map tree.init_of inits.now) at)) }
{
    if fields_agree(fields, inits) {
        check_values(alloc, kinds, scope, fields, args, inits, found)?;
    } else {
        found.add(WRONG_COUNT, at);
    }
    Ok(())
}

#[tactic(auto, unfolding(crate::specs::News::object_refused))]
fn check_object(
    alloc: Global,
    kinds: &Kinds<'_>,
    scope: &Scope<'_>,
    t: TypeId,
    args: &Option<Items<KeyId>>,
    inits: &[Init],
    at: u32,
    found: &mut LeastRefusal,
) -> Result<(), AllocError>
    ensures { OnOk result (found.new.least ≡ least_from found.old.least
        (n.object_refused (kinds_seen kinds.now) (scope_seen scope.now) t.0
        (option_map keys_of args.now) (map tree.init_of inits.now) at)) }
{
    if is_struct(kinds.types.get(t.0 as usize)) {
        check_struct(
            alloc,
            kinds,
            scope,
            fields_of(kinds, t),
            args,
            inits,
            at,
            found,
        )?;
    } else {
        found.add(WRONG_NEW, at);
    }
    Ok(())
}

#[tactic(auto, using(vlt_kinds_types::proofs::OfNames::Least::least_of_both), unfolding(crate::specs::News::known_made_refused))]
fn check_known_made(
    alloc: Global,
    kinds: &Kinds<'_>,
    scope: &Scope<'_>,
    adopted: bool,
    target: &Target,
    t: TypeId,
    args: &Option<Items<KeyId>>,
    inits: &[Init],
    at: u32,
    found: &mut LeastRefusal,
) -> Result<(), AllocError>
    ensures { OnOk result (found.new.least ≡ least_from found.old.least
        (n.known_made_refused (kinds_seen kinds.now) (scope_seen scope.now) adopted
        (target_seen target.now) t.0 (option_map keys_of args.now)
        (map tree.init_of inits.now) at)) }
{
    check_start(kinds, adopted, &target.ty, t, at, found);
    check_object(alloc, kinds, scope, t, args, inits, at, found)
}

#[tactic(auto, unfolding(crate::specs::News::made_refused))]
fn check_made(
    alloc: Global,
    kinds: &Kinds<'_>,
    scope: &Scope<'_>,
    adopted: bool,
    target: &Target,
    t: Option<TypeId>,
    args: &Option<Items<KeyId>>,
    inits: &[Init],
    at: u32,
    found: &mut LeastRefusal,
) -> Result<(), AllocError>
    ensures { OnOk result (found.new.least ≡ least_from found.old.least
        (n.made_refused (kinds_seen kinds.now) (scope_seen scope.now) adopted
        (target_seen target.now) (option_map (λ t. t.0) t) (option_map keys_of args.now)
        (map tree.init_of inits.now) at)) }
{
    match t {
        None => Ok(()),
        Some(t) => check_known_made(
            alloc, kinds, scope, adopted, target, t, args, inits, at, found,
        ),
    }
}

/// What is refused in `new T { .. }` or `new(r) T { .. }`, with `new` at this place.
#[tactic(auto, using(vlt_kinds_types::proofs::OfNames::Least::least_of_both), unfolding(crate::specs::News::new_refused))]
pub fn check_new(
    alloc: Global,
    kinds: &Kinds<'_>,
    scope: &Scope<'_>,
    target: &Target,
    recipient: &Option<Name>,
    named: &Named,
    inits: &[Init],
    at: u32,
    found: &mut LeastRefusal,
) -> Result<(), AllocError>
    ensures { OnOk result (found.new.least ≡ least_from found.old.least
        (n.new_refused (kinds_seen kinds.now) (scope_seen scope.now) (target_seen target.now)
        (option_map tree.name_of recipient.now) (tree.named_of named.now)
        (map tree.init_of inits.now) at)) }
{
    let t = type_named(kinds, named);
    let args = known_args(alloc, kinds, scope, named)?;
    let adopted = recipient.is_some();
    check_adopter(scope, target, recipient, at, found);
    check_target(adopted, target, t, &args, at, found);
    check_named(kinds, scope, named, found);
    check_made(
        alloc,
        kinds,
        scope,
        adopted,
        target,
        t,
        &args,
        inits,
        named.name.at.from,
        found,
    )
}

// ---- hidden keys and variables

fn hides(right: &Right, ty: Option<&Ty>) -> bool
    ensures { result ≡ n.hides (tree.right_of right.now)
        (option_map (λ t. ty_of t.now) ty.entry) }
{
    match (right, ty) {
        (Right::New { owner: Some(_), .. }, _) => true,
        (Right::New { owner: None, .. }, Some(Ty::Own(..))) => true,
        _ => false,
    }
}

/// What is refused where a right side at this place has a hidden key and variable.
#[tactic(auto, using(vlt_kinds_types::proofs::OfNames::Least::least_of_both), unfolding(crate::specs::News::hidden_refused))]
fn check_both_hidden(scope: &Scope<'_>, at: u32, found: &mut LeastRefusal)
    ensures { found.new.least ≡ least_from found.old.least
        (n.hidden_refused (scope_seen scope.now) true at) }
{
    check_too_many_keys(scope, at, found);
    check_too_many_vars(scope, at, found);
}

fn args_or_none(args: &Option<Items<KeyId>>) -> &[KeyId]
    ensures { keys_of result.now ≡ n.args_or_none (option_map keys_of args.now) }
{
    match args {
        None => &[],
        Some(args) => args.as_slice(),
    }
}

fn type_named(kinds: &Kinds<'_>, named: &Named) -> Option<TypeId>
    ensures { option_map (λ t. t.0) result ≡ type_named (kinds_seen kinds.now).file
        (tree.named_of named.now).name }
{
    match kinds.file.type_named(&named.name) {
        None => None,
        Some(t) => Some(TypeId(t)),
    }
}

fn number_of_type(t: Option<TypeId>) -> TypeId
    ensures { result.0 ≡ number_of (option_map (λ t. t.0) t) }
{
    match t {
        None => TypeId(0),
        Some(t) => t,
    }
}

/// What is refused where the right side has a hidden key and variable, which are bound at this place.
#[tactic(auto, unfolding(crate::specs::News::hidden_refused))]
pub fn check_hidden(
    scope: &Scope<'_>,
    right: &Right,
    ty: Option<&Ty>,
    at: u32,
    found: &mut LeastRefusal,
)
    ensures { found.new.least ≡ least_from found.old.least
        (n.hidden_refused (scope_seen scope.now)
        (n.hides (tree.right_of right.now) (option_map (λ t. ty_of t.now) ty.entry)) at) }
{
    if hides(right, ty) {
        check_both_hidden(scope, at, found);
    }
}

fn add_object(
    alloc: Global,
    kinds: &Kinds<'_>,
    scope: &mut Scope<'_>,
    named: &Named,
) -> Result<(), AllocError>
    ensures { OnOk result (scope_seen scope.new
        ≡ n.with_object (kinds_seen kinds.now) (scope_seen scope.old) (tree.named_of named.now)) }
{
    let t = type_named(kinds, named);
    let args = known_args(alloc, kinds, scope, named)?;
    let key = scope.add_hidden_key(alloc, &[], t)?;
    let keys = Items::from_slice(alloc, args_or_none(&args))?;
    scope.add_hidden_var(alloc, &[], Ty::Key(key, number_of_type(t), keys))?;
    Ok(())
}

/// Binds the hidden key and variable of a right side that has them.
#[tactic(auto, unfolding(crate::specs::News::with_hidden))]
pub fn add_hidden(
    alloc: Global,
    kinds: &Kinds<'_>,
    scope: &mut Scope<'_>,
    right: &Right,
    ty: Option<&Ty>,
) -> Result<(), AllocError>
    ensures { OnOk result (scope_seen scope.new
        ≡ n.with_hidden (kinds_seen kinds.now) (scope_seen scope.old) (tree.right_of right.now)
        (option_map (λ t. ty_of t.now) ty.entry)) }
{
    match right {
        Right::New { named, .. } => {
            if hides(right, ty) {
                add_object(alloc, kinds, scope, named)?;
            }
            Ok(())
        }
        _ => Ok(()),
    }
}

// ---- what it becomes

#[tactic(auto, unfolding(crate::specs::News::made_operands))]
fn made_operands(
    alloc: Global,
    kinds: &Kinds<'_>,
    scope: &Scope<'_>,
    named: &Named,
    inits: &[Init],
) -> Result<Items<Operand>, AllocError>
    ensures { IfOk result (λ os. map operand_of os
        ≡ n.made_operands (kinds_seen kinds.now) (scope_seen scope.now)
        (tree.named_of named.now) (map tree.init_of inits.now)) }
{
    let t = number_of_type(type_named(kinds, named));
    let args = known_args(alloc, kinds, scope, named)?;
    let types = field_types(alloc, fields_of(kinds, t), args_or_none(&args))?;
    init_operands(alloc, kinds, scope, inits, types.as_slice())
}

fn made_forms(
    alloc: Global,
    scope: &Scope<'_>,
    ty: &Ty,
    x: VarId,
    hidden: VarId,
    recipient: &Option<Name>,
    args: Items<Operand>,
) -> Result<Forms, AllocError>
    ensures { IfOk result (λ fs. forms_of fs
        ≡ n.made_forms (scope_seen scope.now) (ty_of ty.now) x.0 hidden.0
        (option_map tree.name_of recipient.now) (map operand_of args)) }
{
    match (recipient, ty) {
        (Some(name), _) => {
            let r = var_number(scope, name);
            let made = Boxed::new(alloc, Form::New { x: hidden, args })?;
            Forms::two(alloc, made, Form::Adopt { y: x, x: hidden, r })
        }
        (None, Ty::Own(states, ..)) => {
            let value = Operand::Pack(hidden, *states);
            let made = Boxed::new(alloc, Form::New { x: hidden, args })?;
            Forms::two(alloc, made, Form::Own { v: x, value })
        }
        _ => Forms::one(alloc, Form::New { x, args }),
    }
}

/// What a `new` becomes, for the variable `x`, with the hidden variable of this number.
#[tactic(auto, unfolding(crate::specs::News::new_forms))]
pub fn new_forms(
    alloc: Global,
    kinds: &Kinds<'_>,
    scope: &Scope<'_>,
    target: &Target,
    x: VarId,
    hidden: VarId,
    recipient: &Option<Name>,
    named: &Named,
    inits: &[Init],
) -> Result<Forms, AllocError>
    ensures { IfOk result (λ fs. forms_of fs
        ≡ n.new_forms (kinds_seen kinds.now) (scope_seen scope.now)
        (target_seen target.now) x.0 hidden.0 (option_map tree.name_of recipient.now)
        (tree.named_of named.now) (map tree.init_of inits.now)) }
{
    let args = made_operands(alloc, kinds, scope, named, inits)?;
    made_forms(alloc, scope, &target.ty, x, hidden, recipient, args)
}
