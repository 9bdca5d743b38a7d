//! `adopt x into r`, for a target that is guarded by the key of r.

ghost use Rattle.std.specs.Prelude.{◌≡◌, option_map};
ghost use Rattle.vlt_syntax.specs.View as tree;
ghost use Rattle.vlt_core.specs.View.{ty_of, form_of};
ghost use Rattle.vlt_kinds_types.specs.Names.Refusals.{least_from};
ghost use Rattle.vlt_kinds_types.specs.Seen.{kinds_seen};
ghost use Rattle.vlt_resolve_exprs.specs.Seen.{scope_seen};
ghost use Rattle.vlt_resolve_rights.specs.Adopts as a;

use crate::droppable::may_drop_struct;
use crate::objects::guards;
use vlt_base::VarId;
use vlt_core::rules::{WRONG_RELEASE, WRONG_TYPE};
use vlt_core::{Form, Ty};
use vlt_kinds_types::{Kinds, LeastRefusal};
use vlt_resolve_exprs::{Scope, check_known, same_object, var_number};
use vlt_syntax::Name;

fn recipient_fits(recipient: Option<&Ty>, ty: &Ty) -> bool
    ensures { result ≡ a.recipient_fits (option_map (λ t. ty_of t.now) recipient.entry)
        (ty_of ty.now) }
{
    match recipient {
        None => true,
        Some(recipient) => guards(recipient, ty),
    }
}

fn object_fits(object: Option<&Ty>, ty: &Ty) -> bool
    ensures { result ≡ a.object_fits (option_map (λ t. ty_of t.now) object.entry)
        (ty_of ty.now) }
{
    match (object, ty) {
        (Some(Ty::Key(_, t, args)), Ty::Guard(_, u, others)) => same_object(
            *t,
            args.as_slice(),
            *u,
            others.as_slice(),
        ),
        _ => true,
    }
}

fn is_guarded(ty: &Ty) -> bool
    ensures { result ≡ a.is_guarded (ty_of ty.now) }
{
    matches!(ty, Ty::Guard(..))
}

#[tactic(auto, unfolding(crate::specs::Adopts::adopt_fits))]
fn adopt_fits(object: Option<&Ty>, recipient: Option<&Ty>, ty: &Ty) -> bool
    ensures { result ≡ a.adopt_fits (option_map (λ t. ty_of t.now) object.entry)
        (option_map (λ t. ty_of t.now) recipient.entry) (ty_of ty.now) }
{
    is_guarded(ty) && recipient_fits(recipient, ty) && object_fits(object, ty)
}

fn is_adoptable(kinds: &Kinds<'_>, ty: &Ty) -> bool
    ensures { result ≡ a.is_adoptable (kinds_seen kinds.now) (ty_of ty.now) }
{
    match ty {
        Ty::Key(_, t, _) => may_drop_struct(kinds, *t),
        _ => false,
    }
}

#[tactic(auto, unfolding(crate::specs::Adopts::object_refused))]
fn check_object(kinds: &Kinds<'_>, ty: Option<&Ty>, name: &Name, found: &mut LeastRefusal)
    ensures { found.new.least ≡ least_from found.old.least
        (a.object_refused (kinds_seen kinds.now) (option_map (λ t. ty_of t.now) ty.entry)
        (tree.name_of name.now)) }
{
    match ty {
        None => {}
        Some(ty) => found.add_if(!is_adoptable(kinds, ty), WRONG_RELEASE, name.at.from),
    }
}

/// What is refused where `object` is adopted at this place, for a target of this type.
#[tactic(auto, using(vlt_kinds_types::proofs::OfNames::Least::least_of_both), unfolding(crate::specs::Adopts::adopt_refused))]
pub fn check_adopt(
    kinds: &Kinds<'_>,
    scope: &Scope<'_>,
    ty: &Ty,
    object: &Name,
    recipient: &Name,
    at: u32,
    found: &mut LeastRefusal,
)
    ensures { found.new.least ≡ least_from found.old.least
        (a.adopt_refused (kinds_seen kinds.now) (scope_seen scope.now) (ty_of ty.now)
        (tree.name_of object.now) (tree.name_of recipient.now) at) }
{
    let given = scope.var_ty(object.text.as_slice());
    let holder = scope.var_ty(recipient.text.as_slice());
    found.add_if(!adopt_fits(given, holder, ty), WRONG_TYPE, at);
    check_known(scope, object, found);
    check_object(kinds, given, object, found);
    check_known(scope, recipient, found);
}

#[tactic(auto, unfolding(crate::specs::Adopts::core_adopt))]
pub fn core_adopt(scope: &Scope<'_>, y: VarId, object: &Name, recipient: &Name) -> Form
    ensures { form_of result ≡ a.core_adopt (scope_seen scope.now) y.0 (tree.name_of object.now)
        (tree.name_of recipient.now) }
{
    Form::Adopt {
        y,
        x: var_number(scope, object),
        r: var_number(scope, recipient),
    }
}
