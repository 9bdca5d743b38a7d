//! Expressions.

ghost use Rattle.std.specs.Prelude.{◌≡◌, map, option_map, IfOk, OnOk, Some, None, position};
ghost use Rattle.std.specs.Str.{bytes_eq};
ghost use Rattle.vlt_ops.specs.Operator.{row_of};
ghost use Rattle.vlt_syntax.specs.View as tree;
ghost use Rattle.vlt_core.specs.Lookups.{fields_in};
ghost use Rattle.vlt_core.specs.View.{ty_of, field_of, expr_of, type_of, keys_of};
ghost use Rattle.vlt_kinds_types.specs.Names.Refusals.{least_from};
ghost use Rattle.vlt_kinds_types.specs.Seen.{kinds_seen};
ghost use Rattle.vlt_resolve_exprs.specs.Exprs as e;
ghost use Rattle.vlt_resolve_exprs.specs.Refused.{unknown_name};
ghost use Rattle.vlt_resolve_exprs.specs.Scopes as s;
ghost use Rattle.vlt_resolve_exprs.specs.Seen.{object_seen, scope_seen};
ghost use Rattle.vlt_resolve_exprs.specs.Least.{found_in};
ghost use Rattle.vlt_resolve_exprs.specs.Types.{then_with};

use crate::scope::Scope;
use crate::types::{copy_ty, is_owning, lies_within, same_ty, ty_under};
use std::alloc::{AllocError, Global};
use vlt_base::{Boxed, KeyId, TypeId, VarId};
use vlt_core::rules::{GUARDED_FIELD, UNKNOWN_NAME, WRONG_SWAP, WRONG_TYPE};
use vlt_core::{FieldDecl, Ty, TypeDecl};
use vlt_kinds_types::{Kinds, LeastRefusal};
use vlt_ops::{Op, Takes, row};
use vlt_syntax::{Expr, Name, Operands};

#[tactic(auto, unfolding(crate::specs::Exprs::expr_place))]
pub fn place(expr: &Expr) -> u32
    ensures { result ≡ e.expr_place (tree.expr_of expr.now) }
{
    match expr {
        Expr::Number(_, at) | Expr::True(at) | Expr::False(at) | Expr::Group(_, at) => at.from,
        Expr::Variable(name) => name.at.from,
        Expr::Field { base, .. } => base.at.from,
        Expr::Unary { at, .. } | Expr::Binary { at, .. } => at.from,
    }
}

/// The type that an operator gives.
#[tactic(auto, unfolding(crate::specs::Exprs::type_given))]
fn type_given(op: Op) -> Ty
    ensures { ty_of result ≡ e.type_given op }
{
    if row(op).gives_int { Ty::Int } else { Ty::Bool }
}

fn fields_in(decl: Option<&TypeDecl>) -> &[FieldDecl]
    ensures { map field_of result.now ≡ fields_in (option_map (λ d. type_of d.now) decl.entry) }
{
    match decl {
        Some(TypeDecl::Struct { fields, .. }) => fields.as_slice(),
        _ => &[],
    }
}

/// The fields of a type.
pub fn fields_of<'k>(kinds: &'k Kinds<'_>, t: TypeId) -> &'k [FieldDecl]
    ensures { map field_of result.now ≡ e.fields_of (kinds_seen kinds.now) t.0 }
{
    fields_in(kinds.types.get(t.0 as usize))
}

/// The position of the first field of this name.
fn find_field(fields: &[FieldDecl], name: &Name) -> Option<usize>
    ensures { result ≡ position (λ d. bytes_eq (tree.name_of name.now).text d.name)
        (map field_of fields.now) }
{
    for (i, field) in fields.iter().enumerate() {
        if name.text.as_slice() == field.name.as_slice() {
            return Some(i);
        }
    }
    None
}

#[tactic(auto, unfolding(crate::specs::Exprs::field_position))]
pub fn field_position(kinds: &Kinds<'_>, t: TypeId, name: &Name) -> Option<usize>
    ensures { result ≡ e.field_position (kinds_seen kinds.now) t.0 (tree.name_of name.now) }
{
    find_field(fields_of(kinds, t), name)
}

/// The field of this name.
#[tactic(auto, unfolding(crate::specs::Exprs::field_named))]
pub fn field_named<'k>(kinds: &'k Kinds<'_>, t: TypeId, name: &Name) -> Option<&'k FieldDecl>
    ensures { option_map (λ d. field_of d.now) result
        ≡ e.field_named (kinds_seen kinds.now) t.0 (tree.name_of name.now) }
{
    let i = field_position(kinds, t, name)?;
    fields_of(kinds, t).get(i)
}

/// The object whose fields a variable may touch, under its own key or under a guard's.
#[derive(Clone, Copy)]
pub struct Object<'t> {
    pub guarded: bool,
    pub type_id: TypeId,
    pub args: &'t [KeyId],
}

pub fn object_in(ty: &Ty) -> Option<Object<'_>>
    ensures { option_map object_seen result ≡ e.object_in (ty_of ty.now) }
{
    match ty {
        Ty::Key(_, t, args) => Some(Object {
            guarded: false,
            type_id: *t,
            args: args.as_slice(),
        }),
        Ty::Guard(_, t, args) => Some(Object {
            guarded: true,
            type_id: *t,
            args: args.as_slice(),
        }),
        _ => None,
    }
}

fn value_ty(
    alloc: Global,
    args: &[KeyId],
    field: Option<&FieldDecl>,
) -> Result<Option<Ty>, AllocError>
    ensures { IfOk result (λ t. option_map ty_of t
        ≡ e.value_ty (keys_of args.now) (option_map (λ d. field_of d.now) field.entry)) }
{
    match field {
        Some(decl) if !is_owning(&decl.ty) => Ok(Some(ty_under(alloc, args, &decl.ty)?)),
        _ => Ok(None),
    }
}

#[tactic(auto, unfolding(crate::specs::Exprs::object_field_ty))]
fn object_field_ty(
    alloc: Global,
    kinds: &Kinds<'_>,
    object: Object<'_>,
    field: &Name,
) -> Result<Option<Ty>, AllocError>
    ensures { IfOk result (λ t. option_map ty_of t
        ≡ e.object_field_ty (kinds_seen kinds.now) (object_seen object.entry)
        (tree.name_of field.now)) }
{
    let decl = field_named(kinds, object.type_id, field);
    value_ty(alloc, object.args, decl)
}

/// The type of the field, where it may be read.
#[tactic(auto, unfolding(crate::specs::Exprs::field_ty))]
pub fn field_ty(
    alloc: Global,
    kinds: &Kinds<'_>,
    scope: &Scope<'_>,
    base: &Name,
    field: &Name,
) -> Result<Option<Ty>, AllocError>
    ensures { IfOk result (λ t. option_map ty_of t
        ≡ e.field_ty (kinds_seen kinds.now) (scope_seen scope.now) (tree.name_of base.now)
        (tree.name_of field.now)) }
{
    let Some(ty) = scope.var_ty(base.text.as_slice()) else {
        return Ok(None);
    };
    match object_in(ty) {
        None => Ok(None),
        Some(object) => object_field_ty(alloc, kinds, object, field),
    }
}

pub fn copied(alloc: Global, ty: Option<&Ty>) -> Result<Option<Ty>, AllocError>
    ensures { IfOk result (λ t. option_map ty_of t ≡ option_map (λ t. ty_of t.now) ty.entry) }
{
    match ty {
        None => Ok(None),
        Some(ty) => Ok(Some(copy_ty(alloc, ty)?)),
    }
}

/// The type of an expression, as far as names are known.
#[tactic(auto, unfolding(crate::specs::Exprs::type_of))]
pub fn type_of(
    alloc: Global,
    kinds: &Kinds<'_>,
    scope: &Scope<'_>,
    expr: &Expr,
) -> Result<Option<Ty>, AllocError>
    ensures { IfOk result (λ t. option_map ty_of t
        ≡ e.type_of (kinds_seen kinds.now) (scope_seen scope.now) (tree.expr_of expr.now)) }
{
    match expr {
        Expr::Number(..) => Ok(Some(Ty::Int)),
        Expr::True(_) | Expr::False(_) => Ok(Some(Ty::Bool)),
        Expr::Variable(name) => copied(alloc, scope.var_ty(name.text.as_slice())),
        Expr::Field { base, field } => field_ty(alloc, kinds, scope, base, field),
        Expr::Group(inner, _) => type_of(alloc, kinds, scope, inner.get()),
        Expr::Unary { op, .. } => Ok(Some(type_given(*op))),
        Expr::Binary { op, .. } => Ok(Some(type_given(*op))),
    }
}

fn object_type(ty: Option<&Ty>) -> TypeId
    ensures { result.0 ≡ e.object_type (option_map (λ t. ty_of t.now) ty.entry) }
{
    match ty {
        Some(Ty::Key(_, t, _)) => *t,
        Some(Ty::Guard(_, t, _)) => *t,
        _ => TypeId(0),
    }
}

/// The number of a field of this type. An unknown one is 0.
fn number_in(kinds: &Kinds<'_>, t: TypeId, field: &Name) -> Result<u32, AllocError>
    ensures { IfOk result (λ n. n ≡ e.number_of
        (e.field_position (kinds_seen kinds.now) t.0 (tree.name_of field.now))) }
{
    let number = match field_position(kinds, t, field) {
        Some(i) => i,
        None => 0,
    };
    match u32::try_from(number) {
        Ok(n) => Ok(n),
        Err(_) => Err(AllocError),
    }
}

/// The number of a variable that was looked up. An unknown one is 0.
pub fn known_or_first(v: Option<VarId>) -> VarId
    ensures { result.0 ≡ e.number_of (option_map (λ v. v.0) v) }
{
    match v {
        Some(v) => v,
        None => VarId(0),
    }
}

/// The number of a variable. An unknown one is 0.
#[tactic(auto, unfolding(crate::specs::Exprs::var_number))]
pub fn var_number(scope: &Scope<'_>, name: &Name) -> VarId
    ensures { result.0 ≡ e.var_number (scope_seen scope.now) (tree.name_of name.now) }
{
    known_or_first(scope.var_named(name.text.as_slice()))
}

/// The number of a variable, and that of its field. Unknown ones are 0.
#[tactic(auto, unfolding(crate::specs::Exprs::var_number, crate::specs::Exprs::field_number, crate::specs::Scopes::var_ty))]
pub fn field_at(
    kinds: &Kinds<'_>,
    scope: &Scope<'_>,
    base: &Name,
    field: &Name,
) -> Result<(VarId, u32), AllocError>
    ensures variable { IfOk result (λ p. p.0.0
        ≡ e.var_number (scope_seen scope.now) (tree.name_of base.now)) }
    ensures field { IfOk result (λ p. p.1
        ≡ e.field_number (kinds_seen kinds.now) (scope_seen scope.now) (tree.name_of base.now)
        (tree.name_of field.now)) }
{
    let v = scope.var_named(base.text.as_slice());
    let number = number_in(kinds, object_type(scope.ty_at(v)), field)?;
    Ok((known_or_first(v), number))
}

/// What an expression becomes.
pub fn core_expr(
    alloc: Global,
    kinds: &Kinds<'_>,
    scope: &Scope<'_>,
    expr: &Expr,
) -> Result<vlt_core::Expr, AllocError>
    ensures { IfOk result (λ x. expr_of x ≡ e.core_expr (kinds_seen kinds.now)
        (scope_seen scope.now) (tree.expr_of expr.now)) }
{
    match expr {
        Expr::Number(number, _) => Ok(vlt_core::Expr::Number(*number)),
        Expr::True(_) => Ok(vlt_core::Expr::Bool(true)),
        Expr::False(_) => Ok(vlt_core::Expr::Bool(false)),
        Expr::Variable(name) => Ok(vlt_core::Expr::Var(var_number(scope, name))),
        Expr::Field { base, field } => {
            let (x, number) = field_at(kinds, scope, base, field)?;
            Ok(vlt_core::Expr::Field(x, number))
        }
        Expr::Group(inner, _) => core_expr(alloc, kinds, scope, inner.get()),
        Expr::Unary { op, operand, .. } => {
            let a = core_expr(alloc, kinds, scope, operand.get())?;
            let a = Boxed::new(alloc, a)?;
            Ok(vlt_core::Expr::Un(*op, a))
        }
        Expr::Binary { op, operands, .. } => {
            let Operands { left, right } = operands.get();
            let a = core_expr(alloc, kinds, scope, left)?;
            let a = Boxed::new(alloc, a)?;
            let b = core_expr(alloc, kinds, scope, right)?;
            let b = Boxed::new(alloc, b)?;
            Ok(vlt_core::Expr::Bin(*op, a, b))
        }
    }
}

// ---- what is refused

/// Refuses a type that isn't the wanted one. What isn't known fits.
#[tactic(auto, unfolding(crate::specs::Exprs::unfit))]
pub fn check_fit(wanted: &Option<Ty>, given: &Option<Ty>, at: u32, found: &mut LeastRefusal)
    ensures { found.new.least ≡ least_from found.old.least
        (e.unfit (option_map ty_of wanted.now) (option_map ty_of given.now) at) }
{
    match (wanted, given) {
        (Some(w), Some(t)) => {
            found.add_if(!same_ty(w, t), WRONG_TYPE, at);
        }
        _ => {}
    }
}

fn is_basic(ty: &Ty) -> bool
    ensures { result ≡ e.is_basic (ty_of ty.now) }
{
    matches!(ty, Ty::Int | Ty::Bool)
}

#[tactic(auto, unfolding(crate::specs::Exprs::not_basic))]
fn check_basic(ty: &Option<Ty>, at: u32, found: &mut LeastRefusal)
    ensures { found.new.least ≡ least_from found.old.least
        (e.not_basic (option_map ty_of ty.now) at) }
{
    match ty {
        Some(ty) => {
            found.add_if(!is_basic(ty), WRONG_TYPE, at);
        }
        None => {}
    }
}

/// What an operator wants of its second operand.
#[tactic(auto, unfolding(crate::specs::Exprs::operand_wanted))]
fn taken(takes: Takes, left: &Option<Ty>) -> Option<Ty>
    ensures { option_map ty_of result ≡ e.operand_wanted takes (option_map ty_of left.now) }
{
    match takes {
        Takes::Int => Some(Ty::Int),
        Takes::Bool => Some(Ty::Bool),
        Takes::Either => match left {
            Some(Ty::Int) => Some(Ty::Int),
            Some(Ty::Bool) => Some(Ty::Bool),
            _ => None,
        },
    }
}

#[tactic(auto, unfolding(crate::specs::Exprs::left_refused))]
fn check_left(takes: Takes, ty: &Option<Ty>, at: u32, found: &mut LeastRefusal)
    ensures { found.new.least ≡ least_from found.old.least
        (e.left_refused takes (option_map ty_of ty.now) at) }
{
    match takes {
        Takes::Int => check_fit(&Some(Ty::Int), ty, at, found),
        Takes::Bool => check_fit(&Some(Ty::Bool), ty, at, found),
        Takes::Either => check_basic(ty, at, found),
    }
}

/// Refuses a name that no variable in scope has.
#[tactic(auto, unfolding(crate::specs::Refused::unknown_name))]
pub fn check_known(scope: &Scope<'_>, name: &Name, found: &mut LeastRefusal)
    ensures { found.new.least ≡ least_from found.old.least
        (unknown_name (s.var_named (scope_seen scope.now) (tree.name_of name.now).text)
        (tree.name_of name.now)) }
{
    if scope.var_named(name.text.as_slice()).is_none() {
        found.add(UNKNOWN_NAME, name.at.from);
    }
}

/// Refuses a name that no variable in scope has, and gives the type of the one that has it.
#[tactic(auto, unfolding(crate::specs::Refused::unknown_name, crate::specs::Scopes::var_ty))]
fn check_variable(
    alloc: Global,
    scope: &Scope<'_>,
    name: &Name,
    found: &mut LeastRefusal,
) -> Result<Option<Ty>, AllocError>
    ensures refused { OnOk result (found.new.least ≡ least_from found.old.least
        (unknown_name (s.var_named (scope_seen scope.now) (tree.name_of name.now).text)
        (tree.name_of name.now))) }
    ensures gives { IfOk result (λ t. option_map ty_of t
        ≡ s.var_ty (scope_seen scope.now) (tree.name_of name.now).text) }
{
    let v = scope.var_named(name.text.as_slice());
    if v.is_none() {
        found.add(UNKNOWN_NAME, name.at.from);
    }
    copied(alloc, scope.ty_at(v))
}

#[tactic(auto, unfolding(crate::specs::Exprs::guard_refused))]
fn check_guard(
    guarded: bool,
    decl: Option<&TypeDecl>,
    field: &FieldDecl,
    base: &Name,
    found: &mut LeastRefusal,
)
    ensures { found.new.least ≡ least_from found.old.least
        (e.guard_refused guarded (option_map (λ d. type_of d.now) decl.entry) (field_of field.now)
        (tree.name_of base.now)) }
{
    if !guarded {
        return;
    }
    match decl {
        Some(TypeDecl::Struct { release, .. }) => {
            found.add_if(
                !lies_within(*release, field.states),
                GUARDED_FIELD,
                base.at.from,
            );
        }
        _ => {}
    }
}

#[tactic(auto, unfolding(crate::specs::Exprs::owner_refused))]
fn check_owner(field: &FieldDecl, base: &Name, found: &mut LeastRefusal)
    ensures { found.new.least ≡ least_from found.old.least
        (e.owner_refused (field_of field.now) (tree.name_of base.now)) }
{
    found.add_if(is_owning(&field.ty), WRONG_SWAP, base.at.from);
}

#[tactic(auto, using(vlt_kinds_types::proofs::OfNames::Least::least_of_both), unfolding(crate::specs::Exprs::touch_refused))]
fn check_touch(
    guarded: bool,
    decl: Option<&TypeDecl>,
    field: &FieldDecl,
    base: &Name,
    found: &mut LeastRefusal,
)
    ensures { found.new.least ≡ least_from found.old.least
        (e.touch_refused guarded (option_map (λ d. type_of d.now) decl.entry) (field_of field.now)
        (tree.name_of base.now)) }
{
    check_guard(guarded, decl, field, base, found);
    check_owner(field, base, found);
}

fn check_named(
    guarded: bool,
    decl: Option<&TypeDecl>,
    field: Option<&FieldDecl>,
    base: &Name,
    name: &Name,
    found: &mut LeastRefusal,
)
    ensures { found.new.least ≡ least_from found.old.least
        (e.named_refused guarded (option_map (λ d. type_of d.now) decl.entry)
        (option_map (λ d. field_of d.now) field.entry)
        (tree.name_of base.now) (tree.name_of name.now)) }
{
    match field {
        None => found.add(UNKNOWN_NAME, name.at.from),
        Some(field) => check_touch(guarded, decl, field, base, found),
    }
}

#[tactic(auto, unfolding(crate::specs::Exprs::object_field_ty))]
fn check_object(
    alloc: Global,
    kinds: &Kinds<'_>,
    object: Option<Object<'_>>,
    base: &Name,
    field: &Name,
    found: &mut LeastRefusal,
) -> Result<Option<Ty>, AllocError>
    ensures refused { OnOk result (found.new.least ≡ least_from found.old.least
        (e.object_refused (kinds_seen kinds.now) (option_map object_seen object.entry)
        (tree.name_of base.now) (tree.name_of field.now))) }
    ensures gives { IfOk result (λ t. option_map ty_of t
        ≡ then_with (option_map object_seen object.entry)
        (λ o. e.object_field_ty (kinds_seen kinds.now) o (tree.name_of field.now))) }
{
    match object {
        None => {
            found.add(WRONG_TYPE, base.at.from);
            Ok(None)
        }
        Some(object) => {
            let decl = field_named(kinds, object.type_id, field);
            let of = kinds.types.get(object.type_id.0 as usize);
            check_named(object.guarded, of, decl, base, field, found);
            value_ty(alloc, object.args, decl)
        }
    }
}

/// What is refused where a field is read or assigned, and its type where it may be.
#[tactic(auto, unfolding(crate::specs::Exprs::field_refused, crate::specs::Exprs::field_ty))]
pub fn check_field(
    alloc: Global,
    kinds: &Kinds<'_>,
    scope: &Scope<'_>,
    base: &Name,
    field: &Name,
    found: &mut LeastRefusal,
) -> Result<Option<Ty>, AllocError>
    ensures refused { OnOk result (found.new.least ≡ least_from found.old.least
        (e.field_refused (kinds_seen kinds.now) (scope_seen scope.now) (tree.name_of base.now)
        (tree.name_of field.now))) }
    ensures gives { IfOk result (λ t. option_map ty_of t
        ≡ e.field_ty (kinds_seen kinds.now) (scope_seen scope.now) (tree.name_of base.now)
        (tree.name_of field.now)) }
{
    match scope.var_ty(base.text.as_slice()) {
        None => {
            found.add(UNKNOWN_NAME, base.at.from);
            Ok(None)
        }
        Some(ty) => check_object(alloc, kinds, object_in(ty), base, field, found),
    }
}

/// Refuses an operand whose type, which is given, the operator doesn't take.
fn check_unary_given(op: Op, operand: &Expr, given: Option<Ty>, found: &mut LeastRefusal)
    ensures { found.new.least ≡ least_from found.old.least
        (e.unfit (Some (e.type_given op)) (option_map ty_of given)
        (e.expr_place (tree.expr_of operand.now))) }
{
    let wanted = Some(type_given(op));
    check_fit(&wanted, &given, place(operand), found);
}

/// Refuses a first operand whose type, which is given, the operator doesn't take, and gives what is wanted of the second.
fn check_left_given(op: Op, left: &Expr, given: Option<Ty>, found: &mut LeastRefusal) -> Option<Ty>
    ensures refused { found.new.least ≡ least_from found.old.least
        (e.left_refused (row_of op).takes (option_map ty_of given)
        (e.expr_place (tree.expr_of left.now))) }
    ensures wanted { option_map ty_of result
        ≡ e.operand_wanted (row_of op).takes (option_map ty_of given) }
{
    let takes = row(op).takes;
    check_left(takes, &given, place(left), found);
    taken(takes, &given)
}

/// What is refused in an expression, and its type as far as names are known.
#[tactic(auto, unfolding(crate::specs::Exprs::type_of))]
pub fn check_expr(
    alloc: Global,
    kinds: &Kinds<'_>,
    scope: &Scope<'_>,
    expr: &Expr,
    found: &mut LeastRefusal,
) -> Result<Option<Ty>, AllocError>
    ensures refused { OnOk result (found.new.least
        ≡ found_in (kinds_seen kinds.now) (scope_seen scope.now)
        (tree.expr_of expr.now) found.old.least) }
    ensures gives { IfOk result (λ t. option_map ty_of t
        ≡ e.type_of (kinds_seen kinds.now) (scope_seen scope.now) (tree.expr_of expr.now)) }
{
    match expr {
        Expr::Number(..) => Ok(Some(Ty::Int)),
        Expr::True(_) | Expr::False(_) => Ok(Some(Ty::Bool)),
        Expr::Variable(name) => check_variable(alloc, scope, name, found),
        Expr::Field { base, field } => check_field(alloc, kinds, scope, base, field, found),
        Expr::Group(inner, _) => check_expr(alloc, kinds, scope, inner.get(), found),
        Expr::Unary { op, operand, .. } => {
            let given = check_expr(alloc, kinds, scope, operand.get(), found)?;
            check_unary_given(*op, operand.get(), given, found);
            Ok(Some(type_given(*op)))
        }
        Expr::Binary { op, operands, .. } => {
            let Operands { left, right } = operands.get();
            let given = check_expr(alloc, kinds, scope, left, found)?;
            let wanted = check_left_given(*op, left, given, found);
            let following = check_expr(alloc, kinds, scope, right, found)?;
            check_fit(&wanted, &following, place(right), found);
            Ok(Some(type_given(*op)))
        }
    }
}

/// What is refused in an expression of a wanted type.
#[tactic(auto, using(crate::proofs::Operators::found_both), unfolding(crate::specs::Exprs::wanted_refused))]
pub fn check_wanted(
    alloc: Global,
    kinds: &Kinds<'_>,
    scope: &Scope<'_>,
    wanted: &Option<Ty>,
    expr: &Expr,
    found: &mut LeastRefusal,
) -> Result<(), AllocError>
    ensures { OnOk result (found.new.least ≡ least_from found.old.least
        (e.wanted_refused (kinds_seen kinds.now) (scope_seen scope.now)
        (option_map ty_of wanted.now) (tree.expr_of expr.now))) }
{
    let given = check_expr(alloc, kinds, scope, expr, found)?;
    check_fit(wanted, &given, place(expr), found);
    Ok(())
}

/// What is refused in an expression of any type, and its type as far as names are known.
#[tactic(auto, using(crate::proofs::Operators::found_is))]
pub fn check_any(
    alloc: Global,
    kinds: &Kinds<'_>,
    scope: &Scope<'_>,
    expr: &Expr,
    found: &mut LeastRefusal,
) -> Result<Option<Ty>, AllocError>
    ensures refused { OnOk result (found.new.least ≡ least_from found.old.least
        (e.expr_refused (kinds_seen kinds.now) (scope_seen scope.now) (tree.expr_of expr.now))) }
    ensures gives { IfOk result (λ t. option_map ty_of t
        ≡ e.type_of (kinds_seen kinds.now) (scope_seen scope.now) (tree.expr_of expr.now)) }
{
    check_expr(alloc, kinds, scope, expr, found)
}
