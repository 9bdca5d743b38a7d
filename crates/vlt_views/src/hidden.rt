//! The rule on what stays abstract of an interface: no external that the module itself declares gives it.

ghost use Rattle.std.specs.Prelude.{◌≡◌, map, option_map, slice_get, IfOk, OnOk};
ghost use Rattle.std.specs.List.{list_any};
ghost use Rattle.vlt_syntax.specs.View as view;
ghost use Rattle.vlt_core.specs.View as core_view;
ghost use Rattle.vlt_kinds_types.specs.Names.Refusals.{refuse_if, least_from};
ghost use Rattle.vlt_kinds_types.specs.Files.{type_named, then_with};
ghost use Rattle.vlt_kinds_types.specs.Seen.{file_seen};
ghost use Rattle.vlt_iface.specs.declared.rules.TheConstants.{ABSTRACT_RESULT as ABSTRACT};
ghost use Rattle.vlt_iface.specs.Texts.{texts_seen, has_text, AreTextsOf};
ghost use Rattle.vlt_views.specs.Texts.{Adds};
ghost use Rattle.vlt_views.specs.Hidden as h;

use indexmap::IndexSet;
use std::alloc::{AllocError, Global};
use vlt_core::{CaseDecl, Ty, TypeDecl};
use vlt_iface::rules::ABSTRACT_RESULT;
use vlt_kinds_heads::cases_named;
use vlt_kinds_types::{File, LeastRefusal};
use vlt_syntax::{Decl, Head, Name, Named, ResultType};

// ---- the names of the types that stay abstract

fn add_hidden<'a>(
    origin: u8,
    decl: &'a Decl,
    names: &mut IndexSet<&'a [u8]>,
) -> Result<(), AllocError>
    ensures { OnOk result (Adds (texts_seen names.old.keys)
        (h.hidden_name origin (view.decl_of decl.now)) (texts_seen names.new.keys)) }
{
    if let Decl::Abstract { name, .. } = decl {
        if origin == 0 {
            names.insert(name.text.as_slice())?;
        }
    }
    Ok(())
}

/// The names of the interface's types that stay abstract in the view.
fn hidden_names<'a>(
    alloc: Global,
    decls: &'a [Decl],
    origins: &[u8],
) -> Result<IndexSet<&'a [u8]>, AllocError>
    ensures { IfOk result (λ names. AreTextsOf
        (h.hidden_names origins.now (map view.decl_of decls.now)) (texts_seen names.keys)) }
{
    let mut names = IndexSet::new(alloc);
    for (i, decl) in decls.iter().enumerate() {
        let Some(origin) = origins.get(i) else {
            return Ok(names);
        };
        add_hidden(*origin, decl, &mut names)?;
    }
    Ok(names)
}

// ---- what gives one of them

fn name_of_type(decl: &TypeDecl) -> &[u8]
    ensures { result.now ≡ h.type_name (core_view.type_of decl.now) }
{
    match decl {
        TypeDecl::Abstract { name, .. } => name.as_slice(),
        TypeDecl::Struct { name, .. } => name.as_slice(),
        TypeDecl::Variant { name, .. } => name.as_slice(),
    }
}

fn has(names: &IndexSet<&[u8]>, text: &[u8]) -> bool
    ensures { result ≡ has_text (texts_seen names.now.keys) text.now }
{
    names.contains(&text)
}

fn is_hidden(names: &IndexSet<&[u8]>, decl: Option<&TypeDecl>) -> bool
    ensures { result ≡ h.is_hidden (texts_seen names.now.keys)
        (option_map (λ d. core_view.type_of d.now) decl.entry) }
{
    match decl {
        None => false,
        Some(decl) => has(names, name_of_type(decl)),
    }
}

fn hides(names: &IndexSet<&[u8]>, types: &[TypeDecl], ty: &Ty) -> bool
    ensures { result ≡ h.hides (texts_seen names.now.keys) (map core_view.type_of types.now)
        (core_view.ty_of ty.now) }
{
    match ty {
        Ty::Int | Ty::Bool => false,
        Ty::Key(_, number, _) => is_hidden(names, types.get(number.0 as usize)),
        Ty::Own(_, number, _) => is_hidden(names, types.get(number.0 as usize)),
        Ty::Guard(_, number, _) => is_hidden(names, types.get(number.0 as usize)),
        Ty::Var(number, _) => is_hidden(names, types.get(number.0 as usize)),
        Ty::OwnVar(number, _) => is_hidden(names, types.get(number.0 as usize)),
    }
}

fn case_hides(names: &IndexSet<&[u8]>, types: &[TypeDecl], case: &CaseDecl) -> bool
    ensures { result ≡ h.case_hides (texts_seen names.now.keys)
        (map core_view.type_of types.now) (core_view.case_of case.now) }
{
    for ty in case.payload.as_slice() {
        if hides(names, types, ty) {
            return true;
        }
    }
    false
}

fn some_case_hides(names: &IndexSet<&[u8]>, types: &[TypeDecl], cases: &[CaseDecl]) -> bool
    ensures { result ≡ list_any (h.case_hides (texts_seen names.now.keys)
        (map core_view.type_of types.now)) (map core_view.case_of cases.now) }
{
    for case in cases {
        if case_hides(names, types, case) {
            return true;
        }
    }
    false
}

fn type_of_name<'t>(file: &File<'_>, types: &'t [TypeDecl], name: &Name) -> Option<&'t TypeDecl>
    ensures { option_map (λ d. core_view.type_of d.now) result
        ≡ then_with (type_named (file_seen file.now) (view.name_of name.now))
        (slice_get (map core_view.type_of types.now)) }
{
    let number = file.type_named(name)?;
    types.get(number as usize)
}

/// Whether the type of this name is hidden, or a payload of the variant of this name.
fn named_hides(names: &IndexSet<&[u8]>, file: &File<'_>, types: &[TypeDecl], named: &Named) -> bool
    ensures { result ≡ h.named_hides (texts_seen names.now.keys)
        (map core_view.type_of types.now) (file_seen file.now) (view.named_of named.now) }
{
    is_hidden(names, type_of_name(file, types, &named.name))
        || some_case_hides(names, types, cases_named(file, types, named))
}

fn ty_hides(
    names: &IndexSet<&[u8]>,
    file: &File<'_>,
    types: &[TypeDecl],
    ty: &vlt_syntax::Ty,
) -> bool
    ensures { result ≡ h.ty_hides (texts_seen names.now.keys)
        (map core_view.type_of types.now) (file_seen file.now) (view.ty_of ty.now) }
{
    match ty {
        vlt_syntax::Ty::Int(_) | vlt_syntax::Ty::Bool(_) => false,
        vlt_syntax::Ty::Tracked { named, .. } => named_hides(names, file, types, named),
        vlt_syntax::Ty::Owning { named, .. } => named_hides(names, file, types, named),
        vlt_syntax::Ty::Guarded { named, .. } => named_hides(names, file, types, named),
        vlt_syntax::Ty::Plain(named) => named_hides(names, file, types, named),
    }
}

fn result_hides(
    names: &IndexSet<&[u8]>,
    file: &File<'_>,
    types: &[TypeDecl],
    result_type: &ResultType,
) -> bool
    ensures { result ≡ h.result_hides (texts_seen names.now.keys)
        (map core_view.type_of types.now) (file_seen file.now)
        (view.result_type_of result_type.now) }
{
    match result_type {
        ResultType::Void(_) => false,
        ResultType::Value(ty) => ty_hides(names, file, types, ty),
    }
}

// ---- the rule

fn check_extern(
    names: &IndexSet<&[u8]>,
    file: &File<'_>,
    types: &[TypeDecl],
    head: &Head,
    found: &mut LeastRefusal,
)
    ensures { found.new.least ≡ least_from found.old.least (refuse_if
        (h.result_hides (texts_seen names.now.keys) (map core_view.type_of types.now)
        (file_seen file.now) (view.head_of head.now).result_type)
        ABSTRACT (view.head_of head.now).name.at.from) }
{
    let broken = result_hides(names, file, types, &head.result_type);
    found.add_if(broken, ABSTRACT_RESULT, head.name.at.from);
}

fn check_decl(
    names: &IndexSet<&[u8]>,
    file: &File<'_>,
    types: &[TypeDecl],
    decl: &Decl,
    origin: u8,
    found: &mut LeastRefusal,
)
    ensures { found.new.least ≡ least_from found.old.least (h.own_refused_in
        (texts_seen names.now.keys) (map core_view.type_of types.now) (file_seen file.now) origin
        (view.decl_of decl.now)) }
{
    if let Decl::Extern { head, .. } = decl {
        if origin != 0 {
            check_extern(names, file, types, head, found);
        }
    }
}

fn check_decls(
    names: &IndexSet<&[u8]>,
    file: &File<'_>,
    types: &[TypeDecl],
    decls: &[Decl],
    origins: &[u8],
    found: &mut LeastRefusal,
)
    ensures { found.new.least ≡ least_from found.old.least (h.own_refused
        (texts_seen names.now.keys) (map core_view.type_of types.now) (file_seen file.now)
        origins.now (map view.decl_of decls.now)) }
{
    for (i, decl) in decls.iter().enumerate() {
        let Some(origin) = origins.get(i) else {
            return;
        };
        check_decl(names, file, types, decl, *origin, found);
    }
}

/// Refuses each external of the module itself that gives what stays abstract of the interface. So many origins are looked
/// at as there are declarations, and the other way round.
#[tactic(auto, using(crate::proofs::Alike::own_alike))]
pub fn check_own(
    alloc: Global,
    file: &File<'_>,
    types: &[TypeDecl],
    decls: &[Decl],
    origins: &[u8],
    found: &mut LeastRefusal,
) -> Result<(), AllocError>
    ensures { OnOk result (found.new.least ≡ least_from found.old.least (h.own_refused
        (h.hidden_names origins.now (map view.decl_of decls.now))
        (map core_view.type_of types.now) (file_seen file.now) origins.now
        (map view.decl_of decls.now))) }
{
    let names = hidden_names(alloc, decls, origins)?;
    check_decls(&names, file, types, decls, origins, found);
    Ok(())
}
