//! The rule on heads of externals.

ghost use Rattle.std.specs.Prelude.{◌≡◌, ◌==◌, map, option_map, length, IfOk, OnOk};
ghost use Rattle.std.specs.List.{list_any, list_all};
ghost use Rattle.vlt_syntax.specs.View as view;
ghost use Rattle.vlt_core.specs.View as core_view;
ghost use Rattle.vlt_core.specs.Types as core_types;
ghost use Rattle.vlt_core.specs.Lookups as l;
ghost use Rattle.vlt_kinds_types.specs.Types as t;
ghost use Rattle.vlt_kinds_types.specs.Names.Along.{found_along};
ghost use Rattle.vlt_kinds_types.specs.Names.Refusals.{least_from, found_each};
ghost use Rattle.vlt_kinds_types.specs.Seen.{file_seen};
ghost use Rattle.vlt_kinds_heads.specs.Externals as e;
ghost use Rattle.vlt_kinds_heads.specs.Seen.{keys_seen};

use crate::keys::HeadKeys;
use crate::places::{clause_in, entry_key, is_fresh};
use std::alloc::AllocError;
use vlt_base::StateSet;
use vlt_core::{CaseDecl, Ty, TypeDecl, rules};
use vlt_kinds_types::{File, LeastRefusal, Shape, Sort, sort_in, ty_place};
use vlt_syntax::{Entry, Head, Name, Named, Parameter, ResultType};

fn is_wrong_parameter(ty: &vlt_syntax::Ty, sort: Option<Sort>) -> bool
    ensures { result ≡ e.is_wrong_parameter (view.ty_of ty.now) sort }
{
    match (ty, sort) {
        (vlt_syntax::Ty::Owning { .. }, Some(sort)) => sort.is_variant(),
        (vlt_syntax::Ty::Plain(_), Some(sort)) => sort.is_variant(),
        _ => false,
    }
}

#[tactic(auto, unfolding(crate::specs::Externals::host_parameter_refused))]
fn check_parameter(file: &File<'_>, parameter: &Parameter, found: &mut LeastRefusal)
    ensures { found.new.least ≡ least_from found.old.least
        (e.host_parameter_refused (file_seen file.now) (view.parameter_of parameter.now)) }
{
    let ty = &parameter.ty;
    let broken = is_wrong_parameter(ty, sort_in(file.shape_in(ty)));
    found.add_if(broken, rules::EXTERN_HEAD, ty_place(ty));
}

fn check_parameters(file: &File<'_>, parameters: &[Parameter], found: &mut LeastRefusal)
    ensures { found.new.least ≡ found_each (e.host_parameter_refused (file_seen file.now))
        (map view.parameter_of parameters.now) found.old.least }
{
    for parameter in parameters {
        check_parameter(file, parameter, found);
    }
}

// ---- results

fn is_abstract(decl: Option<&TypeDecl>) -> bool
    ensures { result ≡ core_types.is_abstract
        (option_map (λ d. core_view.type_of d.now) decl.entry) }
{
    matches!(decl, Some(TypeDecl::Abstract { .. }))
}

fn is_host_payload(types: &[TypeDecl], ty: &Ty) -> bool
    ensures { result ≡ e.is_host_payload (map core_view.type_of types.now)
        (core_view.ty_of ty.now) }
{
    match ty {
        Ty::Int | Ty::Bool => true,
        Ty::Own(_, number, _) => is_abstract(types.get(number.0 as usize)),
        _ => false,
    }
}

fn are_host_payload(types: &[TypeDecl], payload: &[Ty]) -> bool
    ensures { result ≡ list_all (e.is_host_payload (map core_view.type_of types.now))
        (map core_view.ty_of payload.now) }
{
    for ty in payload {
        if !is_host_payload(types, ty) {
            return false;
        }
    }
    true
}

fn has_host_payloads(types: &[TypeDecl], cases: &[CaseDecl]) -> bool
    ensures { result
        ≡ list_all (e.has_host_payload (map core_view.type_of types.now))
        (map core_view.case_of cases.now) }
{
    for case in cases {
        if !are_host_payload(types, case.payload.as_slice()) {
            return false;
        }
    }
    true
}

fn cases_in(decl: Option<&TypeDecl>) -> &[CaseDecl]
    ensures { map core_view.case_of result.now
        ≡ l.cases_in (option_map (λ d. core_view.type_of d.now) decl.entry) }
{
    match decl {
        Some(TypeDecl::Variant { cases, .. }) => cases.as_slice(),
        _ => &[],
    }
}

/// The cases of the variant of this name; none where the name is no variant's.
#[tactic(auto, unfolding(crate::specs::Externals::cases_named))]
pub fn cases_named<'a>(file: &File<'_>, types: &'a [TypeDecl], named: &Named) -> &'a [CaseDecl]
    ensures { map core_view.case_of result.now
        ≡ e.cases_named (file_seen file.now) (map core_view.type_of types.now)
        (view.named_of named.now) }
{
    match file.type_named(&named.name) {
        None => &[],
        Some(number) => cases_in(types.get(number as usize)),
    }
}

fn is_no_abstract(sort: Option<Sort>) -> bool
    ensures { result ≡ e.is_no_abstract sort }
{
    match sort {
        None | Some(Sort::Abstract) => false,
        Some(_) => true,
    }
}

fn is_struct(sort: Option<Sort>) -> bool
    ensures { result ≡ e.is_struct sort }
{
    matches!(sort, Some(Sort::Struct))
}

#[tactic(auto, unfolding(crate::specs::Externals::is_wrong_variant))]
fn is_wrong_variant(file: &File<'_>, types: &[TypeDecl], named: &Named) -> bool
    ensures { result
        ≡ e.is_wrong_variant (file_seen file.now) (map core_view.type_of types.now)
        (view.named_of named.now) }
{
    !has_host_payloads(types, cases_named(file, types, named))
}

fn is_wrong_result(
    file: &File<'_>,
    types: &[TypeDecl],
    keys: &HeadKeys<'_>,
    ty: &vlt_syntax::Ty,
) -> Result<bool, AllocError>
    ensures { IfOk result (λ wrong. wrong ≡ e.is_wrong_result (file_seen file.now)
        (map core_view.type_of types.now) (keys_seen keys.now) (view.ty_of ty.now)) }
{
    match ty {
        vlt_syntax::Ty::Int(_) | vlt_syntax::Ty::Bool(_) => Ok(false),
        vlt_syntax::Ty::Tracked { key, named, .. } => {
            let facts = keys.facts_of(key.text.as_slice())?;
            Ok(!facts.is_fresh || is_no_abstract(sort_in(file.shape_named(&named.name))))
        }
        vlt_syntax::Ty::Owning { named, .. } => {
            let sort = sort_in(file.shape_named(&named.name));
            Ok(is_struct(sort) || is_wrong_variant(file, types, named))
        }
        vlt_syntax::Ty::Guarded { .. } => Ok(true),
        vlt_syntax::Ty::Plain(named) => Ok(is_wrong_variant(file, types, named)),
    }
}

// ---- the keys that a case of the result lists

fn lists_position_in(keys: &[(u32, StateSet)], position: u32) -> bool
    ensures { result ≡ list_any (λ k. k.position == position)
        (map core_view.case_key_of keys.now) }
{
    for key in keys {
        if key.0 == position {
            return true;
        }
    }
    false
}

fn lists_position(cases: &[CaseDecl], position: u32) -> bool
    ensures { result ≡ e.lists_position (map core_view.case_of cases.now) position }
{
    for case in cases {
        if lists_position_in(case.keys.as_slice(), position) {
            return true;
        }
    }
    false
}

impl HeadKeys<'_> {
    #[tactic(auto, unfolding(crate::specs::Externals::case_argument_refused))]
    fn check_case_argument(
        &self,
        cases: &[CaseDecl],
        position: u32,
        key: &Name,
        found: &mut LeastRefusal,
    ) -> Result<(), AllocError>
        ensures { OnOk result (found.new.least
            ≡ least_from found.old.least (e.case_argument_refused (keys_seen self.now)
            (map core_view.case_of cases.now) position (view.name_of key.now))) }
    {
        let facts = self.facts_of(key.text.as_slice())?;
        let broken = lists_position(cases, position) && !facts.is_tracked_parameter;
        found.add_if(broken, rules::EXTERN_HEAD, key.at.from);
        Ok(())
    }

    fn check_case_arguments(
        &self,
        cases: &[CaseDecl],
        args: &[Name],
        found: &mut LeastRefusal,
    ) -> Result<(), AllocError>
        ensures { OnOk result (found.new.least
            ≡ found_along e.next_position (e.case_argument_refused (keys_seen self.now)
            (map core_view.case_of cases.now)) 0 (view.names_of args.now) found.old.least) }
    {
        for (i, key) in args.iter().enumerate() {
            let Ok(position) = u32::try_from(i) else {
                return Err(AllocError);
            };
            self.check_case_argument(cases, position, key, found)?;
        }
        Ok(())
    }

    #[tactic(auto, unfolding(crate::specs::Externals::host_entry_refused))]
    fn check_host_entry(&self, entry: &Entry, found: &mut LeastRefusal) -> Result<(), AllocError>
        ensures { OnOk result (found.new.least ≡ least_from found.old.least
            (e.host_entry_refused (keys_seen self.now) (view.entry_of entry.now))) }
    {
        let key = entry_key(entry);
        let facts = self.facts_of(key.text.as_slice())?;
        let broken = !(is_fresh(entry) || facts.is_tracked_parameter);
        found.add_if(broken, rules::EXTERN_HEAD, key.at.from);
        Ok(())
    }

    fn check_host_entries(
        &self,
        clause: &[Entry],
        found: &mut LeastRefusal,
    ) -> Result<(), AllocError>
        ensures { OnOk result (found.new.least
            ≡ found_each (e.host_entry_refused (keys_seen self.now))
            (map view.entry_of clause.now) found.old.least) }
    {
        for entry in clause {
            self.check_host_entry(entry, found)?;
        }
        Ok(())
    }
}

#[tactic(auto, using(vlt_kinds_types::proofs::OfNames::Along::along_is), unfolding(crate::specs::Externals::fitting_refused))]
fn check_fitting(
    file: &File<'_>,
    types: &[TypeDecl],
    keys: &HeadKeys<'_>,
    named: &Named,
    found: &mut LeastRefusal,
) -> Result<(), AllocError>
    ensures { OnOk result (found.new.least ≡ least_from found.old.least
        (e.fitting_refused (file_seen file.now) (map core_view.type_of types.now)
        (keys_seen keys.now) (view.named_of named.now))) }
{
    let cases = cases_named(file, types, named);
    keys.check_case_arguments(cases, named.keys.as_slice(), found)?;
    Ok(())
}

#[tactic(auto, unfolding(crate::specs::Externals::arguments_refused))]
fn check_arguments(
    file: &File<'_>,
    types: &[TypeDecl],
    keys: &HeadKeys<'_>,
    named: &Named,
    found: &mut LeastRefusal,
) -> Result<(), AllocError>
    ensures { OnOk result (found.new.least ≡ least_from found.old.least
        (e.arguments_refused (file_seen file.now) (map core_view.type_of types.now)
        (keys_seen keys.now) (view.named_of named.now))) }
{
    if named.keys.len() == header_len(file.shape_named(&named.name)) {
        check_fitting(file, types, keys, named, found)
    } else {
        Ok(())
    }
}

fn header_len(shape: Option<&Shape>) -> usize
    ensures { result ≡ length (t.header_in (option_map (λ s. s.now) shape.entry)) }
{
    match shape {
        None => 0,
        Some(shape) => shape.header.len(),
    }
}

fn check_result_arguments(
    file: &File<'_>,
    types: &[TypeDecl],
    keys: &HeadKeys<'_>,
    ty: &vlt_syntax::Ty,
    found: &mut LeastRefusal,
) -> Result<(), AllocError>
    ensures { OnOk result (found.new.least ≡ least_from found.old.least
        (e.result_arguments_refused (file_seen file.now) (map core_view.type_of types.now)
        (keys_seen keys.now) (view.ty_of ty.now))) }
{
    match ty {
        vlt_syntax::Ty::Owning { named, .. } => check_arguments(file, types, keys, named, found),
        vlt_syntax::Ty::Plain(named) => check_arguments(file, types, keys, named, found),
        _ => Ok(()),
    }
}

#[tactic(auto, using(vlt_kinds_types::proofs::OfNames::Least::least_of_both), unfolding(crate::specs::Externals::host_ty_refused))]
fn check_host_type(
    file: &File<'_>,
    types: &[TypeDecl],
    keys: &HeadKeys<'_>,
    ty: &vlt_syntax::Ty,
    found: &mut LeastRefusal,
) -> Result<(), AllocError>
    ensures { OnOk result (found.new.least ≡ least_from found.old.least
        (e.host_ty_refused (file_seen file.now) (map core_view.type_of types.now)
        (keys_seen keys.now) (view.ty_of ty.now))) }
{
    let broken = is_wrong_result(file, types, keys, ty)?;
    found.add_if(broken, rules::EXTERN_HEAD, ty_place(ty));
    check_result_arguments(file, types, keys, ty, found)?;
    Ok(())
}

fn check_host_result(
    file: &File<'_>,
    types: &[TypeDecl],
    keys: &HeadKeys<'_>,
    result_type: &ResultType,
    found: &mut LeastRefusal,
) -> Result<(), AllocError>
    ensures { OnOk result (found.new.least ≡ least_from found.old.least
        (e.host_result_refused (file_seen file.now) (map core_view.type_of types.now)
        (keys_seen keys.now) (view.result_type_of result_type.now))) }
{
    match result_type {
        ResultType::Void(_) => Ok(()),
        ResultType::Value(ty) => check_host_type(file, types, keys, ty, found),
    }
}

/// Refuses what no host gives or takes.
#[tactic(auto, using(vlt_kinds_types::proofs::OfNames::Least::least_of_both, vlt_kinds_types::proofs::OfNames::Least::each_is), unfolding(crate::specs::Externals::external_refused))]
pub fn check_external(
    file: &File<'_>,
    types: &[TypeDecl],
    head: &Head,
    keys: &HeadKeys<'_>,
    found: &mut LeastRefusal,
) -> Result<(), AllocError>
    ensures { OnOk result (found.new.least ≡ least_from found.old.least
        (e.external_refused (file_seen file.now) (map core_view.type_of types.now)
        (view.head_of head.now) (keys_seen keys.now))) }
{
    check_parameters(file, head.parameters.as_slice(), found);
    check_host_result(file, types, keys, &head.result_type, found)?;
    keys.check_host_entries(clause_in(&head.clause), found)?;
    Ok(())
}
