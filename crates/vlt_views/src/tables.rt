//! The rules on the declarations of a view, phase by phase.

ghost use Rattle.std.specs.Prelude.{◌≡◌, ◌<◌, ◌^◌, ◌-◌, Ok, Err, Some, None, map, length, IfOk};
ghost use Rattle.vlt_syntax.specs.View as view;
ghost use Rattle.vlt_syntax.specs.Lists.{Each};
ghost use Rattle.vlt_syntax.specs.Grammar.{IsDecl, language};
ghost use Rattle.vlt_core.specs.View as core_view;
ghost use Rattle.vlt_kinds_types.specs.Names.Refusals.{least};
ghost use Rattle.vlt_kinds_decls.specs.Names.{other_names_refused};
ghost use Rattle.vlt_kinds_types.specs.Files as f;
ghost use Rattle.vlt_kinds_types.specs.Seen.{file_seen, kinds_seen};
ghost use Rattle.vlt_kinds_heads.specs.Phase.{core_heads};
ghost use Rattle.vlt_kinds.specs.Tables.{OnRefused};
ghost use Rattle.vlt_views.specs.Views.{view_heads_refused, view_names_told};

use crate::hidden::check_own;
use std::alloc::Global;
use vlt_base::Items;
use vlt_core::{Func, TypeDecl};
use vlt_kinds::KindError;
use vlt_kinds::phases::{table_of, told, type_table};
use vlt_kinds_decls::check_other_names;
use vlt_kinds_heads::check_heads;
use vlt_kinds_types::{File, Kinds, LeastRefusal, file_of};
use vlt_syntax::Decl;

/// What a view declares, where no rule on names refuses it.
fn file_table<'a>(alloc: Global, decls: &'a [Decl]) -> Result<File<'a>, KindError>
    requires language { Each (IsDecl language) (map view.decl_of decls.now) }
    requires few { length decls.now < 2 ^ 32 - 1 }
    ensures file { IfOk result (λ file. file_seen file
        ≡ f.file_of (map view.decl_of decls.now)) }
    ensures ok { IfOk result (λ _. least (other_names_refused (map view.decl_of decls.now))
        ≡ None) }
    ensures refused { OnRefused result (λ x.
        least (other_names_refused (map view.decl_of decls.now)) ≡ Some x) }
{
    let mut found = LeastRefusal { least: None };
    let globals = check_other_names(alloc, decls, &mut found)?;
    told(found)?;
    let file = file_of(alloc, globals, decls)?;
    Ok(file)
}

/// The heads, where no rule on them refuses one.
#[tactic(auto, using(vlt_kinds_types::proofs::OfNames::Least::least_of_both))]
fn head_table(
    alloc: Global,
    file: &File<'_>,
    types: &[TypeDecl],
    decls: &[Decl],
    origins: &[u8],
) -> Result<Items<Func>, KindError>
    requires { Each (IsDecl language) (map view.decl_of decls.now) }
    ensures heads { IfOk result (λ heads. map core_view.func_of heads
        ≡ core_heads (file_seen file.now) (map view.decl_of decls.now)) }
    ensures ok { IfOk result (λ _. least (view_heads_refused (file_seen file.now)
        (map core_view.type_of types.now) origins.now (map view.decl_of decls.now)) ≡ None) }
    ensures refused { OnRefused result (λ x. least (view_heads_refused (file_seen file.now)
        (map core_view.type_of types.now) origins.now (map view.decl_of decls.now)) ≡ Some x) }
{
    let mut found = LeastRefusal { least: None };
    let heads = check_heads(alloc, file, types, decls, &mut found)?;
    check_own(alloc, file, types, decls, origins, &mut found)?;
    told(found)?;
    Ok(heads)
}

/// What a view declares, where no rule refuses it.
#[tactic(auto, using(crate::proofs::Told::types_refuse, crate::proofs::Told::heads_refuse, crate::proofs::Told::nothing_refuses))]
pub fn kinds_of<'a>(
    alloc: Global,
    decls: &'a [Decl],
    origins: &[u8],
) -> Result<Kinds<'a>, KindError>
    requires language { Each (IsDecl language) (map view.decl_of decls.now) }
    requires few { length decls.now < 2 ^ 32 - 1 }
    ensures ok { IfOk result (λ kinds. view_names_told origins.now (map view.decl_of decls.now)
        ≡ Ok (kinds_seen kinds)) }
    ensures refused { OnRefused result (λ r.
        view_names_told origins.now (map view.decl_of decls.now) ≡ Err r) }
{
    let file = file_table(alloc, decls)?;
    let types = type_table(alloc, &file, decls)?;
    let heads = head_table(alloc, &file, types.as_slice(), decls, origins)?;
    let kinds = table_of(alloc, file, types, heads)?;
    Ok(kinds)
}
