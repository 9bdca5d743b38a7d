//! The rules, phase by phase.

ghost use Rattle.std.specs.Prelude.{◌≡◌, ◌<◌, ◌^◌, ◌-◌, Ok, Err, Some, None, map, length, All, IfOk};
ghost use Rattle.vlt_syntax.specs.View as view;
ghost use Rattle.vlt_syntax.specs.Lists.{Each};
ghost use Rattle.vlt_syntax.specs.Grammar.{IsDecl, language};
ghost use Rattle.vlt_core.specs.View as core_view;
ghost use Rattle.vlt_kinds_types.specs.Names.Refusals.{least};
ghost use Rattle.vlt_kinds_decls.specs.Names.{names_refused};
ghost use Rattle.vlt_kinds_types.specs.Files as f;
ghost use Rattle.vlt_kinds_types.specs.Seen.{file_seen, kinds_seen};
ghost use Rattle.vlt_kinds_decls.specs.Decls.{types_refused};
ghost use Rattle.vlt_kinds_decls.specs.Made.{core_types};
ghost use Rattle.vlt_kinds_queries.specs.Known.{HasKnownSet};
ghost use Rattle.vlt_kinds_heads.specs.Phase.{heads_refused, core_heads};
ghost use Rattle.vlt_kinds_queries.specs.Types.{program_with};
ghost use Rattle.vlt_kinds_queries.specs.Marks.{AreMarks};
ghost use Rattle.vlt_kinds.specs.Tables.{names_told, OnRefused};

use crate::error::KindError;
use std::alloc::Global;
use vlt_base::Items;
use vlt_core::{Func, TypeDecl};
use vlt_kinds_decls::{check_names, check_types, core_types};
use vlt_kinds_heads::check_heads;
use vlt_kinds_queries::Declared;
use vlt_kinds_types::{File, Kinds, LeastRefusal, file_of};
use vlt_syntax::Decl;

/// Nothing, unless something was refused.
pub fn told(found: LeastRefusal) -> Result<(), KindError>
    ensures ok { IfOk result (λ _. found.least ≡ None) }
    ensures refused { OnRefused result (λ x. found.least ≡ Some x) }
{
    match found.least {
        None => Ok(()),
        Some(refusal) => Err(KindError::Rule {
            rule: refusal.rule,
            at: refusal.at,
        }),
    }
}

/// What a file declares, where no rule on names refuses it.
fn file_table<'a>(alloc: Global, decls: &'a [Decl]) -> Result<File<'a>, KindError>
    requires language { Each (IsDecl language) (map view.decl_of decls.now) }
    requires few { length decls.now < 2 ^ 32 - 1 }
    ensures file { IfOk result (λ file. file_seen file
        ≡ f.file_of (map view.decl_of decls.now)) }
    ensures ok { IfOk result (λ _. least (names_refused (map view.decl_of decls.now)) ≡ None) }
    ensures refused { OnRefused result (λ x. least (names_refused (map view.decl_of decls.now))
        ≡ Some x) }
{
    let mut found = LeastRefusal { least: None };
    let globals = check_names(alloc, decls, &mut found)?;
    told(found)?;
    let file = file_of(alloc, globals, decls)?;
    Ok(file)
}

/// The declared types, where no rule on them refuses one.
pub fn type_table(
    alloc: Global,
    file: &File<'_>,
    decls: &[Decl],
) -> Result<Items<TypeDecl>, KindError>
    requires { Each (IsDecl language) (map view.decl_of decls.now) }
    ensures types { IfOk result (λ types. map core_view.type_of types
        ≡ core_types (file_seen file.now) (map view.decl_of decls.now)) }
    ensures known { IfOk result (All (HasKnownSet (length file.now.sets))) }
    ensures ok { IfOk result (λ _. least (types_refused (file_seen file.now)
        (map view.decl_of decls.now)) ≡ None) }
    ensures refused { OnRefused result
        (λ x. least (types_refused (file_seen file.now) (map view.decl_of decls.now)) ≡ Some x) }
{
    let mut found = LeastRefusal { least: None };
    check_types(alloc, file, decls, &mut found)?;
    told(found)?;
    let types = core_types(alloc, file, decls)?;
    Ok(types)
}

/// The heads, where no rule on them refuses one.
fn head_table(
    alloc: Global,
    file: &File<'_>,
    types: &[TypeDecl],
    decls: &[Decl],
) -> Result<Items<Func>, KindError>
    requires { Each (IsDecl language) (map view.decl_of decls.now) }
    ensures heads { IfOk result (λ heads. map core_view.func_of heads
        ≡ core_heads (file_seen file.now) (map view.decl_of decls.now)) }
    ensures ok { IfOk result (λ _. least (heads_refused (file_seen file.now)
        (map core_view.type_of types.now) (map view.decl_of decls.now)) ≡ None) }
    ensures refused { OnRefused result (λ x. least (heads_refused (file_seen file.now)
        (map core_view.type_of types.now) (map view.decl_of decls.now)) ≡ Some x) }
{
    let mut found = LeastRefusal { least: None };
    let heads = check_heads(alloc, file, types, decls, &mut found)?;
    told(found)?;
    Ok(heads)
}

/// For each type whether a part is reached from it that no release may reach.
fn type_marks(alloc: Global, file: &File<'_>, types: &[TypeDecl]) -> Result<Items<bool>, KindError>
    requires { All (HasKnownSet (length file.now.sets)) types.now }
    ensures marks { IfOk result (λ marks. AreMarks
        (program_with (map core_view.set_of file.now.sets) (map core_view.type_of types.now))
        marks) }
    ensures refused { OnRefused result (λ _. ⊥) }
{
    let declared = Declared {
        sets: file.sets.as_slice(),
        types,
    };
    let marks = declared.marks(alloc)?;
    Ok(marks)
}

/// The table of a file with these types and heads. `Memory` alone is an error.
pub fn table_of<'a>(
    alloc: Global,
    file: File<'a>,
    types: Items<TypeDecl>,
    heads: Items<Func>,
) -> Result<Kinds<'a>, KindError>
    requires { All (HasKnownSet (length file.sets)) types }
    ensures table { IfOk result (λ kinds. kinds_seen kinds ≡ record {
      file = file_seen file.entry;
      types = map core_view.type_of types;
      heads = map core_view.func_of heads;
    }) }
    ensures refused { OnRefused result (λ _. ⊥) }
{
    let marks = type_marks(alloc, &file, types.as_slice())?;
    Ok(Kinds {
        file,
        types,
        heads,
        marks,
    })
}

/// What a file declares, where no rule refuses it.
#[tactic(auto, using(crate::proofs::Told::types_refuse, crate::proofs::Told::heads_refuse, crate::proofs::Told::nothing_refuses))]
pub fn kinds_of<'a>(alloc: Global, decls: &'a [Decl]) -> Result<Kinds<'a>, KindError>
    requires language { Each (IsDecl language) (map view.decl_of decls.now) }
    requires few { length decls.now < 2 ^ 32 - 1 }
    ensures ok { IfOk result (λ kinds. names_told (map view.decl_of decls.now)
        ≡ Ok (kinds_seen kinds)) }
    ensures refused { OnRefused result (λ r. names_told (map view.decl_of decls.now) ≡ Err r) }
{
    let file = file_table(alloc, decls)?;
    let types = type_table(alloc, &file, decls)?;
    let heads = head_table(alloc, &file, types.as_slice(), decls)?;
    let kinds = table_of(alloc, file, types, heads)?;
    Ok(kinds)
}
