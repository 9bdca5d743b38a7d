//! The rules on heads, and the heads of a file.

ghost use Rattle.std.specs.Prelude.{◌≡◌, ◌≤◌, ◌++◌, ◌∷◌, [], length, map, IfOk, OnOk};
ghost use Rattle.vlt_syntax.specs.View as view;
ghost use Rattle.vlt_syntax.specs.Lists.{Each};
ghost use Rattle.vlt_syntax.specs.Grammar.{IsDecl, language};
ghost use Rattle.vlt_core.specs.View as core_view;
ghost use Rattle.vlt_kinds_types.specs.Names.Refusals.{least_from, found_each};
ghost use Rattle.vlt_kinds_types.specs.Seen.{file_seen, use_seen};
ghost use Rattle.vlt_kinds_heads.specs.Places as p;
ghost use Rattle.vlt_kinds_heads.specs.Keys as k;
ghost use Rattle.vlt_kinds_heads.specs.Heads as h;
ghost use Rattle.vlt_kinds_heads.specs.Phase as q;
ghost use Rattle.vlt_kinds_heads.specs.Seen.{keys_seen};

use crate::binding::{Names, check_names};
use crate::bounds::check_variables;
use crate::clauses::{check_entries, check_main};
use crate::externals::check_external;
use crate::keys::HeadKeys;
use crate::places::{clause_in, head_names, parameter_uses, result_uses};
use indexmap::IndexMap;
use std::alloc::{AllocError, Global};
use vlt_base::Items;
use vlt_core::{Func, TypeDecl};
use vlt_kinds_types::{File, KeyUse, LeastRefusal};
use vlt_syntax::{Decl, Entry, Head, Parameter, ResultType};

fn check_result_type(
    alloc: Global,
    file: &File<'_>,
    result_type: &ResultType,
    found: &mut LeastRefusal,
) -> Result<(), AllocError>
    ensures { OnOk result (found.new.least ≡ least_from found.old.least
        (h.result_type_refused (file_seen file.now) (view.result_type_of result_type.now))) }
{
    match result_type {
        ResultType::Void(_) => Ok(()),
        ResultType::Value(ty) => file.check_type(alloc, ty, found),
    }
}

fn check_parameter_types(
    alloc: Global,
    file: &File<'_>,
    parameters: &[Parameter],
    found: &mut LeastRefusal,
) -> Result<(), AllocError>
    ensures { OnOk result (found.new.least ≡ found_each (h.parameter_refused (file_seen file.now))
        (map view.parameter_of parameters.now) found.old.least) }
{
    for parameter in parameters {
        file.check_type(alloc, &parameter.ty, found)?;
    }
    Ok(())
}

#[tactic(auto, using(vlt_kinds_types::proofs::OfNames::Least::least_of_both, vlt_kinds_types::proofs::OfNames::Least::each_is), unfolding(crate::specs::Heads::types_refused))]
fn check_types(
    alloc: Global,
    file: &File<'_>,
    head: &Head,
    found: &mut LeastRefusal,
) -> Result<(), AllocError>
    ensures { OnOk result (found.new.least ≡ least_from found.old.least
        (h.types_refused (file_seen file.now) (view.head_of head.now))) }
{
    check_result_type(alloc, file, &head.result_type, found)?;
    check_parameter_types(alloc, file, head.parameters.as_slice(), found)?;
    Ok(())
}

#[tactic(auto, using(vlt_kinds_types::proofs::OfNames::Along::along_is))]
fn check_head_names<'a>(
    alloc: Global,
    file: &File<'_>,
    head: &'a Head,
    seen: &mut Names<'a>,
    found: &mut LeastRefusal,
) -> Result<(), AllocError>
    ensures { OnOk result (found.new.least ≡ least_from found.old.least
        (h.names_refused (file_seen file.now).globals
        (p.head_names (file_seen file.now) (view.head_of head.now)))) }
{
    let names = head_names(alloc, file, head)?;
    check_names(&file.globals, names.as_slice(), seen, found)?;
    Ok(())
}

impl<'a> HeadKeys<'a> {
    fn clear(&mut self)
        ensures { keys_seen self.new ≡ [] }
    {
        self.table.clear();
    }

    /// Where the keys of a head stand; those of other heads are forgotten. A key that its clause names another time is refused.
    #[tactic(auto, using(vlt_kinds_types::proofs::OfNames::Along::along_is), unfolding(crate::specs::Heads::clause_again, crate::specs::Keys::places_after))]
    fn note_places(
        &mut self,
        results: &[KeyUse<'a>],
        parameters: &[KeyUse<'a>],
        clause: &'a [Entry],
        found: &mut LeastRefusal,
    ) -> Result<(), AllocError>
        ensures keys { OnOk result (keys_seen self.new
            ≡ k.places_after (map use_seen results.now) (map use_seen parameters.now)
            (map view.entry_of clause.now)) }
        ensures refused { OnOk result (found.new.least ≡ least_from found.old.least
            (h.clause_again (map use_seen results.now) (map use_seen parameters.now)
            (map view.entry_of clause.now))) }
    {
        self.clear();
        self.note_results(results)?;
        self.note_parameters(parameters)?;
        self.check_clause_again(clause, found)?;
        Ok(())
    }

    /// Notes the types of the keys. Another type for one of them in a parameter is refused.
    #[tactic(auto, using(vlt_kinds_types::proofs::OfNames::Along::along_is), unfolding(crate::specs::Heads::typings_refused, crate::specs::Keys::typed_keys))]
    fn note_types(
        &mut self,
        results: &[KeyUse<'a>],
        parameters: &[KeyUse<'a>],
        found: &mut LeastRefusal,
    ) -> Result<(), AllocError>
        ensures keys { OnOk result (keys_seen self.new
            ≡ k.typed_keys (keys_seen self.old) (map use_seen results.now)
            (map use_seen parameters.now)) }
        ensures refused { OnOk result (found.new.least ≡ least_from found.old.least
            (h.typings_refused (keys_seen self.old) (map use_seen results.now)
            (map use_seen parameters.now))) }
    {
        self.note_fresh_types(results)?;
        self.check_parameters(parameters, found)?;
        Ok(())
    }

    #[tactic(auto, using(vlt_kinds_types::proofs::OfNames::Least::least_of_both, vlt_kinds_types::proofs::OfNames::Least::each_is), unfolding(crate::specs::Heads::result_refused))]
    fn check_result(
        &self,
        results: &[KeyUse<'_>],
        found: &mut LeastRefusal,
    ) -> Result<(), AllocError>
        ensures { OnOk result (found.new.least ≡ least_from found.old.least
            (h.result_refused (keys_seen self.now) (map use_seen results.now))) }
    {
        self.check_result_clashes(results, found)?;
        self.check_result_keys(results, found)?;
        Ok(())
    }
}

/// What is known of the head at hand; the tables keep their memory from head to head.
#[derive(Drop)]
struct HeadTables<'a> {
    names: Names<'a>,
    keys: HeadKeys<'a>,
}

/// Notes the keys of a head. What is wrong in it is refused.
#[tactic(auto, using(vlt_kinds_types::proofs::OfNames::Least::least_of_both, vlt_kinds_types::proofs::OfNames::Least::each_is, vlt_kinds_types::proofs::OfNames::Along::along_is), unfolding(crate::specs::Heads::head_refused_by, crate::specs::Keys::keys_after))]
fn check_head_by<'a>(
    alloc: Global,
    file: &File<'_>,
    head: &'a Head,
    results: &[KeyUse<'a>],
    parameters: &[KeyUse<'a>],
    tables: &mut HeadTables<'a>,
    found: &mut LeastRefusal,
) -> Result<(), AllocError>
    ensures keys { OnOk result (keys_seen tables.new.keys
        ≡ k.keys_after (map use_seen results.now) (map use_seen parameters.now)
        (p.clause_in (view.head_of head.now).clause)) }
    ensures refused { OnOk result (found.new.least ≡ least_from found.old.least (h.head_refused_by
        (file_seen file.now) (view.head_of head.now) (map use_seen results.now)
        (map use_seen parameters.now))) }
{
    let clause = clause_in(&head.clause);
    check_types(alloc, file, head, found)?;
    check_head_names(alloc, file, head, &mut tables.names, found)?;
    tables.keys.note_places(results, parameters, clause, found)?;
    tables.keys.note_types(results, parameters, found)?;
    tables.keys.check_result(results, found)?;
    check_entries(alloc, file, &tables.keys, clause, found)?;
    check_variables(
        &file.globals,
        &tables.keys,
        head.parameters.as_slice(),
        clause,
        found,
    );
    check_main(head, found);
    Ok(())
}

fn check_head<'a>(
    alloc: Global,
    file: &File<'_>,
    head: &'a Head,
    tables: &mut HeadTables<'a>,
    found: &mut LeastRefusal,
) -> Result<(), AllocError>
    ensures keys { OnOk result (keys_seen tables.new.keys
        ≡ k.keys_of (file_seen file.now) (view.head_of head.now)) }
    ensures refused { OnOk result (found.new.least ≡ least_from found.old.least
        (h.head_refused (file_seen file.now) (view.head_of head.now))) }
{
    let results = result_uses(alloc, file, &head.result_type)?;
    let parameters = parameter_uses(alloc, file, head.parameters.as_slice())?;
    check_head_by(
        alloc,
        file,
        head,
        results.as_slice(),
        parameters.as_slice(),
        tables,
        found,
    )
}

#[tactic(auto, using(vlt_kinds_types::proofs::OfNames::Least::least_of_both), unfolding(crate::specs::Phase::extern_refused))]
fn check_extern<'a>(
    alloc: Global,
    file: &File<'_>,
    types: &[TypeDecl],
    head: &'a Head,
    tables: &mut HeadTables<'a>,
    found: &mut LeastRefusal,
) -> Result<(), AllocError>
    ensures keys { OnOk result (keys_seen tables.new.keys
        ≡ k.keys_of (file_seen file.now) (view.head_of head.now)) }
    ensures refused { OnOk result (found.new.least ≡ least_from found.old.least
        (q.extern_refused (file_seen file.now) (map core_view.type_of types.now)
        (view.head_of head.now))) }
{
    check_head(alloc, file, head, tables, found)?;
    check_external(file, types, head, &tables.keys, found)?;
    Ok(())
}

/// Adds the head that has these keys.
fn push_head(
    alloc: Global,
    file: &File<'_>,
    external: bool,
    head: &Head,
    keys: &HeadKeys<'_>,
    heads: &mut Items<Func>,
) -> Result<(), AllocError>
    requires { length head.now.parameters ≤ 16 }
    ensures { OnOk result (map core_view.func_of heads.new ≡ map core_view.func_of heads.old
        ++ q.core_head (file_seen file.now) external (view.head_of head.now)
        (keys_seen keys.now) ∷ []) }
{
    heads.push(keys.core_head(alloc, file, external, head)?)
}

/// Adds the head that is declared here, if one is. What is wrong in it is refused.
fn add_head<'a>(
    alloc: Global,
    file: &File<'_>,
    types: &[TypeDecl],
    decl: &'a Decl,
    tables: &mut HeadTables<'a>,
    heads: &mut Items<Func>,
    found: &mut LeastRefusal,
) -> Result<(), AllocError>
    requires { IsDecl language (view.decl_of decl.now) }
    ensures heads { OnOk result (map core_view.func_of heads.new
        ≡ map core_view.func_of heads.old
        ++ q.core_heads_in (file_seen file.now) (view.decl_of decl.now)) }
    ensures refused { OnOk result (found.new.least ≡ least_from found.old.least
        (q.heads_refused_in (file_seen file.now) (map core_view.type_of types.now)
        (view.decl_of decl.now))) }
{
    match decl {
        Decl::Extern { head, .. } => {
            check_extern(alloc, file, types, head, tables, found)?;
            push_head(alloc, file, true, head, &tables.keys, heads)
        }
        Decl::Function { head, .. } => {
            check_head(alloc, file, head, tables, found)?;
            push_head(alloc, file, false, head, &tables.keys, heads)
        }
        _ => Ok(()),
    }
}

fn add_heads(
    alloc: Global,
    file: &File<'_>,
    types: &[TypeDecl],
    decls: &[Decl],
    found: &mut LeastRefusal,
) -> Result<Items<Func>, AllocError>
    requires { Each (IsDecl language) (map view.decl_of decls.now) }
    ensures heads { IfOk result (λ heads. map core_view.func_of heads
        ≡ q.core_heads (file_seen file.now) (map view.decl_of decls.now)) }
    ensures refused { OnOk result (found.new.least
        ≡ found_each (q.heads_refused_in (file_seen file.now) (map core_view.type_of types.now))
        (map view.decl_of decls.now) found.old.least) }
{
    let mut tables = HeadTables {
        names: Names::new(alloc),
        keys: HeadKeys {
            table: IndexMap::new(alloc),
        },
    };
    let mut heads = Items::new(alloc);
    for decl in decls {
        add_head(alloc, file, types, decl, &mut tables, &mut heads, found)?;
    }
    Ok(heads)
}

/// The heads of a file with these declared types. What is wrong in them is refused.
#[tactic(auto, using(vlt_kinds_types::proofs::OfNames::Least::each_is), unfolding(crate::specs::Phase::heads_refused))]
pub fn check_heads(
    alloc: Global,
    file: &File<'_>,
    types: &[TypeDecl],
    decls: &[Decl],
    found: &mut LeastRefusal,
) -> Result<Items<Func>, AllocError>
    requires { Each (IsDecl language) (map view.decl_of decls.now) }
    ensures heads { IfOk result (λ heads. map core_view.func_of heads
        ≡ q.core_heads (file_seen file.now) (map view.decl_of decls.now)) }
    ensures refused { OnOk result (found.new.least ≡ least_from found.old.least (q.heads_refused
        (file_seen file.now) (map core_view.type_of types.now) (map view.decl_of decls.now))) }
{
    let heads = add_heads(alloc, file, types, decls, found)?;
    Ok(heads)
}
