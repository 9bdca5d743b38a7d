//! Rows of functions and externals.

ghost use Rattle.std.specs.Prelude.{◌≡◌, ◌≤◌, ℕ, map, option_map, IfOk, [], ◌∷◌, Some, None};
ghost use Rattle.serde_json.specs.View.{view};
ghost use Rattle.cert_rows.specs.Parts.{seven_in, three_of, several, few};
ghost use Rattle.cert_rows.specs.Values as s;
ghost use Rattle.cert_read_decls.specs.Rows.{lists_of, fn_of, name_part, count_part, fn_in};

use crate::lists::{clause, key_decls, var_decls};
use crate::names::{c_name, name};
use crate::types::result_type;
use cert_read_parts::{id, number_u32};
use serde_json::Value;
use std::alloc::{AllocError, Global};
use vlt_base::Items;
use vlt_core::{Entry, KeyDecl, Ty, VarDecl};

/// A function or an external, and how many statements the function has of its own.
#[derive(Drop)]
pub struct FnRow {
    pub name: Items<u8>,
    pub result: Option<Ty>,
    pub params: u32,
    pub lists: FnLists,
    pub count: u32,
}

#[derive(Drop)]
pub struct FnLists {
    pub clause: Items<Entry>,
    pub keys: Items<KeyDecl>,
    pub vars: Items<VarDecl>,
}

/// The parts of a function's row.
#[derive(Drop)]
struct FnParts<'a> {
    name: &'a Value,
    result: &'a Value,
    params: &'a Value,
    clause: &'a Value,
    keys: &'a Value,
    vars: &'a Value,
    count: &'a Value,
}

fn seven<'a>(items: &'a [Value]) -> Option<FnParts<'a>>
    ensures { option_map (λ p. (
      view p.name.now,
      view p.result.now,
      view p.params.now,
      view p.clause.now,
      view p.keys.now,
      view p.vars.now,
      view p.count.now,
    )) result
        ≡ seven_in (map view items.now) }
{
    match items {
        [name, result, params, clause, keys, vars, count] => Some(FnParts {
            name,
            result,
            params,
            clause,
            keys,
            vars,
            count,
        }),
        _ => None,
    }
}

fn fn_lists(
    alloc: Global,
    ordered: bool,
    c: &Value,
    k: &Value,
    v: &Value,
) -> Result<Option<FnLists>, AllocError>
    ensures { IfOk result (λ r. option_map lists_of r
        ≡ three_of (several (s.entry ordered)) (few 256 s.key_decl) (few 256 s.var_decl)
        (Some (view c.now, view k.now, view v.now))) }
{
    let Some(clause) = clause(alloc, ordered, c)? else {
        return Ok(None);
    };
    let Some(keys) = key_decls(alloc, k)? else {
        return Ok(None);
    };
    let Some(vars) = var_decls(alloc, v)? else {
        return Ok(None);
    };
    Ok(Some(FnLists { clause, keys, vars }))
}

fn fn_name(alloc: Global, external: bool, v: &Value) -> Result<Option<Items<u8>>, AllocError>
    ensures { IfOk result (λ r. r ≡ (name_part external).of_data (view v.now)) }
{
    if external {
        c_name(alloc, v)
    } else {
        name(alloc, v)
    }
}

/// How many statements a function has; an external has none.
fn count_of(external: bool, v: &Value) -> Option<u32>
    ensures { result ≡ (count_part external).of_data (view v.now) }
{
    if external { number_u32(v, 0) } else { id(v) }
}

/// The parts of a function's row as they are read, but for the name and the lists.
pub(crate) fn function_row(
    alloc: Global,
    ordered: bool,
    external: bool,
    items: &[Value],
) -> Result<Option<FnRow>, AllocError>
    ensures { IfOk result (λ r. option_map fn_of r
        ≡ fn_in ordered external (map view items.now)) }
{
    let Some(parts) = seven(items) else {
        return Ok(None);
    };
    let Some(params) = number_u32(parts.params, 16) else {
        return Ok(None);
    };
    let Some(count) = count_of(external, parts.count) else {
        return Ok(None);
    };
    let Some(name) = fn_name(alloc, external, parts.name)? else {
        return Ok(None);
    };
    let Some(lists) = fn_lists(alloc, ordered, parts.clause, parts.keys, parts.vars)? else {
        return Ok(None);
    };
    match result_type(alloc, parts.result)? {
        Some(result) => Ok(Some(FnRow {
            name,
            result,
            params,
            lists,
            count,
        })),
        None => Ok(None),
    }
}
