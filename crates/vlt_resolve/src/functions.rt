//! Functions in the order of the text.

ghost use Rattle.std.specs.Prelude.{◌≡◌, ◌++◌, map, true, Some, None, Ok, Err, IfOk, OnOk};
ghost use Rattle.vlt_syntax.specs.View as tree;
ghost use Rattle.vlt_core.specs.View.{func_of, stmt_of};
ghost use Rattle.vlt_kinds_types.specs.Names.Refusals.{least};
ghost use Rattle.vlt_kinds_types.specs.Seen.{kinds_seen};
ghost use Rattle.vlt_resolve_parts.specs.Refusals.{OnRefused};
ghost use Rattle.vlt_elaboration.specs.Elaboration as e;

use crate::walk::walk_stmts;
use std::alloc::Global;
use vlt_base::Items;
use vlt_core::Func;
use vlt_kinds_types::{Kinds, LeastRefusal};
use vlt_resolve_bodies::{
    add_last, body_scope, check_end, check_head, closing, copy_func, declared_in, func_of_head,
};
use vlt_resolve_parts::{Stop, passed};
use vlt_resolve_stmts::Around;
use vlt_syntax::{Block, Decl};

fn head_passes(head: &Func, at: u32) -> Result<(), Stop>
    ensures ok { OnOk result (least (e.head_refused (func_of head.now) at) ≡ None) }
    ensures refused { OnRefused result (λ r. least (e.head_refused (func_of head.now) at)
        ≡ Some r) }
{
    let mut found = LeastRefusal { least: None };
    check_head(head, at, &mut found);
    passed(found)
}

fn end_passes(head: &Func, body: &Block) -> Result<(), Stop>
    ensures ok { OnOk result (least (e.end_refused (func_of head.now) (tree.block_of body.now))
        ≡ None) }
    ensures refused { OnRefused result (λ r.
        least (e.end_refused (func_of head.now) (tree.block_of body.now)) ≡ Some r) }
{
    let mut found = LeastRefusal { least: None };
    check_end(head, body, &mut found);
    passed(found)
}

/// The statements of a body up to its closing brace, where it ends as its head wants.
fn finished(
    head: &Func,
    body: &Block,
    stmts: Items<vlt_core::Stmt>,
) -> Result<Items<vlt_core::Stmt>, Stop>
    ensures ok { IfOk result (λ r.
        (least (e.end_refused (func_of head.now) (tree.block_of body.now)) ≡ None) ×
        (map stmt_of r ≡ map stmt_of stmts ++ e.last_return (tree.block_of body.now))) }
    ensures refused { OnRefused result (λ r.
        least (e.end_refused (func_of head.now) (tree.block_of body.now)) ≡ Some r) }
{
    end_passes(head, body)?;
    let mut stmts = stmts;
    add_last(body, &mut stmts)?;
    Ok(stmts)
}

fn walk_body(alloc: Global, kinds: &Kinds<'_>, head: &Func, body: &Block) -> Result<Func, Stop>
    ensures ok { IfOk result (λ f. e.walk_body (kinds_seen kinds.now) (func_of head.now)
        (tree.block_of body.now) ≡ Ok (func_of f)) }
    ensures refused { OnRefused result (λ r. e.walk_body (kinds_seen kinds.now) (func_of head.now)
        (tree.block_of body.now) ≡ Err r) }
{
    let mut scope = body_scope(alloc, head)?;
    let around = Around {
        head,
        in_loop: false,
        in_focus: false,
    };
    let stmts = walk_stmts(alloc, kinds, around, &mut scope, body.stmts.as_slice())?;
    let stmts = finished(head, body, stmts)?;
    let (keys, vars) = declared_in(scope);
    let made = func_of_head(alloc, head, keys, vars, stmts, closing(body))?;
    Ok(made)
}

fn walk_extern(alloc: Global, head: &Func, at: u32) -> Result<Func, Stop>
    ensures ok { IfOk result (λ f. e.walk_extern (func_of head.now) at ≡ Ok (func_of f)) }
    ensures refused { OnRefused result (λ r. e.walk_extern (func_of head.now) at ≡ Err r) }
{
    head_passes(head, at)?;
    let made = copy_func(alloc, head)?;
    Ok(made)
}

fn walk_defined(
    alloc: Global,
    kinds: &Kinds<'_>,
    head: &Func,
    body: &Block,
    at: u32,
) -> Result<Func, Stop>
    ensures ok { IfOk result (λ f. e.walk_defined (kinds_seen kinds.now) (func_of head.now)
        (tree.block_of body.now) at ≡ Ok (func_of f)) }
    ensures refused { OnRefused result (λ r.
        e.walk_defined (kinds_seen kinds.now) (func_of head.now) (tree.block_of body.now) at
        ≡ Err r) }
{
    head_passes(head, at)?;
    walk_body(alloc, kinds, head, body)
}

fn walk_function(alloc: Global, kinds: &Kinds<'_>, head: &Func, decl: &Decl) -> Result<Func, Stop>
    requires { e.is_function (tree.decl_of decl.now) ≡ true }
    ensures ok { IfOk result (λ f. e.walk_function (kinds_seen kinds.now) (func_of head.now)
        (tree.decl_of decl.now) ≡ Ok (func_of f)) }
    ensures refused { OnRefused result (λ r.
        e.walk_function (kinds_seen kinds.now) (func_of head.now) (tree.decl_of decl.now)
        ≡ Err r) }
{
    match decl {
        Decl::Function { body, at, .. } => walk_defined(alloc, kinds, head, body, at.from),
        Decl::Extern { at, .. } => walk_extern(alloc, head, at.from),
        _ => unreachable!(),
    }
}

fn is_function(decl: &Decl) -> bool
    ensures { result ≡ e.is_function (tree.decl_of decl.now) }
{
    matches!(decl, Decl::Function { .. } | Decl::Extern { .. })
}

/// The functions in the order of the text.
pub fn walk_decls(alloc: Global, kinds: &Kinds<'_>, decls: &[Decl]) -> Result<Items<Func>, Stop>
    ensures ok { IfOk result (λ fs. e.walk_decls (kinds_seen kinds.now)
        (map func_of kinds.now.heads) (map tree.decl_of decls.now) ≡ Ok (map func_of fs)) }
    ensures refused { OnRefused result (λ r.
        e.walk_decls (kinds_seen kinds.now) (map func_of kinds.now.heads)
        (map tree.decl_of decls.now) ≡ Err r) }
{
    let heads = kinds.heads.as_slice();
    let mut made = Items::new(alloc);
    for decl in decls {
        let Some(head) = heads.get(made.len()) else {
            return Ok(made);
        };
        if !is_function(decl) {
            continue;
        }
        let function = walk_function(alloc, kinds, head, decl)?;
        made.push(function)?;
    }
    Ok(made)
}

// ---- main
