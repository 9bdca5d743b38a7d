//! Heads of functions, with their keys and variables.

ghost use Rattle.std.specs.Prelude.{◌≡◌, [], IfOk};

use crate::copies::copy_bytes;
use std::alloc::{AllocError, Global};
use vlt_base::Items;
use vlt_core::{Func, KeyDecl, Ty, VarDecl};
use vlt_resolve_exprs::copy_ty;

pub fn copy_keys(alloc: Global, keys: &[KeyDecl]) -> Result<Items<KeyDecl>, AllocError>
    ensures { IfOk result (λ ks. ks ≡ keys.now) }
{
    let mut made = Items::new(alloc);
    for key in keys {
        made.push(KeyDecl {
            name: copy_bytes(alloc, &key.name)?,
            key_type: key.key_type,
        })?;
    }
    Ok(made)
}

pub fn copy_vars(alloc: Global, vars: &[VarDecl]) -> Result<Items<VarDecl>, AllocError>
    ensures { IfOk result (λ vs. vs ≡ vars.now) }
{
    let mut made = Items::new(alloc);
    for var in vars {
        made.push(VarDecl {
            name: copy_bytes(alloc, &var.name)?,
            ty: copy_ty(alloc, &var.ty)?,
        })?;
    }
    Ok(made)
}

fn copy_gives(alloc: Global, gives: &Option<Ty>) -> Result<Option<Ty>, AllocError>
    ensures { IfOk result (λ t. t ≡ gives.now) }
{
    match gives {
        None => Ok(None),
        Some(ty) => Ok(Some(copy_ty(alloc, ty)?)),
    }
}

/// A head with other keys and variables, and with this body.
pub fn func_of_head(
    alloc: Global,
    head: &Func,
    keys: Items<KeyDecl>,
    vars: Items<VarDecl>,
    body: Items<vlt_core::Stmt>,
    end: u32,
) -> Result<Func, AllocError>
    ensures { IfOk result (λ f. f ≡ record head.now
        { keys = keys; vars = vars; body = body; end = end }) }
{
    Ok(Func {
        name: copy_bytes(alloc, &head.name)?,
        external: head.external,
        result: copy_gives(alloc, &head.result)?,
        params: head.params,
        clause: Items::from_slice(alloc, head.clause.as_slice())?,
        keys,
        vars,
        body,
        end,
    })
}

/// A head without a body.
pub fn copy_func(alloc: Global, head: &Func) -> Result<Func, AllocError>
    ensures { IfOk result (λ f. f ≡ record head.now { body = [] }) }
{
    let keys = copy_keys(alloc, head.keys.as_slice())?;
    let vars = copy_vars(alloc, head.vars.as_slice())?;
    func_of_head(alloc, head, keys, vars, Items::new(alloc), head.end)
}
