//! What is in scope again after a block.

ghost use Rattle.std.specs.Prelude.{◌≡◌, IfOk};
ghost use Rattle.vlt_core.specs.KindedScopes as s;
ghost use Rattle.cert_kinds_exprs.specs.Scopes.{ids_of};
ghost use Rattle.cert_kinds_blocks.specs.Covered as z;

use cert_kinds_exprs::Ids;
use std::alloc::{AllocError, Global};
use vlt_base::{Items, KeyId, VarId};
use vlt_core::Tok;

/// The variables and the keys in scope at a point, and the tokens that the block at hand bound.
#[derive(Drop)]
pub struct Outer {
    pub vars: Items<VarId>,
    pub keys: Items<KeyId>,
    pub bound: Items<Tok>,
}

/// What is in scope at a point. An error is a refused allocation.
pub fn remember(alloc: Global, ids: &Ids) -> Result<Outer, AllocError>
    ensures { IfOk result (λ x. z.Remembers x (ids_of ids.now)) }
{
    let vars = Items::from_slice(alloc, ids.vars.as_slice())?;
    let keys = Items::from_slice(alloc, ids.keys.as_slice())?;
    let bound = Items::from_slice(alloc, ids.bound.as_slice())?;
    Ok(Outer { vars, keys, bound })
}

/// A block begins, which has bound no token yet.
pub fn begin_block(alloc: Global, ids: &mut Ids)
    ensures { ids_of ids.new ≡ s.at_block_start (ids_of ids.old) }
{
    ids.bound = Items::new(alloc);
}

/// What was in scope is so again.
pub fn leave(ids: &mut Ids, outer: Outer)
    ensures { ids_of ids.new ≡ z.left_with outer (ids_of ids.old) }
{
    ids.vars = outer.vars;
    ids.keys = outer.keys;
    ids.bound = outer.bound;
}
