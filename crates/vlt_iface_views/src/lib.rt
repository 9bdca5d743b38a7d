//! Views of interfaces: an interface and a module in, their view out, or the rule or limit that refuses it; so for two modules.
//! Read `vlt_iface/specs/View.antt` first, then `Rules`, `Clash` and `Told` there.
//! Used by: the commands for modules.
#![tactic(auto)]

ghost use Rattle.std.specs.Prelude.{◌≡◌, nat_lt, length, Ok, IfOk, IfErr};
ghost use Rattle.vlt_base.specs.Limits.{limit_of};
ghost use Rattle.vlt_base.specs.declared.limits.TheConstants as limits;
ghost use Rattle.vlt_syntax.specs.View.{tree_of};
ghost use Rattle.vlt_syntax_copies.specs.Within.{AreWithin};
ghost use Rattle.vlt_iface.specs.Told.{view_told, joined_told};
ghost use Rattle.vlt_iface.specs.Seen.{decls_seen, tree_with, view_seen, Tells};
ghost use Rattle.vlt_iface.specs.Given.{HasGivers};
ghost use Rattle.vlt_iface_views.specs.Joined.{joined_of};

mod clash;
mod refused;

use crate::clash::least_clash;
use crate::refused::{refused_bodies, refused_given};
use std::alloc::{AllocError, Global};
use vlt_base::{DECLARATIONS, Items, limit};
use vlt_iface::{Given, IfaceError, View, given_by, make_view, view_decls};
use vlt_syntax::{Decl, Tree};

fn has_too_many(decls: &[Decl]) -> bool
    ensures { result ≡ nat_lt (limit_of limits.DECLARATIONS) (length decls.now) }
{
    decls.len() as u64 > limit(DECLARATIONS)
}

/// The view with the declarations of one module.
fn view_with<'a>(alloc: Global, interface: &'a Tree, given: &Given<'a>) -> Result<View, IfaceError>
    requires givers { HasGivers given.now }
    requires places { AreWithin (limit_of limits.SOURCE_BYTES)
        (tree_with (decls_seen given.now.all)) }
    ensures view { IfOk result (λ x. view_told (tree_of interface.now)
        (tree_with (decls_seen given.now.all)) ≡ Ok (view_seen x)) }
    ensures told { IfErr result (λ e. Tells (view_told (tree_of interface.now)
        (tree_with (decls_seen given.now.all))) e) }
{
    let wanted = interface.decls.as_slice();
    if let Some(found) = refused_bodies(wanted) {
        return Err(IfaceError::Rule {
            rule: found.rule,
            file: 0,
            at: found.at,
        });
    }
    if let Some(found) = refused_given(wanted, given) {
        return Err(IfaceError::Rule {
            rule: found.rule,
            file: 1,
            at: found.at,
        });
    }
    let view = make_view(alloc, wanted, given)?;
    if has_too_many(view.tree.decls.as_slice()) {
        return Err(IfaceError::Limit(DECLARATIONS));
    }
    Ok(view)
}

/// The view of an interface with a module.
///
/// # Errors
///
/// `Rule` with the rule on what is given that refuses, its file and its place there: first a function with a body in the
/// interface, then the least place in the module. Else `Limit` where the view has more declarations than a tree may have.
/// `Memory` where there is too little.
pub fn view_of(alloc: Global, interface: &Tree, module: &Tree) -> Result<View, IfaceError>
    requires places { AreWithin (limit_of limits.SOURCE_BYTES) (tree_of «module».now) }
    ensures view { IfOk result (λ x. view_told (tree_of interface.now) (tree_of «module».now)
        ≡ Ok (view_seen x)) }
    ensures told { IfErr result
        (λ e. Tells (view_told (tree_of interface.now) (tree_of «module».now)) e) }
{
    let given = given_by(alloc, module.decls.as_slice(), &[])?;
    view_with(alloc, interface, &given)
}

/// The joined tree, whatever clashes in it.
fn joined_with<'a>(
    alloc: Global,
    interface: &'a Tree,
    given: &Given<'a>,
) -> Result<Tree, IfaceError>
    requires givers { HasGivers given.now }
    requires places { AreWithin (limit_of limits.SOURCE_BYTES)
        (tree_with (decls_seen given.now.all)) }
    ensures tree { IfOk result (λ t. joined_of (tree_of interface.now)
        (decls_seen given.now.all) ≡ Ok (tree_of t)) }
    ensures told { IfErr result
        (λ e. Tells (joined_of (tree_of interface.now) (decls_seen given.now.all)) e) }
{
    let decls = view_decls(alloc, interface.decls.as_slice(), given)?;
    if has_too_many(decls.as_slice()) {
        return Err(IfaceError::Limit(DECLARATIONS));
    }
    Ok(Tree { decls })
}

/// The joined tree of an interface and two modules, both of which have a view with the interface.
///
/// # Errors
///
/// `Clash` with the least name in the order of bytes that one module declares and the other declares or binds. Else `Limit`
/// where the joined tree has more declarations than a tree may have. `Memory` where there is too little.
#[tactic(auto, using(crate::proofs::Whole::clash_told))]
pub fn join_modules(
    alloc: Global,
    interface: &Tree,
    first: &Tree,
    second: &Tree,
) -> Result<Tree, IfaceError>
    requires first { AreWithin (limit_of limits.SOURCE_BYTES) (tree_of first.now) }
    requires second { AreWithin (limit_of limits.SOURCE_BYTES) (tree_of second.now) }
    ensures tree { IfOk result (λ t.
        joined_told (tree_of interface.now) (tree_of first.now) (tree_of second.now)
        ≡ Ok (tree_of t)) }
    ensures told { IfErr result (λ e.
        Tells (joined_told (tree_of interface.now) (tree_of first.now) (tree_of second.now)) e) }
{
    if let Some(name) = least_clash(alloc, first, second)? {
        return Err(IfaceError::Clash(Items::from_slice(alloc, name)?));
    }
    let given = given_by(alloc, first.decls.as_slice(), second.decls.as_slice())?;
    joined_with(alloc, interface, &given)
}
