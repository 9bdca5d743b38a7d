//! The declarations of a view, and whose each is.

ghost use Rattle.std.specs.Prelude.{◌≡◌, ◌++◌, ◌∷◌, [], ◌&&◌, not, if◌then◌else◌, map, drop, IfOk, OnOk};
ghost use Rattle.vlt_base.specs.Limits.{limit_of};
ghost use Rattle.vlt_base.specs.declared.limits.TheConstants as limits;
ghost use Rattle.vlt_syntax.specs.View.{decl_of};
ghost use Rattle.vlt_syntax_copies.specs.Raised as r;
ghost use Rattle.vlt_syntax_copies.specs.Shifted as s;
ghost use Rattle.vlt_syntax_copies.specs.Within.{AreWithin};
ghost use Rattle.vlt_iface.specs.declared.places.TheConstants as p;
ghost use Rattle.vlt_iface.specs.View as v;
ghost use Rattle.vlt_iface.specs.Seen.{decls_seen, tree_with, view_seen};
ghost use Rattle.vlt_iface.specs.Given.{Key, given_key, same_key, giver_of, standing, HasGivers, wants, others_by};

use crate::given::Given;
use crate::places::RAISE;
use crate::wanted::{Wanted, wanted_by};
use std::alloc::{AllocError, Global};
use vlt_base::Items;
use vlt_syntax::{Decl, Tree};
use vlt_syntax_copies::shifted_decl;

/// A tree, and for each of its declarations 0 where it is the interface's and 1 where it is the module's.
#[derive(Drop)]
pub struct View {
    pub tree: Tree,
    pub origins: Items<u8>,
}

/// What stands in the place of an interface's declaration.
fn stand_in(alloc: Global, wanted: &Decl, given: &Given<'_>) -> Result<Decl, AllocError>
    ensures { IfOk result (λ d. decl_of d ≡ standing (giver_of given.now) (decl_of wanted.now)) }
{
    match given.giver(wanted) {
        Some(decl) => shifted_decl(alloc, decl, RAISE),
        None => shifted_decl(alloc, wanted, 0),
    }
}

fn add_given(
    alloc: Global,
    wanted: &[Decl],
    given: &Given<'_>,
    made: &mut Items<Decl>,
) -> Result<(), AllocError>
    ensures { OnOk result (map decl_of made.new ≡ map decl_of made.old
        ++ map (standing (giver_of given.now)) (map decl_of wanted.now)) }
{
    for decl in wanted {
        made.push(stand_in(alloc, decl, given)?)?;
    }
    Ok(())
}

/// Adds a declaration of a module, if it isn't in the place of one of the interface's.
fn add_other<'a>(
    alloc: Global,
    wanted: &mut Wanted<'a>,
    decl: &'a Decl,
    made: &mut Items<Decl>,
) -> Result<(), AllocError>
    ensures made { OnOk result (map decl_of made.new ≡ map decl_of made.old
        ++ (if wants wanted.old (given_key (decl_of decl.now)) then []
        else s.shifted p.RAISE (decl_of decl.now) ∷ [])) }
    ensures left { (k : Key) → wants wanted.new k
        ≡ (wants wanted.old k && not (same_key (given_key (decl_of decl.now)) k)) }
{
    if wanted.take(decl) {
        return Ok(());
    }
    made.push(shifted_decl(alloc, decl, RAISE)?)
}

/// Adds the declarations of modules that aren't in the place of one of the interface's.
fn add_others<'a>(
    alloc: Global,
    wanted: &mut Wanted<'a>,
    given: &[&'a Decl],
    made: &mut Items<Decl>,
) -> Result<(), AllocError>
    ensures { OnOk result (map decl_of made.new ≡ map decl_of made.old
        ++ map (s.shifted p.RAISE) (others_by (wants wanted.old) (decls_seen given.now))) }
{
    for decl in given {
        add_other(alloc, wanted, *decl, made)?;
    }
    Ok(())
}

/// The declarations of a view, or of a joined tree.
pub fn view_decls<'a>(
    alloc: Global,
    wanted: &'a [Decl],
    given: &Given<'a>,
) -> Result<Items<Decl>, AllocError>
    requires givers { HasGivers given.now }
    requires places { AreWithin (limit_of limits.SOURCE_BYTES)
        (tree_with (decls_seen given.now.all)) }
    ensures { IfOk result (λ ds. map decl_of ds ≡ v.view_decls (map decl_of wanted.now)
        (map (r.raised p.RAISE) (decls_seen given.now.all))) }
{
    let mut left = wanted_by(alloc, wanted)?;
    let mut made = Items::new(alloc);
    add_given(alloc, wanted, given, &mut made)?;
    add_others(alloc, &mut left, given.all.as_slice(), &mut made)?;
    Ok(made)
}

// ---- whose each declaration is

fn origin(wanted: &Decl, given: &Given<'_>) -> u8
    ensures { result ≡ v.origin_of (giver_of given.now (decl_of wanted.now)) }
{
    match given.giver(wanted) {
        Some(_) => 1,
        None => 0,
    }
}

fn add_origins(
    wanted: &[Decl],
    given: &Given<'_>,
    origins: &mut Items<u8>,
) -> Result<(), AllocError>
    ensures { OnOk result (origins.new ≡ origins.old
        ++ map (λ i. v.origin_of (giver_of given.now i)) (map decl_of wanted.now)) }
{
    for decl in wanted {
        origins.push(origin(decl, given))?;
    }
    Ok(())
}

fn add_ones(others: &[Decl], origins: &mut Items<u8>) -> Result<(), AllocError>
    ensures { OnOk result (origins.new ≡ origins.old ++ map (λ d. 1) (map decl_of others.now)) }
{
    for _other in others {
        origins.push(1)?;
    }
    Ok(())
}

/// The declarations after the first ones.
fn rest_of(decls: &[Decl], count: usize) -> &[Decl]
    ensures { result.now ≡ drop count decls.now }
{
    if count <= decls.len() {
        &decls[count..]
    } else {
        &[]
    }
}

fn view_origins(
    alloc: Global,
    wanted: &[Decl],
    given: &Given<'_>,
    others: &[Decl],
) -> Result<Items<u8>, AllocError>
    ensures { IfOk result (λ os. os ≡ map (λ i. v.origin_of (giver_of given.now i))
        (map decl_of wanted.now) ++ map (λ d. 1) (map decl_of others.now)) }
{
    let mut origins = Items::new(alloc);
    add_origins(wanted, given, &mut origins)?;
    add_ones(others, &mut origins)?;
    Ok(origins)
}

/// The view, whatever is refused in it.
pub fn make_view<'a>(
    alloc: Global,
    wanted: &'a [Decl],
    given: &Given<'a>,
) -> Result<View, AllocError>
    requires givers { HasGivers given.now }
    requires places { AreWithin (limit_of limits.SOURCE_BYTES)
        (tree_with (decls_seen given.now.all)) }
    ensures { IfOk result (λ x. view_seen x ≡ v.viewed (tree_with (map decl_of wanted.now))
        (tree_with (decls_seen given.now.all))) }
{
    let decls = view_decls(alloc, wanted, given)?;
    let others = rest_of(decls.as_slice(), wanted.len());
    let origins = view_origins(alloc, wanted, given, others)?;
    Ok(View {
        tree: Tree { decls },
        origins,
    })
}
