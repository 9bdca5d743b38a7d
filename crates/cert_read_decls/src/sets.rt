//! Rows of sets of states.

ghost use Rattle.std.specs.Prelude.{◌≡◌, ◌≤◌, ℕ, map, option_map, IfOk, [], ◌∷◌, Some, None};
ghost use Rattle.serde_json.specs.View.{view};
ghost use Rattle.vlt_core.specs.View.{set_of};
ghost use Rattle.cert_rows.specs.Rows.{names, has_own_links, plain_set_fields, linked_set_fields, set_fields};
ghost use Rattle.cert_read_decls.specs.Rows.{names_of, are_own, set_parts};

use crate::lists::{links, texts};
use crate::names::name;
use cert_read_parts::{three, two};
use serde_json::Value;
use std::alloc::{AllocError, Global};
use vlt_base::Items;
use vlt_core::{Link, SetDecl};

/// The names of a set's states.
fn state_names(alloc: Global, v: &Value) -> Result<Option<Items<Items<u8>>>, AllocError>
    ensures { IfOk result (λ r. option_map names_of r ≡ names.of_data (view v.now)) }
{
    let Some(list) = texts(alloc, v)? else {
        return Ok(None);
    };
    if list.len() == 0 {
        Ok(None)
    } else {
        Ok(Some(list))
    }
}

fn plain_set(alloc: Global, items: &[Value]) -> Result<Option<SetDecl>, AllocError>
    ensures { IfOk result (λ r. option_map set_of r
        ≡ plain_set_fields.of_items (map view items.now)) }
{
    let Some((n, states)) = two(items) else {
        return Ok(None);
    };
    let Some(name) = name(alloc, n)? else {
        return Ok(None);
    };
    let Some(states) = state_names(alloc, states)? else {
        return Ok(None);
    };
    Ok(Some(SetDecl {
        name,
        states,
        links: Items::new(alloc),
    }))
}

/// The links are of states of the set.
fn are_within(count: usize, links: &[Link]) -> bool
    ensures { result ≡ are_own count links.now }
{
    for l in links {
        if l.lower as usize >= count || l.upper as usize >= count {
            return false;
        }
    }
    true
}

fn linked_parts(alloc: Global, items: &[Value]) -> Result<Option<SetDecl>, AllocError>
    ensures { IfOk result (λ r. option_map set_of r
        ≡ set_parts.of_items (map view items.now)) }
{
    let Some((n, states, links_at)) = three(items) else {
        return Ok(None);
    };
    let Some(name) = name(alloc, n)? else {
        return Ok(None);
    };
    let Some(states) = state_names(alloc, states)? else {
        return Ok(None);
    };
    let Some(links) = links(alloc, links_at)? else {
        return Ok(None);
    };
    Ok(Some(SetDecl {
        name,
        states,
        links,
    }))
}

#[tactic(auto, using(crate::proofs::Orders::own_links_are))]
fn has_own_links(d: &SetDecl) -> bool
    ensures { result ≡ has_own_links (set_of d.now) }
{
    are_within(d.states.len(), d.links.as_slice())
}

fn linked_set(alloc: Global, items: &[Value]) -> Result<Option<SetDecl>, AllocError>
    ensures { IfOk result (λ r. option_map set_of r
        ≡ linked_set_fields.of_items (map view items.now)) }
{
    match linked_parts(alloc, items)? {
        Some(d) => {
            if has_own_links(&d) {
                Ok(Some(d))
            } else {
                Ok(None)
            }
        }
        None => Ok(None),
    }
}

pub(crate) fn set_row(
    alloc: Global,
    ordered: bool,
    items: &[Value],
) -> Result<Option<SetDecl>, AllocError>
    ensures { IfOk result (λ r. option_map set_of r
        ≡ (set_fields ordered).of_items (map view items.now)) }
{
    if ordered {
        linked_set(alloc, items)
    } else {
        plain_set(alloc, items)
    }
}
