//! Parts of declarations.

ghost use Rattle.std.specs.Prelude.{◌≡◌, ◌≤◌, ℕ, option_map, IfOk, [], ◌∷◌, Some, None};
ghost use Rattle.serde_json.specs.View.{view};
ghost use Rattle.std.specs.Prelude.{if◌then◌else◌, ◌==◌, true};
ghost use Rattle.vlt_core.specs.View.{link_of, field_of, case_key_of, key_of, var_of, entry_of, mode_of, states_of};
ghost use Rattle.cert_rows.specs.Parts.{minus_or};
ghost use Rattle.cert_rows.specs.Values as s;
ghost use Rattle.cert_rows.specs.Values.{id, is_zero_side, are_alike, is_bound_side, is_entry, side_states, mode_of_number, bound_number, last_mode};
ghost use Rattle.cert_rows.specs.Rows as rows;

use crate::names::name;
use crate::types::ty;
use cert_read_parts::{array, four, id, id_or_none, mask, number_u8, number_u32, three, two};
use serde_json::Value;
use std::alloc::{AllocError, Global};
use vlt_base::{KeyId, StateSet, TypeId};
use vlt_core::{Entry, FieldDecl, KeyDecl, Link, Mode, VarDecl};

/// The number of a type, or -1.
pub(crate) fn type_or_none(v: &Value) -> Option<Option<TypeId>>
    ensures { option_map (option_map (λ t. t.0)) result ≡ (minus_or id).of_data (view v.now) }
{
    match id_or_none(v)? {
        Some(t) => Some(Some(TypeId(t))),
        None => Some(None),
    }
}

pub(crate) fn link(v: &Value) -> Option<Link>
    ensures { option_map link_of result ≡ rows.link.of_data (view v.now) }
{
    let items = array(v)?;
    let (lower, upper) = two(items)?;
    let lower = number_u8(lower, 255)?;
    let upper = number_u8(upper, 255)?;
    Some(Link { lower, upper })
}

pub(crate) fn case_key(v: &Value) -> Option<(u32, StateSet)>
    ensures { option_map case_key_of result ≡ s.case_key.of_data (view v.now) }
{
    let items = array(v)?;
    let (position, states) = two(items)?;
    let position = id(position)?;
    let states = mask(states)?;
    Some((position, states))
}

pub(crate) fn field(alloc: Global, v: &Value) -> Result<Option<FieldDecl>, AllocError>
    ensures { IfOk result (λ r. option_map field_of r ≡ s.field.of_data (view v.now)) }
{
    let Some(items) = array(v) else {
        return Ok(None);
    };
    let Some((n, t, states)) = three(items) else {
        return Ok(None);
    };
    let Some(name) = name(alloc, n)? else {
        return Ok(None);
    };
    let Some(ty) = ty(alloc, t)? else {
        return Ok(None);
    };
    match mask(states) {
        Some(states) => Ok(Some(FieldDecl { name, ty, states })),
        None => Ok(None),
    }
}

pub(crate) fn key_decl(alloc: Global, v: &Value) -> Result<Option<KeyDecl>, AllocError>
    ensures { IfOk result (λ r. option_map key_of r ≡ s.key_decl.of_data (view v.now)) }
{
    let Some(items) = array(v) else {
        return Ok(None);
    };
    let Some((n, t)) = two(items) else {
        return Ok(None);
    };
    let Some(key_type) = type_or_none(t) else {
        return Ok(None);
    };
    let Some(name) = name(alloc, n)? else {
        return Ok(None);
    };
    Ok(Some(KeyDecl { name, key_type }))
}

pub(crate) fn var_decl(alloc: Global, v: &Value) -> Result<Option<VarDecl>, AllocError>
    ensures { IfOk result (λ r. option_map var_of r ≡ s.var_decl.of_data (view v.now)) }
{
    let Some(items) = array(v) else {
        return Ok(None);
    };
    let Some((n, t)) = two(items) else {
        return Ok(None);
    };
    let Some(name) = name(alloc, n)? else {
        return Ok(None);
    };
    match ty(alloc, t)? {
        Some(ty) => Ok(Some(VarDecl { name, ty })),
        None => Ok(None),
    }
}

fn is_zero(side: Option<u32>) -> bool
    ensures { result ≡ is_zero_side side }
{
    match side {
        Some(n) => n == 0,
        None => false,
    }
}

/// Both sides are said, or neither.
fn are_alike(before: Option<u32>, after: Option<u32>) -> bool
    ensures { result ≡ are_alike before after }
{
    before.is_some() == after.is_some()
}

fn is_bound(side: Option<u32>) -> bool
    ensures { result ≡ is_bound_side side }
{
    match side {
        Some(b) => b <= 255,
        None => false,
    }
}

fn is_entry(mode: u8, key: u32, before: Option<u32>, after: Option<u32>) -> bool
    ensures { result ≡ is_entry (mode, key, before, after) }
{
    if mode == 0 {
        return !is_zero(before) && !is_zero(after) && are_alike(before, after);
    }
    if mode == 1 {
        return !is_zero(before) && is_zero(after);
    }
    if mode == 4 {
        return is_bound(before) && after.is_none();
    }
    is_zero(before) && !is_zero(after)
}

fn side_states(side: Option<u32>) -> Option<StateSet>
    ensures { states_of result ≡ side_states side }
{
    StateSet::of(side?)
}

fn mode_of(n: u8, before: Option<u32>) -> Mode
    requires bound { n ≡ 4 → is_bound_side before ≡ true }
    requires within { n ≤ 4 }
    ensures { mode_of result ≡ mode_of_number n (bound_number before) }
{
    match n {
        0 => Mode::Kept,
        1 => Mode::Taken,
        2 => Mode::Given,
        3 => Mode::New,
        _ => match before {
            Some(b) => Mode::Bound(b as u8),
            None => Mode::Bound(0),
        },
    }
}

/// The states before; none before a bound entry, whose side is the state that bounds it.
fn before_states(mode: u8, before: Option<u32>) -> Option<StateSet>
    ensures { states_of result ≡ if mode == 4 then None else side_states before }
{
    if mode == 4 { None } else { side_states(before) }
}

fn last_mode(ordered: bool) -> u8
    ensures last { result ≡ last_mode ordered }
    ensures within { result ≤ 4 }
{
    if ordered { 4 } else { 3 }
}

pub(crate) fn entry(v: &Value, ordered: bool) -> Option<Entry>
    ensures { option_map entry_of result ≡ (s.entry ordered).of_data (view v.now) }
{
    let items = array(v)?;
    let (mode, key, before, after) = four(items)?;
    let mode = number_u8(mode, last_mode(ordered))?;
    let key = id(key)?;
    let before = id_or_none(before)?;
    let after = id_or_none(after)?;
    if !is_entry(mode, key, before, after) {
        return None;
    }
    Some(Entry {
        mode: mode_of(mode, before),
        key: KeyId(key),
        before: before_states(mode, before),
        after: side_states(after),
    })
}
