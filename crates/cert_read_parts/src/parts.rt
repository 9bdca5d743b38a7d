//! Numbers, texts, arrays, sets of states and tokens.

ghost use Rattle.std.specs.Prelude.{◌≡◌, ◌≤◌, map, option_map, IfSome, IfOk};
ghost use Rattle.serde_json.specs.View.{view};
ghost use Rattle.cert_rows.specs.Parts.{nat_in, array_in, text, each_in, one_in, two_in, three_in, four_in, several, minus_or};
ghost use Rattle.cert_rows.specs.Values.{id, ids, flag, mask, token};
ghost use Rattle.vlt_base.specs.States.{has_state};
ghost use Rattle.vlt_core.specs.View.{tok_of, keys_of, vars_of};
ghost use Rattle.vlt_core.specs.HeldView.{toks_of};

use serde_json::Value;
use std::alloc::{AllocError, Global};
use vlt_base::{Items, KeyId, StateSet, VarId};
use vlt_core::Tok;

/// A whole number up to `top`.
pub fn number(v: &Value, top: u64) -> Option<u64>
    ensures value { result ≡ nat_in top (view v.now) }
    ensures within { IfSome result (λ n. n ≤ top) }
{
    let n = v.as_u64()?;
    if n <= top { Some(n) } else { None }
}

/// The same, of 32 bits.
pub fn number_u32(v: &Value, top: u32) -> Option<u32>
    ensures value { result ≡ nat_in top (view v.now) }
    ensures within { IfSome result (λ n. n ≤ top) }
{
    let n = number(v, top as u64)?;
    Some(n as u32)
}

/// The same, of 8 bits.
pub fn number_u8(v: &Value, top: u8) -> Option<u8>
    ensures value { result ≡ nat_in top (view v.now) }
    ensures within { IfSome result (λ n. n ≤ top) }
{
    let n = number(v, top as u64)?;
    Some(n as u8)
}

/// The number of a thing.
pub fn id(v: &Value) -> Option<u32>
    ensures { result ≡ id.of_data (view v.now) }
{
    number_u32(v, 4294967295)
}

/// A string.
pub fn text(v: &Value) -> Option<&str>
    ensures { option_map (λ s. s.now) result ≡ text.of_data (view v.now) }
{
    v.as_str()
}

/// The items of an array.
#[tactic(auto, using(crate::proofs::Lists::list_in_of_items))]
pub fn array(v: &Value) -> Option<&[Value]>
    ensures { option_map (λ vs. map view vs.now) result ≡ array_in (view v.now) }
{
    let list = v.as_array()?;
    Some(list.as_slice())
}

/// The only item.
pub fn one<'a>(items: &'a [Value]) -> Option<&'a Value>
    ensures { option_map (λ v. view v.now) result ≡ one_in (map view items.now) }
{
    match items {
        [v] => Some(v),
        _ => None,
    }
}

/// The items, if there are just two.
pub fn two<'a>(items: &'a [Value]) -> Option<(&'a Value, &'a Value)>
    ensures { option_map (λ p. (view p.0.now, view p.1.now)) result
        ≡ two_in (map view items.now) }
{
    match items {
        [a, b] => Some((a, b)),
        _ => None,
    }
}

/// The items, if there are just three.
pub fn three<'a>(items: &'a [Value]) -> Option<(&'a Value, &'a Value, &'a Value)>
    ensures { option_map (λ p. (view p.0.now, view p.1.now, view p.2.now)) result
        ≡ three_in (map view items.now) }
{
    match items {
        [a, b, c] => Some((a, b, c)),
        _ => None,
    }
}

fn keys(alloc: Global, items: &[Value]) -> Result<Option<Items<KeyId>>, AllocError>
    ensures { IfOk result (λ r. option_map keys_of r ≡ each_in id.of_data (map view items.now)) }
{
    let mut out = Items::new(alloc);
    for v in items {
        let Some(k) = id(v) else {
            return Ok(None);
        };
        out.push(KeyId(k))?;
    }
    Ok(Some(out))
}

/// Keys, by their numbers.
pub fn key_list(alloc: Global, v: &Value) -> Result<Option<Items<KeyId>>, AllocError>
    ensures { IfOk result (λ r. option_map keys_of r ≡ ids.of_data (view v.now)) }
{
    let Some(items) = array(v) else {
        return Ok(None);
    };
    keys(alloc, items)
}

/// A set of states, by the number whose bits they are; 0 is none.
pub fn mask(v: &Value) -> Option<StateSet>
    ensures { option_map has_state result ≡ mask.of_data (view v.now) }
{
    let m = number_u32(v, 4294967295)?;
    StateSet::of(m)
}

/// A key, or a variable by 256 more than its number.
pub fn token(v: &Value) -> Option<Tok>
    ensures { option_map tok_of result ≡ token.of_data (view v.now) }
{
    let n = number(v, 4294967551)?;
    if n < 256 {
        Some(Tok::Key(KeyId(n as u32)))
    } else {
        Some(Tok::Var(VarId((n - 256) as u32)))
    }
}

/// The items, if there are just four.
pub fn four<'a>(items: &'a [Value]) -> Option<(&'a Value, &'a Value, &'a Value, &'a Value)>
    ensures { option_map (λ p. (view p.0.now, view p.1.now, view p.2.now, view p.3.now)) result
        ≡ four_in (map view items.now) }
{
    match items {
        [a, b, c, d] => Some((a, b, c, d)),
        _ => None,
    }
}

/// 0 or 1.
pub fn flag(v: &Value) -> Option<bool>
    ensures { result ≡ flag.of_data (view v.now) }
{
    let n = number_u8(v, 1)?;
    Some(n == 1)
}

/// The number of a thing, or `None` for -1.
#[tactic(auto, using(crate::proofs::Signs::minus_is_read))]
pub fn id_or_none(v: &Value) -> Option<Option<u32>>
    ensures { result ≡ (minus_or id).of_data (view v.now) }
{
    if let Some(n) = v.as_i64() {
        if n == -1 {
            return Some(None);
        }
    }
    let n = id(v)?;
    Some(Some(n))
}

/// The number of a variable, or `None` for -1.
pub fn var_or_none(v: &Value) -> Option<Option<VarId>>
    ensures { option_map (option_map (λ v. v.0)) result ≡ (minus_or id).of_data (view v.now) }
{
    match id_or_none(v)? {
        Some(v) => Some(Some(VarId(v))),
        None => Some(None),
    }
}

fn vars(alloc: Global, items: &[Value]) -> Result<Option<Items<VarId>>, AllocError>
    ensures { IfOk result (λ r. option_map vars_of r ≡ each_in id.of_data (map view items.now)) }
{
    let mut out = Items::new(alloc);
    for v in items {
        let Some(k) = id(v) else {
            return Ok(None);
        };
        out.push(VarId(k))?;
    }
    Ok(Some(out))
}

/// Variables, by their numbers.
pub fn var_list(alloc: Global, v: &Value) -> Result<Option<Items<VarId>>, AllocError>
    ensures { IfOk result (λ r. option_map vars_of r ≡ ids.of_data (view v.now)) }
{
    let Some(items) = array(v) else {
        return Ok(None);
    };
    vars(alloc, items)
}

fn tokens(alloc: Global, items: &[Value]) -> Result<Option<Items<Tok>>, AllocError>
    ensures { IfOk result (λ r. option_map toks_of r
        ≡ each_in token.of_data (map view items.now)) }
{
    let mut out = Items::new(alloc);
    for v in items {
        let Some(t) = token(v) else {
            return Ok(None);
        };
        out.push(t)?;
    }
    Ok(Some(out))
}

/// The tokens that are bound in a block.
pub fn token_list(alloc: Global, v: &Value) -> Result<Option<Items<Tok>>, AllocError>
    ensures { IfOk result (λ r. option_map toks_of r ≡ (several token).of_data (view v.now)) }
{
    let Some(items) = array(v) else {
        return Ok(None);
    };
    tokens(alloc, items)
}
