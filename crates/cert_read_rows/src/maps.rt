//! Maps: tokens with their statuses, in ascending order.

ghost use Rattle.std.specs.Prelude.{◌≡◌, ◌≤◌, ◌==◌, if◌then◌else◌, map, option_map, IfOk, [], ◌∷◌, Some, None};
ghost use Rattle.serde_json.specs.View.{view};
ghost use Rattle.vlt_core.specs.HeldView.{status_of};
ghost use Rattle.cert_rows.specs.Parts.{each_in, zero_or};
ghost use Rattle.cert_rows.specs.Values as s;
ghost use Rattle.vlt_core.specs.View.{tok_of};
ghost use Rattle.cert_rows.specs.Values.{number_of_tok, ascends, map_part, maps_part, token_status, is_status, status_of as kind_status};
ghost use Rattle.cert_read_parts.specs.Maps.{pair_of, pairs_of, map_of, maps_of};

use cert_read_parts::{array, number, number_u8, number_u32, three, token};
use serde_json::Value;
use std::alloc::{AllocError, Global};
use vlt_base::{Items, StateSet};
use vlt_core::{Status, Tok, TokMap};

/// The status of this kind: 0 held, 1 lent, 2 full, which has no states.
fn status(kind: u8, mask: u32) -> Option<Status>
    requires { kind ≤ 2 }
    ensures { option_map status_of result
        ≡ if is_status kind mask then Some (kind_status kind mask) else None }
{
    if kind == 2 {
        return if mask == 0 { Some(Status::Full) } else { None };
    }
    let states = StateSet::of(mask)?;
    if kind == 0 {
        Some(Status::Held(states))
    } else {
        Some(Status::Lent(states))
    }
}

fn status_of_token(v: &Value) -> Option<(Tok, Status)>
    ensures { option_map pair_of result ≡ token_status.of_data (view v.now) }
{
    let items = array(v)?;
    let (t, kind, mask) = three(items)?;
    let t = token(t)?;
    let kind = number_u8(kind, 2)?;
    let mask = number_u32(mask, 4294967295)?;
    let status = status(kind, mask)?;
    Some((t, status))
}

fn statuses(alloc: Global, items: &[Value]) -> Result<Option<Items<(Tok, Status)>>, AllocError>
    ensures { IfOk result (λ r. option_map pairs_of r
        ≡ each_in token_status.of_data (map view items.now)) }
{
    let mut out = Items::new(alloc);
    for v in items {
        let Some(x) = status_of_token(v) else {
            return Ok(None);
        };
        out.push(x)?;
    }
    Ok(Some(out))
}

/// Whether the tokens ascend.
fn ascends(pairs: &[(Tok, Status)]) -> bool
    ensures { result ≡ ascends 0 (pairs_of pairs.now) }
{
    let mut least = 0_u64;
    for x in pairs {
        let n = number_of(x.0);
        if n < least {
            return false;
        }
        least = n + 1;
    }
    true
}

fn number_of(t: Tok) -> u64
    ensures number { result ≡ number_of_tok (tok_of t) }
    ensures within { result ≤ 4294967551 }
{
    match t {
        Tok::Key(k) => k.0 as u64,
        Tok::Var(v) => 256 + v.0 as u64,
    }
}

fn map(alloc: Global, v: &Value) -> Result<Option<TokMap>, AllocError>
    ensures { IfOk result (λ r. option_map map_of r ≡ map_part.of_data (view v.now)) }
{
    let Some(items) = array(v) else {
        return Ok(None);
    };
    let Some(pairs) = statuses(alloc, items)? else {
        return Ok(None);
    };
    if ascends(pairs.as_slice()) {
        Ok(Some(TokMap { pairs }))
    } else {
        Ok(None)
    }
}

fn each_map(alloc: Global, items: &[Value]) -> Result<Option<Items<TokMap>>, AllocError>
    ensures { IfOk result (λ r. option_map maps_of r
        ≡ each_in map_part.of_data (map view items.now)) }
{
    let mut out = Items::new(alloc);
    for v in items {
        let Some(m) = map(alloc, v)? else {
            return Ok(None);
        };
        out.push(m)?;
    }
    Ok(Some(out))
}

fn only(alloc: Global, m: TokMap) -> Result<Items<TokMap>, AllocError>
    ensures { IfOk result (λ r. maps_of r ≡ map_of m ∷ []) }
{
    let mut out = Items::new(alloc);
    out.push(m)?;
    Ok(out)
}

/// One map for each instance; by itself where the function has no bound entry.
pub(crate) fn maps(
    alloc: Global,
    instances: Option<u32>,
    v: &Value,
) -> Result<Option<Items<TokMap>>, AllocError>
    ensures { IfOk result (λ r. option_map maps_of r
        ≡ (maps_part instances).of_data (view v.now)) }
{
    let Some(n) = instances else {
        return match map(alloc, v)? {
            Some(m) => Ok(Some(only(alloc, m)?)),
            None => Ok(None),
        };
    };
    let Some(items) = array(v) else {
        return Ok(None);
    };
    let Some(maps) = each_map(alloc, items)? else {
        return Ok(None);
    };
    if maps.len() == n as usize {
        Ok(Some(maps))
    } else {
        Ok(None)
    }
}

/// Maps, or 0 in their place.
#[tactic(auto, using(cert_read_parts::proofs::Signs::zero_is_read))]
pub(crate) fn maps_or_none(
    alloc: Global,
    instances: Option<u32>,
    v: &Value,
) -> Result<Option<Option<Items<TokMap>>>, AllocError>
    ensures { IfOk result (λ r. option_map (option_map maps_of) r
        ≡ (zero_or (maps_part instances)).of_data (view v.now)) }
{
    if v.is_number() {
        return match number(v, 0) {
            Some(n) => Ok(Some(None)),
            None => Ok(None),
        };
    }
    match maps(alloc, instances, v)? {
        Some(m) => Ok(Some(Some(m))),
        None => Ok(None),
    }
}
