//! Items that are numbers of things alone.

ghost use Rattle.std.specs.Prelude.{◌≡◌, map};
ghost use Rattle.serde_json.specs.View.{view};
ghost use Rattle.cert_rows.specs.Parts.{single, pair, triple};
ghost use Rattle.cert_rows.specs.Values.{id};

use cert_read_parts::{id, one, three, two};
use serde_json::Value;

pub(crate) fn one_id(items: &[Value]) -> Option<u32>
    ensures { result ≡ (single id).of_items (map view items.now) }
{
    id(one(items)?)
}

pub(crate) fn two_ids(items: &[Value]) -> Option<(u32, u32)>
    ensures { result ≡ (pair id id).of_items (map view items.now) }
{
    let (a, b) = two(items)?;
    let a = id(a)?;
    let b = id(b)?;
    Some((a, b))
}

pub(crate) fn three_ids(items: &[Value]) -> Option<(u32, u32, u32)>
    ensures { result ≡ (triple id id id).of_items (map view items.now) }
{
    let (a, b, c) = three(items)?;
    let a = id(a)?;
    let b = id(b)?;
    let c = id(c)?;
    Some((a, b, c))
}
