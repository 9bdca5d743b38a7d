//! Names.

ghost use Rattle.std.specs.Prelude.{◌≡◌, ◌≤◌, ℕ, IfOk, [], ◌∷◌, Some, None};
ghost use Rattle.serde_json.specs.View.{view};
ghost use Rattle.std.specs.List.{list_all};
ghost use Rattle.cert_rows.specs.Parts as parts;
ghost use Rattle.cert_rows.specs.Rows.{is_letter, is_c_character, is_c_name, c_name};

use cert_read_parts::text;
use serde_json::Value;
use std::alloc::{AllocError, Global};
use vlt_base::Items;

fn is_letter(c: u8) -> bool
    ensures { result ≡ is_letter c }
{
    65 <= c && c <= 90 || 97 <= c && c <= 122 || c == 95
}

fn is_c_character(c: u8) -> bool
    ensures { result ≡ is_c_character c }
{
    is_letter(c) || 48 <= c && c <= 57
}

fn are_c_characters(name: &[u8]) -> bool
    ensures { result ≡ list_all is_c_character name.now }
{
    for c in name {
        if !is_c_character(*c) {
            return false;
        }
    }
    true
}

/// Whether a string of the C subset may have it between its quotes, with letters and digits alone.
fn is_c_name(name: &[u8]) -> bool
    ensures { result ≡ is_c_name name.now }
{
    match name {
        [] => false,
        [c, rest @ ..] => is_letter(*c) && are_c_characters(rest),
    }
}

pub(crate) fn name(alloc: Global, v: &Value) -> Result<Option<Items<u8>>, AllocError>
    ensures { IfOk result (λ r. r ≡ parts.text.of_data (view v.now)) }
{
    let Some(s) = text(v) else {
        return Ok(None);
    };
    Ok(Some(Items::from_slice(alloc, s.as_bytes())?))
}

/// The name of an external.
pub(crate) fn c_name(alloc: Global, v: &Value) -> Result<Option<Items<u8>>, AllocError>
    ensures { IfOk result (λ r. r ≡ c_name.of_data (view v.now)) }
{
    let Some(s) = text(v) else {
        return Ok(None);
    };
    if !is_c_name(s.as_bytes()) {
        return Ok(None);
    }
    Ok(Some(Items::from_slice(alloc, s.as_bytes())?))
}
