//! Held maps.

ghost use Rattle.std.specs.Prelude.{◌≡◌, OnOk};
ghost use Rattle.vlt_core.specs.HeldView.{status_of};
ghost use Rattle.cert_rows.specs.Parts.{nat};
ghost use Rattle.cert_rows.specs.Values.{kind_number, status_mask, token_status, map_part};
ghost use Rattle.cert_values.specs.Heads.{token_status_of, listed_map};
ghost use Rattle.cert_values.specs.Laid.{laid};

use crate::parts::{put_mask, put_tok};
use crate::text::CertText;
use std::alloc::AllocError;
use vlt_core::{Status, Tok, TokMap};

fn put_kind(out: &mut CertText, status: Status) -> Result<(), AllocError>
    ensures { OnOk result (out.new ≡ laid (nat (kind_number (status_of status))) out.old) }
{
    match status {
        Status::Absent => out.number(3),
        Status::Held(_) => out.number(0),
        Status::Lent(_) => out.number(1),
        Status::Full => out.number(2),
    }
}

/// Writes the states of a key, 0 for a variable.
fn put_states(out: &mut CertText, status: Status) -> Result<(), AllocError>
    ensures { OnOk result (out.new ≡ laid (nat (status_mask (status_of status))) out.old) }
{
    match status {
        Status::Absent => out.number(0),
        Status::Held(states) => put_mask(out, states),
        Status::Lent(states) => put_mask(out, states),
        Status::Full => out.number(0),
    }
}

fn put_token_status(out: &mut CertText, tok: Tok, status: Status) -> Result<(), AllocError>
    ensures { OnOk result (out.new
        ≡ laid (token_status.data_of (token_status_of (tok, status))) out.old) }
{
    out.begin()?;
    put_tok(out, tok)?;
    put_kind(out, status)?;
    put_states(out, status)?;
    out.end()
}

/// Writes a map, as an array of its tokens with their statuses.
pub fn put_map(out: &mut CertText, held: &TokMap) -> Result<(), AllocError>
    ensures { OnOk result (out.new ≡ laid (map_part.data_of (listed_map held.now)) out.old) }
{
    out.begin()?;
    for pair in held.pairs.as_slice() {
        put_token_status(out, pair.0, pair.1)?;
    }
    out.end()
}
