//! Numbers, sets of states, tokens, and lists of them.

ghost use Rattle.std.specs.Prelude.{◌≡◌, map, OnOk};
ghost use Rattle.cert_rows.specs.Parts.{nat, list, minus_data};
ghost use Rattle.cert_rows.specs.Values.{flag as flag_part, mask, token, ids};
ghost use Rattle.vlt_base.specs.States.{has_state};
ghost use Rattle.vlt_core.specs.View.{tok_of, keys_of, vars_of};
ghost use Rattle.cert_values.specs.Laid.{laid};

use crate::text::CertText;
use std::alloc::AllocError;
use vlt_base::{KeyId, StateSet, VarId};
use vlt_core::Tok;

/// Writes 1 for true, 0 for false.
pub fn put_flag(out: &mut CertText, flag: bool) -> Result<(), AllocError>
    ensures { OnOk result (out.new ≡ laid (flag_part.data_of flag) out.old) }
{
    if flag { out.number(1) } else { out.number(0) }
}

/// Writes a number, or -1 where there is none.
pub fn put_number_or_minus(out: &mut CertText, number: Option<u32>) -> Result<(), AllocError>
    ensures { OnOk result (out.new ≡ laid (minus_data nat number) out.old) }
{
    match number {
        None => out.minus_one(),
        Some(number) => out.number(number as u64),
    }
}

/// Writes the number whose bits are the states.
pub fn put_mask(out: &mut CertText, states: StateSet) -> Result<(), AllocError>
    ensures { OnOk result (out.new ≡ laid (mask.data_of (has_state states)) out.old) }
{
    out.number(states.mask() as u64)
}

/// Writes the number of a key, and for a variable 256 more than its number.
pub fn put_tok(out: &mut CertText, tok: Tok) -> Result<(), AllocError>
    ensures { OnOk result (out.new ≡ laid (token.data_of (tok_of tok)) out.old) }
{
    match tok {
        Tok::Key(key) => out.number(key.0 as u64),
        Tok::Var(var) => out.number(256 + var.0 as u64),
    }
}

/// Writes the numbers of keys.
pub fn put_ids(out: &mut CertText, keys: &[KeyId]) -> Result<(), AllocError>
    ensures { OnOk result (out.new ≡ laid (ids.data_of (keys_of keys.now)) out.old) }
{
    out.begin()?;
    for key in keys {
        out.number(key.0 as u64)?;
    }
    out.end()
}

/// Writes the numbers of variables.
pub fn put_vars(out: &mut CertText, vars: &[VarId]) -> Result<(), AllocError>
    ensures { OnOk result (out.new ≡ laid (ids.data_of (vars_of vars.now)) out.old) }
{
    out.begin()?;
    for var in vars {
        out.number(var.0 as u64)?;
    }
    out.end()
}

/// Writes the tokens that a block binds.
pub fn put_toks(out: &mut CertText, toks: &[Tok]) -> Result<(), AllocError>
    ensures { OnOk result (out.new
        ≡ laid (list (map token.data_of (map tok_of toks.now))) out.old) }
{
    out.begin()?;
    for tok in toks {
        put_tok(out, *tok)?;
    }
    out.end()
}
