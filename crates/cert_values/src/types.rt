//! Types of fields, payloads, results and variables.

ghost use Rattle.std.specs.Prelude.{◌≡◌, ◌∷◌, [], OnOk};
ghost use Rattle.cert_rows.specs.Parts.{nat};
ghost use Rattle.cert_rows.specs.Values.{ty as ty_part, ids, tagged_list};
ghost use Rattle.vlt_core.specs.View.{ty_of, keys_of};
ghost use Rattle.cert_values.specs.Laid.{laid};

use crate::parts::{put_ids, put_mask};
use crate::text::CertText;
use std::alloc::AllocError;
use vlt_base::KeyId;
use vlt_core::Ty;

/// Writes a tag alone, in an array.
pub fn put_bare(out: &mut CertText, tag: &str) -> Result<(), AllocError>
    ensures { OnOk result (out.new ≡ laid (tagged_list tag.now []) out.old) }
{
    out.tag(tag)?;
    out.end()
}

fn put_keyed(
    out: &mut CertText,
    tag: &str,
    key: u32,
    id: u32,
    args: &[KeyId],
) -> Result<(), AllocError>
    ensures { OnOk result (out.new ≡ laid (tagged_list tag.now (nat key ∷ nat id
        ∷ ids.data_of (keys_of args.now) ∷ [])) out.old) }
{
    out.tag(tag)?;
    out.number(key as u64)?;
    out.number(id as u64)?;
    put_ids(out, args)?;
    out.end()
}

fn put_variant(out: &mut CertText, tag: &str, id: u32, args: &[KeyId]) -> Result<(), AllocError>
    ensures { OnOk result (out.new ≡ laid (tagged_list tag.now (nat id
        ∷ ids.data_of (keys_of args.now) ∷ [])) out.old) }
{
    out.tag(tag)?;
    out.number(id as u64)?;
    put_ids(out, args)?;
    out.end()
}

/// Writes a type, by its tag.
pub fn put_ty(out: &mut CertText, ty: &Ty) -> Result<(), AllocError>
    ensures { OnOk result (out.new ≡ laid (ty_part.data_of (ty_of ty.now)) out.old) }
{
    match ty {
        Ty::Int => put_bare(out, "int"),
        Ty::Bool => put_bare(out, "bool"),
        Ty::Key(key, id, args) => put_keyed(out, "key", key.0, id.0, args.as_slice()),
        Ty::Own(states, id, args) => {
            out.tag("own")?;
            put_mask(out, *states)?;
            out.number(id.0 as u64)?;
            put_ids(out, args.as_slice())?;
            out.end()
        }
        Ty::Guard(key, id, args) => put_keyed(out, "guard", key.0, id.0, args.as_slice()),
        Ty::Var(id, args) => put_variant(out, "var", id.0, args.as_slice()),
        Ty::OwnVar(id, args) => put_variant(out, "ownvar", id.0, args.as_slice()),
    }
}
