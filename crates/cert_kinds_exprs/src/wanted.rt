//! The types that operands are wanted for.

ghost use Rattle.std.specs.Prelude.{◌≡◌, map, Some, None, slice_get};
ghost use Rattle.vlt_core.specs.View.{ty_of, keys_of, field_of};
ghost use Rattle.vlt_core.specs.Types.{with_keys};
ghost use Rattle.cert_kinds_exprs.specs.Seen.{seen_some};
ghost use Rattle.cert_kinds_exprs.specs.Wanted.{wanted_types};

use crate::seen::{Seen, below};
use vlt_base::KeyId;
use vlt_core::{FieldDecl, Ty};

/// The types of fields or payloads under keys, in order.
#[derive(Clone, Copy)]
pub enum Wanted<'a> {
    Nothing,
    Fields(&'a [FieldDecl], &'a [KeyId]),
    Payload(&'a [Ty], &'a [KeyId]),
}

fn field_at<'a>(fields: &'a [FieldDecl], args: &'a [KeyId], i: usize) -> Option<Seen<'a>>
    ensures { seen_some result ≡ slice_get (map (λ d. with_keys (keys_of args.now) d.ty)
        (map field_of fields.now)) i }
{
    match fields.get(i) {
        None => None,
        Some(d) => Some(below(args, &d.ty)),
    }
}

fn payload_at<'a>(payload: &'a [Ty], args: &'a [KeyId], i: usize) -> Option<Seen<'a>>
    ensures { seen_some result ≡ slice_get (map (with_keys (keys_of args.now))
        (map ty_of payload.now)) i }
{
    match payload.get(i) {
        None => None,
        Some(ty) => Some(below(args, ty)),
    }
}

impl<'a> Wanted<'a> {
    /// The type at a position, none after the last one.
    pub fn get(self, i: usize) -> Option<Seen<'a>>
        ensures { seen_some result ≡ slice_get (wanted_types self.entry) i }
    {
        match self {
            Wanted::Nothing => None,
            Wanted::Fields(fields, args) => field_at(fields, args, i),
            Wanted::Payload(payload, args) => payload_at(payload, args, i),
        }
    }
}
