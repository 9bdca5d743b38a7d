//! The caller's keys, for those of an external's head and of a case.

ghost use Rattle.std.specs.Prelude.{◌≡◌};
ghost use Rattle.std.specs.Option.{option_map};
ghost use Rattle.vlt_core.specs.View.{entry_of, keys_of};
ghost use Rattle.vlt_core.specs.Lookups.{is_new};
ghost use Rattle.vlt_externals.specs.Results.Stated.{key_for};

use crate::caller_key;
use vlt_base::KeyId;
use vlt_core::{Entry, Mode};

/// Whether an entry's key is for a new object.
pub fn is_new(e: &Entry) -> bool
    ensures { result ≡ is_new (entry_of e.now) }
{
    match e.mode {
        Mode::New => true,
        Mode::Kept | Mode::Taken | Mode::Given | Mode::Bound(_) => false,
    }
}

/// The caller's key that stands for the key of a case that is at a position of the variant's header.
pub fn case_key(args: &[KeyId], keys: &[KeyId], position: u32) -> Option<KeyId>
    ensures { option_map (λ k. k.0) result ≡
        key_for (keys_of keys.now) (keys_of args.now) position }
{
    match args.get(position as usize) {
        None => None,
        Some(j) => caller_key(keys, *j),
    }
}
