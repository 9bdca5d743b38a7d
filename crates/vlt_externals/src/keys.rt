//! Entries of a clause, and the caller's keys for them.

ghost use Rattle.std.specs.Prelude.{◌≡◌, slice_get};
ghost use Rattle.vlt_core.specs.View.{entry_of};
ghost use Rattle.vlt_meaning.specs.Externals.{is_taken, is_given};

use vlt_base::KeyId;
use vlt_core::{Entry, Mode};

/// Whether an entry's key is held before the call, and not after it.
pub fn is_taken(e: &Entry) -> bool
    ensures { result ≡ is_taken (entry_of e.now) }
{
    match e.mode {
        Mode::Taken => true,
        Mode::Kept | Mode::Given | Mode::New | Mode::Bound(_) => false,
    }
}

/// Whether an entry's key is held after the call, and not before it, and not for a new object.
pub fn is_given(e: &Entry) -> bool
    ensures { result ≡ is_given (entry_of e.now) }
{
    match e.mode {
        Mode::Given => true,
        Mode::Kept | Mode::Taken | Mode::New | Mode::Bound(_) => false,
    }
}

/// The caller's key for a key of the external's head.
pub fn caller_key(keys: &[KeyId], k: KeyId) -> Option<KeyId>
    ensures { result ≡ slice_get keys.now k.0 }
{
    keys.get(k.0 as usize).copied()
}
