//! Files that are read.

ghost use Rattle.std.specs.Prelude.{◌≡◌, ◌<◌, ◌≤◌, ◌+◌, ◌^◌, ℕ, List, Option, IfOk, IsErrOf, vec_len};
ghost use Rattle.vlt_io.specs.Outside.{Files, IsRead, MayFail};

use std::alloc::{AllocError, Global};
use thiserror::Error;

/// Why a file was not read.
#[derive(Clone, Copy, Debug, PartialEq, Eq, Error)]
pub enum StoreError {
    /// There is no such file, or reading it failed.
    #[error("the file can't be read")]
    Failed,
    /// There was no memory for its bytes.
    #[error("there is no memory for the file's bytes")]
    Memory,
}

impl From<AllocError> for StoreError {
    ghost use Rattle.vlt_io.specs.declared.store.StoreError.TheVariants.{Memory};

    ghost from_gives = { λ _ e. e ≡ Memory };

    fn from(_: AllocError) -> StoreError {
        StoreError::Memory
    }
}

/// A place with files.
pub trait Store {
    /// How often reading has failed, up to 18446744073709551615.
    ghost faults: { Self → ℕ };

    /// The bytes of each file by its name, where the store tells them.
    ghost files: { Self → Option Files };

    /// One read of this name may give these bytes, and leave the store so.
    ghost reads: { Self → List ℕ → List ℕ → Self → Type 0 };

    /// The file's first `limit + 1` bytes, or all if it has fewer.
    fn read(&mut self, alloc: Global, name: &str, limit: usize) -> Result<Vec<u8>, StoreError>
        requires { limit < 2 ^ 32 }
        ensures bytes { IfOk result (λ bytes. IsRead (files self.old) name.now limit bytes.items) }
        ensures bounded { IfOk result (λ bytes. vec_len bytes ≤ limit + 1) }
        ensures reads { IfOk result (λ bytes. reads self.old name.now bytes.items self.new) }
        ensures failed { IsErrOf result StoreError.Failed →
            MayFail (files self.old) name.now (faults self.old) (faults self.new) }
        ensures unchanged { files self.new ≡ files self.old }
        ensures counted { faults self.old ≤ faults self.new };
}
