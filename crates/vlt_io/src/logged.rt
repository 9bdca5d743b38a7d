//! A store that keeps what another one gave.

ghost use Rattle.std.specs.Prelude.{◌≡◌, ◌++◌, ◌∷◌, []};

use crate::{Store, StoreError};
use std::alloc::Global;

/// A store with the bytes of each file that it read, in order.
#[derive(Drop)]
pub struct Logged<S: Store + Drop> {
    inner: S,
    log: Vec<Vec<u8>>,
}

impl<S: Store + Drop> Logged<S> {
    ghost use Rattle.vlt_io.specs.Log.{log_of};

    /// A store that has read nothing yet.
    pub fn new(alloc: Global, inner: S) -> Logged<S>
        ensures { log_of result ≡ [] }
    {
        Logged {
            inner,
            log: Vec::new(alloc),
        }
    }
}

impl<S: Store + Drop> Store for Logged<S> {
    ghost use Rattle.vlt_io.specs.Log.{log_of, inner_of};

    ghost faults = { λ s. S.faults (inner_of s) };

    ghost files = { λ s. S.files (inner_of s) };

    ghost reads = { λ old _ bytes new. log_of new ≡ log_of old ++ bytes ∷ [] };

    fn read(&mut self, alloc: Global, name: &str, limit: usize) -> Result<Vec<u8>, StoreError> {
        let bytes = self.inner.read(alloc, name, limit)?;
        let copy = Vec::from_slice(alloc, bytes.as_slice())?;
        if self.log.push(copy).is_err() {
            return Err(StoreError::Memory);
        }
        Ok(bytes)
    }
}
