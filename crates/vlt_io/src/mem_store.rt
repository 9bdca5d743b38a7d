//! Files in memory.

ghost use Rattle.std.specs.Prelude.{◌≡◌, ◌<◌, ◌≤◌, ◌+◌, ◌^◌, ℕ, List, true, false, if◌then◌else◌, take, MatchResult, Some, IfOk, OnOk, OnErr, IsErrOf, vec_len};
ghost use Rattle.std.specs.Str.{bytes_eq};
ghost use Rattle.vlt_io.specs.Outside.{IsRead, MayFail};

use crate::calls::Calls;
use crate::{Store, StoreError};
use std::alloc::Global;
use std::collections::BTreeMap;
use vlt_base::Memory;

/// Files in memory, which are told. The calls of `read` whose numbers, from 1, it was given fail.
#[derive(Drop)]
pub struct MemStore {
    files: BTreeMap<String, Vec<u8>>,
    calls: Calls,
    alloc: Global,
}

impl MemStore {
    ghost use Rattle.vlt_io.specs.Memory.{file_at, reads_of, failing_reads, store_faults, HasSameCalls};

    /// A store without files, in which the reads of these numbers are to fail.
    pub fn new(alloc: Global, failing: &[u64]) -> Result<MemStore, Memory>
        ensures files { IfOk result (λ store. (name : List ℕ) → file_at store name ≡ None) }
        ensures failing { IfOk result (λ store. failing_reads store ≡ failing.now) }
        ensures reads { IfOk result (λ store. reads_of store ≡ 0) }
        ensures faults { IfOk result (λ store. store_faults store ≡ 0) }
    {
        Ok(MemStore {
            files: BTreeMap::new(alloc),
            calls: Calls::new(alloc, failing)?,
            alloc,
        })
    }

    /// Adds a file, or gives new bytes to the one of this name.
    pub fn add(&mut self, name: &str, bytes: &[u8]) -> Result<(), Memory>
        ensures ok { OnOk result ((other : List ℕ) →
            file_at self.new other ≡ (if bytes_eq name.now other then Some bytes.now else
            file_at self.old other)) }
        ensures err { OnErr result ((other : List ℕ) →
            file_at self.new other ≡ file_at self.old other) }
        ensures calls { HasSameCalls self.old self.new }
    {
        let name = String::from_str(self.alloc, name)?;
        let bytes = bytes.to_vec(self.alloc)?;
        self.files.insert(name, bytes)?;
        Ok(())
    }
}

impl Store for MemStore {
    ghost use Rattle.vlt_io.specs.Memory.{file_at, reads_of, failing_reads, store_faults, fails_next_read};
    ghost use Rattle.vlt_io.specs.Faults.{one_more};

    ghost faults = { store_faults };

    ghost files = { λ store. Some (file_at store) };

    ghost reads = { λ old _ _ new. reads_of new ≡ one_more (reads_of old) };

    fn read(&mut self, alloc: Global, name: &str, limit: usize) -> Result<Vec<u8>, StoreError>
        requires { limit < 2 ^ 32 }
        ensures bytes { IfOk result (λ bytes.
            IsRead (Some (file_at self.old)) name.now limit bytes.items) }
        ensures bounded { IfOk result (λ bytes. vec_len bytes ≤ limit + 1) }
        ensures reads { IfOk result (λ _. reads_of self.new ≡ one_more (reads_of self.old)) }
        ensures failed { IsErrOf result StoreError.Failed →
            MayFail (Some (file_at self.old)) name.now (store_faults self.old)
            (store_faults self.new) }
        ensures unchanged { file_at self.new ≡ file_at self.old }
        ensures counted { store_faults self.old ≤ store_faults self.new }
        ensures counted_reads { reads_of self.new ≡ one_more (reads_of self.old) }
        ensures failing { failing_reads self.new ≡ failing_reads self.old }
        ensures told_to_fail { fails_next_read self.old ≡ true →
            (result ≡ Err StoreError.Failed) ×
            (store_faults self.new ≡ one_more (store_faults self.old)) }
        ensures else_as_before { fails_next_read self.old ≡ false →
            store_faults self.new ≡ store_faults self.old }
        ensures missing { fails_next_read self.old ≡ false →
            file_at self.old name.now ≡ None → result ≡ Err StoreError.Failed }
        ensures there { (whole : List ℕ) → fails_next_read self.old ≡ false →
            file_at self.old name.now ≡ Some whole →
            MatchResult result (λ bytes. bytes.items ≡ take (limit + 1) whole) (λ error. error
            ≡ StoreError.Memory) }
    {
        if self.calls.begin() {
            self.calls.fail();
            return Err(StoreError::Failed);
        }
        let Some(bytes) = self.files.get(name) else {
            return Err(StoreError::Failed);
        };
        let front = &bytes[..bytes.len().min(limit + 1)];
        Ok(Vec::from_slice(alloc, front)?)
    }
}
