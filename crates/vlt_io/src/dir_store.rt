//! The real files.

ghost use Rattle.std.specs.Prelude.{◌≡◌, ◌≤◌, ◌+◌, ◌<◌, ◌^◌, ℕ, List, Option, None, Some, IfOk, IfSome, take, vec_len};

use crate::faults::Faults;
use crate::{Store, StoreError};
use std::alloc::Global;
use std::fs;
use std::io::{self, ErrorKind, Read};
use std::rt::Files;

/// The files of the system. Nothing is told of them but how often reading failed.
#[derive(Drop)]
pub struct DirStore<'a, R: Files> {
    files: &'a R,
    faults: Faults,
}

impl<'a, R: Files> DirStore<'a, R> {
    ghost use Rattle.vlt_io.specs.Real.{files_faults};

    /// The files that this runtime reaches.
    pub fn new(files: &'a R) -> DirStore<'a, R>
        ensures { files_faults result ≡ 0 }
    {
        DirStore {
            files,
            faults: Faults::new(),
        }
    }
}

/// A file that can be opened, once.
trait Openable {
    type Reader: Read + Drop;

    /// The file's bytes, where they are known.
    ghost bytes: { Self → Option (List ℕ) };

    fn open(self) -> io::Result<Self::Reader>
        ensures { IfOk result (λ reader. IfSome (bytes self)
            (λ whole. Self.Reader.remaining reader ≡ Some whole)) };
}

/// A file of the system by its name. Nothing is known of its bytes.
#[derive(Drop)]
struct NamedFile<'a, R: Files> {
    files: &'a R,
    name: &'a str,
}

impl<'a, R: Files> Openable for NamedFile<'a, R> {
    type Reader = R::File;

    ghost bytes = { λ _. None };

    fn open(self) -> io::Result<R::File> {
        fs::open(self.files, self.name)
    }
}

/// The first `limit + 1` bytes that the reader gives, or all if it has fewer.
fn read_prefix<T: Read + Drop>(alloc: Global, reader: T, limit: usize) -> io::Result<Vec<u8>>
    requires { limit < 2 ^ 32 }
    ensures bounded { IfOk result (λ bytes. vec_len bytes ≤ limit + 1) }
    ensures prefix { IfOk result (λ bytes. IfSome (T.remaining reader) (λ whole. bytes.items
        ≡ take (limit + 1) whole)) }
{
    let most = limit + 1;
    let mut bytes = Vec::new(alloc);
    reader.take(most as u64).read_to_end(&mut bytes)?;
    bytes.truncate(most);
    Ok(bytes)
}

/// The file's first `limit + 1` bytes, or all if it has fewer.
fn read_file<F: Openable>(alloc: Global, file: F, limit: usize) -> io::Result<Vec<u8>>
    requires { limit < 2 ^ 32 }
    ensures bounded { IfOk result (λ bytes. vec_len bytes ≤ limit + 1) }
    ensures prefix { IfOk result (λ bytes. IfSome (F.bytes file) (λ whole. bytes.items
        ≡ take (limit + 1) whole)) }
{
    let reader = file.open()?;
    read_prefix(alloc, reader, limit)
}

impl<'a, R: Files> Store for DirStore<'a, R> {
    ghost use Rattle.vlt_io.specs.Real.{files_faults};

    ghost faults = { files_faults };

    ghost files = { λ _. None };

    ghost reads = { λ _ _ _ _. Unit {0} };

    fn read(&mut self, alloc: Global, name: &str, limit: usize) -> Result<Vec<u8>, StoreError> {
        let file = NamedFile {
            files: self.files,
            name,
        };
        match read_file(alloc, file, limit) {
            Ok(bytes) => Ok(bytes),
            Err(error) if error.kind() == ErrorKind::OutOfMemory => Err(StoreError::Memory),
            Err(_) => {
                self.faults.add();
                Err(StoreError::Failed)
            }
        }
    }
}

#[cfg(test)]
mod tests;
