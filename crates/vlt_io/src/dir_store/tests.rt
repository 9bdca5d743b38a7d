//! The real files, and files that can be opened once.

use super::*;
use std::alloc::Allocator;
use std::cell::Cell;
use std::fs::{Metadata, OpenOptions};
use std::test::Fail;

const NAME: &str = "vlt_io_dir_store.txt";

/// So many bytes, no two stretches of 256 alike.
fn bytes_of(alloc: Global, size: usize) -> Result<Vec<u8>, Fail> {
    let mut bytes = Vec::new(alloc);
    for index in 0..size {
        bytes.push((index % 251) as u8 ^ ((index >> 8) % 253) as u8)?;
    }
    Ok(bytes)
}

/// Sizes of files with limits, from nothing to the largest source.
const SIZES: [(usize, usize); 10] = [
    (0, 0),
    (5, 0),
    (5, 3),
    (5, 4),
    (5, 9),
    (70_000, 69_998),
    (70_000, 69_999),
    (1_048_576, 1_048_576),
    (1_048_577, 1_048_576),
    (1_048_578, 1_048_576),
];

#[test]
fn files_are_read_up_to_their_limit(rt: HostRuntime) -> Result<(), Fail> {
    let alloc = rt.alloc();
    let mut store = DirStore::new(&rt);
    for (size, limit) in SIZES {
        let whole = bytes_of(alloc, size)?;
        fs::write(&rt, NAME, whole.as_slice())?;
        assert!(rt; limit < 2_000_000);
        let bytes = store.read(alloc, NAME, limit).map_err(|_| "not read")?;
        assert!(rt;
            bytes.as_slice() == &whole[..whole.len().min(limit + 1)],
            "{size} {limit}"
        );
    }
    fs::remove_file(&rt, NAME)?;
    for name in [NAME, "."] {
        assert_eq!(rt; store.read(alloc, name, 9).err(), Some(StoreError::Failed));
    }
    Ok(())
}

#[test]
fn an_endless_reader_is_cut(rt: HostRuntime) -> Result<(), Fail> {
    let bytes = read_prefix(rt.alloc(), io::repeat(b'x'), 3)?;
    assert_eq!(rt; bytes.as_slice(), b"xxxx".as_slice());
    Ok(())
}

/// The files of a runtime, of which just one can be opened.
#[derive(Drop)]
struct OpensOnce<'a, R> {
    files: &'a R,
    opened: Cell<bool>,
}

impl<'a, R: Files> Files for OpensOnce<'a, R> {
    type File = R::File;

    type Dir = R::Dir;

    fn open_file(&self, how: &OpenOptions, path: &str) -> io::Result<R::File> {
        if self.opened.replace(true) {
            return Err(io::Error::from(ErrorKind::NotFound));
        }
        self.files.open_file(how, path)
    }

    fn open_dir(&self, path: &str) -> io::Result<R::Dir> {
        self.files.open_dir(path)
    }

    fn metadata(&self, path: &str) -> io::Result<Metadata> {
        self.files.metadata(path)
    }

    fn symlink_metadata(&self, path: &str) -> io::Result<Metadata> {
        self.files.symlink_metadata(path)
    }

    fn copy(&self, from: &str, to: &str) -> io::Result<u64> {
        self.files.copy(from, to)
    }

    fn rename(&self, from: &str, to: &str) -> io::Result<()> {
        self.files.rename(from, to)
    }

    fn remove_file(&self, path: &str) -> io::Result<()> {
        self.files.remove_file(path)
    }

    fn create_dir(&self, path: &str) -> io::Result<()> {
        self.files.create_dir(path)
    }

    fn remove_dir(&self, path: &str) -> io::Result<()> {
        self.files.remove_dir(path)
    }

    fn remove_dir_all<B: Allocator>(&self, alloc: B, path: &str) -> io::Result<()> {
        self.files.remove_dir_all(alloc, path)
    }
}

#[test]
fn a_file_is_opened_once(rt: HostRuntime) -> Result<(), Fail> {
    let alloc = rt.alloc();
    let name = "vlt_io_opened_once.txt";
    fs::write(&rt, name, "abc")?;
    let files = OpensOnce {
        files: &rt,
        opened: Cell::new(false),
    };
    let mut store = DirStore::new(&files);
    assert_eq!(rt;
        store.read(alloc, name, 9).map(|bytes| bytes.len()).ok(),
        Some(3)
    );
    assert_eq!(rt; store.read(alloc, name, 9).err(), Some(StoreError::Failed));
    fs::remove_file(&rt, name)?;
    Ok(())
}
