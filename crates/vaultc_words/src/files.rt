//! From the names of files to their bytes.

ghost use Rattle.std.specs.Prelude.{◌<◌, ◌≤◌, ◌^◌, [], ◌∷◌, Some, IfErr, IfOk, IfSome, option_map};
ghost use Rattle.vlt_base.specs.declared.limits.TheConstants as limits;
ghost use Rattle.vaultc_words.specs.Sources.{MayRead, IsOver, numbers_in, run_sources, sources_of};
ghost use Rattle.vaultc_words.specs.FilesSeen.{AreShort, AreShortForHost, IsNumbered, seen_file, seen_files, seen_host_files, seen_module_files, seen_link_files, AreShortModules, AreShortLinked};
ghost use Rattle.vlt_base.specs.Limits.{limit_of};
ghost use Rattle.vaultc_words.specs.Commands as c;
ghost use Rattle.vaultc_words.specs.View.{seen_taken};

use crate::words::Taken;
use std::alloc::Global;
use thiserror::Error;
use vlt_base::{SOURCE_BYTES, limit};
use vlt_io::{Store, StoreError};

/// Why the bytes of files aren't had.
#[derive(Clone, Copy, Debug, Error)]
pub enum FileError<'a> {
    /// There is no file of this name, or reading it failed.
    #[error("the file isn't read")]
    Unread(&'a str),
    /// The file of this name has more bytes than the limit of this number allows.
    #[error("the file is too long")]
    TooLong(&'a str, u8),
    #[error("there was no memory for the file")]
    Memory,
}

/// Reads a file, once, whose bytes the limit of this number bounds.
pub fn read_file<'a, S: Store>(
    alloc: Global,
    store: &mut S,
    name: &'a str,
    number: u8,
) -> Result<Vec<u8>, FileError<'a>>
    requires from { 1 ≤ number }
    requires to { number ≤ 15 }
    requires small { limit_of number < 2 ^ 32 }
    ensures read { IfSome (seen_file result) (MayRead S.Store store.old store.new
        (Some (record { name = name.now; limit = number }) ∷ [])) }
    ensures short { IfOk result (λ bytes. ¬ (IsOver number bytes.items)) }
    ensures numbered { IfErr result IsNumbered }
{
    let most = limit(number) as usize;
    match store.read(alloc, name, most) {
        Ok(bytes) if bytes.len() > most => Err(FileError::TooLong(name, number)),
        Ok(bytes) => Ok(bytes),
        Err(StoreError::Failed) => Err(FileError::Unread(name)),
        Err(StoreError::Memory) => Err(FileError::Memory),
    }
}

/// Reads a file of numbers. One that isn't named has no bytes.
fn read_numbers<'a, S: Store>(
    alloc: Global,
    store: &mut S,
    name: Option<&'a str>,
) -> Result<Vec<u8>, FileError<'a>>
    ensures read { IfSome (seen_file result) (MayRead S.Store store.old store.new
        (option_map numbers_in (option_map (λ f. f.now) name.entry) ∷ [])) }
    ensures short { IfOk result (λ bytes. ¬ (IsOver limits.SOURCE_BYTES bytes.items)) }
    ensures numbered { IfErr result IsNumbered }
{
    match name {
        Some(name) => read_file(alloc, store, name, SOURCE_BYTES),
        None => Ok(Vec::new(alloc)),
    }
}

/// The bytes of the files of a run.
#[derive(Drop)]
pub struct RunFiles {
    pub text: Vec<u8>,
    pub input: Vec<u8>,
    pub answers: Vec<u8>,
}

/// Reads the files of a run, one after another; the limit of this number bounds the text's bytes.
pub fn read_run_files<'a, S: Store>(
    alloc: Global,
    store: &mut S,
    file: &'a str,
    number: u8,
    taken: Taken<'a>,
) -> Result<RunFiles, FileError<'a>>
    requires from { 1 ≤ number }
    requires to { number ≤ 15 }
    requires small { limit_of number < 2 ^ 32 }
    ensures read { IfSome (seen_files result) (MayRead S.Store store.old store.new
        (run_sources (record { name = file.now; limit = number }) (seen_taken taken.entry))) }
    ensures short { IfOk result (AreShort number) }
    ensures numbered { IfErr result IsNumbered }
{
    let text = read_file(alloc, store, file, number)?;
    let input = read_numbers(alloc, store, taken.input)?;
    let answers = read_numbers(alloc, store, taken.answers)?;
    Ok(RunFiles {
        text,
        input,
        answers,
    })
}

/// The bytes of the files of a run for a host.
#[derive(Drop)]
pub struct HostFiles {
    pub run: RunFiles,
    pub calls: Vec<u8>,
}

/// Reads the files of a run for a host, one after another: the text, the calls, and the files of numbers.
pub fn read_host_files<'a, S: Store>(
    alloc: Global,
    store: &mut S,
    file: &'a str,
    calls: &'a str,
    taken: Taken<'a>,
) -> Result<HostFiles, FileError<'a>>
    ensures read { IfSome (seen_host_files result) (MayRead S.Store store.old store.new
        (sources_of (c.host file.now calls.now (seen_taken taken.entry)))) }
    ensures short { IfOk result AreShortForHost }
    ensures numbered { IfErr result IsNumbered }
{
    let text = read_file(alloc, store, file, SOURCE_BYTES)?;
    let calls = read_file(alloc, store, calls, SOURCE_BYTES)?;
    let input = read_numbers(alloc, store, taken.input)?;
    let answers = read_numbers(alloc, store, taken.answers)?;
    Ok(HostFiles {
        run: RunFiles {
            text,
            input,
            answers,
        },
        calls,
    })
}

/// The bytes of the files of `module`.
#[derive(Drop)]
pub struct ModuleFiles {
    pub interface: Vec<u8>,
    pub own: Vec<u8>,
}

/// Reads the files of an interface and a module, one after another.
pub fn read_module_files<'a, S: Store>(
    alloc: Global,
    store: &mut S,
    interface: &'a str,
    file: &'a str,
) -> Result<ModuleFiles, FileError<'a>>
    ensures read { IfSome (seen_module_files result) (MayRead S.Store store.old store.new
        (sources_of (c.modules interface.now file.now))) }
    ensures short { IfOk result AreShortModules }
    ensures numbered { IfErr result IsNumbered }
{
    let interface = read_file(alloc, store, interface, SOURCE_BYTES)?;
    let own = read_file(alloc, store, file, SOURCE_BYTES)?;
    Ok(ModuleFiles { interface, own })
}

/// The bytes of the files of `link`.
#[derive(Drop)]
pub struct LinkFiles {
    pub interface: Vec<u8>,
    pub first: Vec<u8>,
    pub second: Vec<u8>,
}

/// Reads the files of an interface and two modules, one after another.
pub fn read_link_files<'a, S: Store>(
    alloc: Global,
    store: &mut S,
    interface: &'a str,
    first: &'a str,
    second: &'a str,
) -> Result<LinkFiles, FileError<'a>>
    ensures read { IfSome (seen_link_files result) (MayRead S.Store store.old store.new
        (sources_of (c.link interface.now first.now second.now))) }
    ensures short { IfOk result AreShortLinked }
    ensures numbered { IfErr result IsNumbered }
{
    let interface = read_file(alloc, store, interface, SOURCE_BYTES)?;
    let first = read_file(alloc, store, first, SOURCE_BYTES)?;
    let second = read_file(alloc, store, second, SOURCE_BYTES)?;
    Ok(LinkFiles {
        interface,
        first,
        second,
    })
}
