//! The program: words and real files go in, a status comes out, and lines go to standard output.
//! Read `status_of` first.
//! Used by: nothing. `vaultq_core::vaultq` does the rest; the store keeps what it read, so that an answer is one to these bytes.
#![tactic(auto)]

ghost use Rattle.std.specs.Prelude.{◌≡◌, ◌≢◌, ◌⊎◌, IfErr};
ghost use Rattle.std.specs.IoError.{error_kind};

use std::env;
use std::io::{self, ErrorKind};
use std::process::ExitCode;
use std::rt::{Env, Files};
use vaultq_core::status::{NO_COMMAND, NO_MEMORY, SINK_FAILED};
use vaultq_core::vaultq;
use vlt_io::{DirStore, Logged, OutSink};

/// The words after the program's name.
fn words_of<R: Env + AllocGlobal>(rt: &R) -> io::Result<Vec<String>> {
    let mut words: Vec<String> = env::args(rt)?.collect(rt.alloc())?;
    if !words.is_empty() {
        let name = words.remove(0);
        drop(name);
    }
    Ok(words)
}

/// Answers the question that the words are, and gives the status. Words that aren't text are no question, and where memory runs
/// out for the words the status says so.
fn status_of<R: Files + Print + AllocGlobal>(rt: &R, words: io::Result<Vec<String>>) -> u8
    ensures no_text { IfErr words (λ e. error_kind e ≢ ErrorKind.OutOfMemory →
        (result ≡ NO_COMMAND) ⊎ (result ≡ SINK_FAILED)) }
    ensures no_memory { IfErr words (λ e. error_kind e ≡ ErrorKind.OutOfMemory →
        result ≡ NO_MEMORY) }
{
    let mut store = Logged::new(rt.alloc(), DirStore::new(rt));
    let mut out = OutSink::new(io::writer(rt));
    match words {
        Ok(words) => vaultq(rt.alloc(), words.as_slice(), &mut store, &mut out),
        Err(error) if error.kind() == ErrorKind::OutOfMemory => NO_MEMORY,
        Err(_) => vaultq(rt.alloc(), &[], &mut store, &mut out),
    }
}

fn main(rt: HostRuntime) -> ExitCode {
    let words = words_of(&rt);
    ExitCode::from(status_of(&rt, words))
}
