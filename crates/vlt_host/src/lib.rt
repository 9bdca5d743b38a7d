//! Runs for a host. Calls files: bytes go in, a host's calls come out, or the first bad line.
//! Read `specs/CallsFile.antt` first: what a file says.
//! Used by: the command `host` of `vaultc`.
//! Its parts: `machine` is what a host calls, in any order; `runs` does the calls of a file.
#![tactic(auto)]

ghost use Rattle.std.specs.Prelude.{◌≡◌, ℕ, ◌-◌, ◌^◌, ◌<◌, length, IfOk, Ok, Err};
ghost use Rattle.vlt_host_meaning.specs.Tables.{calls_in};
ghost use Rattle.vlt_host.specs.CallsFile.{calls_of};

mod error;
mod lines;
mod machine;
mod runs;
mod words;

pub use error::CallsError;
use lines::push_call;
pub use machine::HostValue;
pub use runs::{HostStop, run_calls, run_for_host};
use std::alloc::Global;
use vlt_host_meaning::Calls;
use vlt_numbers::cut;

const LINE_ENDS: &[u8] = b"\n";

/// Reads a calls file: each line is a call, a name and arguments between spaces, tabs and carriage returns.
/// After a last line feed no further line begins, and an empty line is no call.
///
/// # Errors
///
/// `Bad` with the first line that is no call, and `Memory` where there is too little.
pub fn read_calls(alloc: Global, text: &[u8]) -> Result<Calls, CallsError>
    requires { length text.now < 2 ^ 32 - 1 }
    ensures ok { IfOk result (λ calls. calls_of text.now ≡ Ok (calls_in calls)) }
    ensures bad { (line : ℕ) → result ≡ Err (CallsError.Bad line) →
        calls_of text.now ≡ Err line }
{
    let mut names = Vec::new(alloc);
    let mut name_ends = Vec::new(alloc);
    let mut args = Vec::new(alloc);
    let mut arg_ends = Vec::new(alloc);
    let mut rest = text;
    while !rest.is_empty() {
        let (line, after) = cut(rest, LINE_ENDS);
        push_call(&mut names, &mut args, line, name_ends.len() as u32 + 1)?;
        name_ends.push(names.len() as u32)?;
        arg_ends.push(args.len() as u32)?;
        rest = after;
    }
    Ok(Calls {
        names,
        name_ends,
        args,
        arg_ends,
    })
}
