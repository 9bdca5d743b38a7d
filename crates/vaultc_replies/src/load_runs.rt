//! Runs of generated programs, and what `load` says after them.

ghost use Rattle.std.specs.Prelude.{◌≡◌, IfOk};
ghost use Rattle.vlt_core.specs.View.{program_of};
ghost use Rattle.vlt_interp.specs.Reached.{IsRunnable};
ghost use Rattle.vaultc_runs.specs.Finishes.{Finishes};
ghost use Rattle.vaultc_replies.specs.Loads as l;
ghost use Rattle.vaultc_replies.specs.Loads.{IsReplyAfterEmit, load_counts, load_reply};
ghost use Rattle.vaultc_runs.specs.Loading.{is_done, is_cut};
ghost use Rattle.vaultc_runs.specs.Shown.{shown_reply};

use std::alloc::{AllocError, Global};
use vaultc_runs::{DONE, Kept, NO_MEMORY, Reply, finish_end, finish_reply};
use vaultc_words::{Generated, default_budgets};
use vlt_core::Program;
use vlt_interp::runs::run;
use vlt_io::Sink;
use vlt_numbers::cut;
use vlt_reports::bodies;
use vlt_steps::{RunEnd, Stop};

/// The most bytes that are told of what a run printed.
const MOST_PRINTED: usize = 20;

/// What a text has before its first line feed, cut after so many bytes as are told.
fn first_line(text: &[u8]) -> &[u8]
    ensures { result.now ≡ l.first_line text.now }
{
    let (line, _) = cut(text, b"\n");
    &line[..line.len().min(MOST_PRINTED)]
}

/// The line of `load` up to what was printed.
fn counts(
    alloc: Global,
    functions: u32,
    bytes: usize,
    with_body: usize,
    emitted: usize,
) -> Result<Vec<u8>, AllocError>
    ensures { IfOk result (λ v. v.items ≡ load_counts functions bytes with_body emitted) }
{
    let text = format!(in alloc;
        "load {functions} bytes {bytes} functions {with_body} emitted {emitted} printed "
    )?;
    Ok(text.into_bytes())
}

/// The numbers of a generated program whose C file has so many bytes, and whose run wrote these events.
fn numbers(
    alloc: Global,
    made: &Generated,
    program: &Program,
    emitted: usize,
    events: &[u8],
) -> Result<Reply, AllocError>
    ensures { IfOk result (λ r. shown_reply r
        ≡ load_reply made.now.functions made.now.text.items (program_of program.now)
        emitted events.now) }
{
    let mut text = counts(
        alloc,
        made.functions,
        made.text.len(),
        bodies(program),
        emitted,
    )?;
    text.extend_from_slice(first_line(events))?;
    text.extend_from_slice(b"\n")?;
    Ok(Reply { status: DONE, text })
}

/// Whether a run came to the end of `main`.
fn is_done(end: &RunEnd<Stop>) -> bool
    ensures { result ≡ is_done end.now }
{
    matches!(end, RunEnd::Stopped(Stop::Done))
}

/// Whether a run was cut off, as there was no memory for its events.
fn is_cut(end: &RunEnd<Stop>) -> bool
    ensures { result ≡ is_cut end.now }
{
    matches!(end, RunEnd::Stopped(Stop::SinkFault))
}

/// Runs a program whose C file has so many bytes.
pub fn run_compiled<K: Sink>(
    alloc: Global,
    made: &Generated,
    program: &Program,
    emitted: usize,
    out: &mut K,
) -> u8
    requires { IsRunnable (program_of program.now) }
    ensures { Finishes K.Sink
        (IsReplyAfterEmit made.now.functions made.now.text.items (program_of program.now) emitted)
        out.old out.new result }
{
    let mut events = Kept::new(alloc);
    let end = run(alloc, program, &[], &[], default_budgets(), &mut events);
    if is_done(&end) {
        return finish_reply(out, numbers(alloc, made, program, emitted, events.bytes()));
    }
    if is_cut(&end) {
        return NO_MEMORY;
    }
    finish_end(alloc, end, out)
}
