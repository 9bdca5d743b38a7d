//! The bytes of a C file and of files of numbers, and budgets in; how the run of the program ends out, its events going to a sink.
//! Read `specs/Runs/Ends.antt` (EndsAs) first.
//! Used by: the command `crun` (`vaultc_runs::c_runs`).

ghost use Rattle.std.specs.Prelude.{◌<◌, ◌-◌, ◌^◌, length};
ghost use Rattle.c_interp.specs.Runs.Ends.{EndsAs};

mod end;
mod run;

use c_kinds::unrefused_programs_can_run;
use c_reader::{CError, read_c};
pub use end::CEnd;
use run::run_file;
use std::alloc::Global;
use vlt_base::Budgets;
use vlt_io::Sink;
use vlt_steps::RunEnd;

/// Runs the C program of a text within budgets, over the numbers of an input file and the answers of an answers file; a file
/// without bytes has none. The events are written to the sink, and nothing else is.
pub fn crun<K: Sink>(
    alloc: Global,
    text: &[u8],
    input: &[u8],
    answers: &[u8],
    budgets: Budgets,
    out: &mut K,
) -> CEnd
    requires text { length text.now < 2 ^ 32 - 1 }
    requires input { length input.now < 2 ^ 32 - 1 }
    requires answers { length answers.now < 2 ^ 32 - 1 }
    ensures { EndsAs text.now input.now answers.now budgets
        (record { written = K.written out.old; faults = K.faults out.old })
        (record { written = K.written out.new; faults = K.faults out.new }) result }
{
    unrefused_programs_can_run();
    match read_c(alloc, text) {
        Ok(file) => CEnd::Ended(run_file(alloc, &file.program, input, answers, budgets, out)),
        Err(CError::Memory) => CEnd::Ended(RunEnd::Memory),
        Err(error) => CEnd::Unread(error),
    }
}
