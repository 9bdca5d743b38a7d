//! Hosts that call a program's functions: budgets, input, answers and a list of calls, to a text and an outcome; no code runs.
//! Read `specs/HostRun.antt` last: the modules of `specs/Lib.antt` are in reading order.
//! Used by: the law that no host makes an accepted program go wrong, the test of calls (`vlt_host_acts::permits`), and the reader of calls files.
#![tactic(auto)]

mod calls;

ghost use Rattle.vlt_host_meaning.specs.Samples.Told.{AreTold};
ghost use Rattle.vlt_host_meaning.specs.Samples.Driver as driver;
ghost use Rattle.vlt_host_meaning.specs.Samples.Levels as levels;

pub use calls::{Call, Calls, HostArg};

/// Worked calls of a driver, and of functions with a bound entry, come to these outcomes and write these texts.
pub fn hosts_are_told()
    ensures driver { AreTold driver.program driver.runs }
    ensures permitted { AreTold driver.program driver.third_calls }
    ensures levels { AreTold levels.program levels.runs }
{}
