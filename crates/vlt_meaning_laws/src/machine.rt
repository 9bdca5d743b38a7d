//! A core program in; the run of a machine on plain data out.
//! Read `specs/Machine/Machine.antt` (after_move) first, then `specs/Machine/Laws.antt`: they serve `vlt_interp` alone.
//! Used by: `vlt_interp`, whose machine with a stack runs a program as the definition of runs says.

ghost use Rattle.vlt_meaning_laws.specs.Machine.Laws.{MachineIsTheRun, StackSuffices};

/// The moves of the machine lead to where a function's statements lead.
pub fn machine_is_the_run()
    ensures { MachineIsTheRun }
{}

/// A stack whose height the program and the depth give suffices.
pub fn stack_suffices()
    ensures { StackSuffices }
{}
