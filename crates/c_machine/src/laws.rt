//! What is proved of the machine.

ghost use Rattle.c_machine.specs.Laws.{MachineIsTheRun, TablesSuffice};

/// From the start of a run the moves lead to its end.
pub fn machine_is_the_run()
    ensures { MachineIsTheRun }
{}

/// The tables suffice for the whole run.
pub fn tables_suffice()
    ensures { TablesSuffice }
{}
